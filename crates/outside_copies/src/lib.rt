// Lines of comparisons, made outside, with which the definitions of request A8 are compared. There is no code here: specs/ has it all.
#![tactic(auto)]

// Figures of a small dictionary, made outside, with which the definitions of request A1 are compared. There is no code here: specs/ has it all.
#![tactic(auto)]

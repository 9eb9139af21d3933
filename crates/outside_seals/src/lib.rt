// Figures of a small sealed log, made outside, with which the definitions of request A6 are compared. There is no code here: specs/ has it all.
#![tactic(auto)]

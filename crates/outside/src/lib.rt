// The rules computed on a small log, and compared with figures made outside Rattle. There is no code here: specs/ has it all.
#![tactic(auto)]

// Two stores that should agree: comparing them, as definitions, and what follows from them, for any hash and any version of the log. There is no code here: specs/ has the definitions, proofs/ what follows.
#![tactic(auto)]

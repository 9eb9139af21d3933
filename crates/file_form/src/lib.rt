// The file form of a held state: its bytes, and writing and reading it, as definitions, and what follows from them, for any hash and any version of the log. There is no code here: specs/ has the definitions, proofs/ what follows.
#![tactic(auto)]

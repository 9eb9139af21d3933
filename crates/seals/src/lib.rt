// HMAC and the sealed logs of the vans: what they are and what the calls answer, as definitions, and what follows from them, for any hash. There is no code here: specs/ has the definitions, proofs/ what follows.
#![tactic(auto)]

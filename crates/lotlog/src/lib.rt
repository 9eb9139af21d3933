// The C interface: every public call but hashing in pieces, as an export that the host programs link. An export hands on what it is given, and what
// the call answers. It returns the number of document 01 or 02; the numbers of the answer go to `answer`, which is always written whole; a refusal leaves lent memory as it
// was.
#![tactic(auto)]

mod answering; // what an export gives back
mod building; // building proofs
mod checking; // checking proofs
mod comparing; // two stores that should agree
mod disputing; // the dispute
mod hashing; // SHA-256
mod holding; // held states
mod recalls; // the dictionary of recalled lots
mod sealing; // HMAC, and the sealed logs of the vans
mod storing; // the store

// Two accepted proofs that differ show a lie of the house: two different messages with one hash.
#![tactic(auto)]

mod show; // writing messages into buffers
mod settle; // the dispute routine

pub use place::{Part, differing, differing_at};
pub use settle::{DisputeError, Side, dispute};
pub use show::Shown;

// An accepted presence and an accepted absence, for one key and root: two different messages of equal hash, or a message whose hash is all zeros.
#![tactic(auto)]

mod meet; // what the two proofs come to
mod show; // the routine that forms the messages

pub use show::{ClashError, Clashed, Shown, clash};

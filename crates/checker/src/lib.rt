// What a practice does with what the house sends: it checks that an entry is an element of the log, and that the log it holds a state of has gone on.
#![tactic(auto)]

pub use advancement::{AdvanceError, check_advancement};
pub use membership::{MembershipError, check_membership};

// Keys, their handles, and lent lists of handles.
#![tactic(auto)]

mod key; // a key's handle
mod list; // a lent list: whether it may be used, and whether it has a handle

pub use key::{KEY_LIMIT, KeyTooLong, handle_for, handle_of, within_limit};
pub use list::{has_handle, listed, rows};

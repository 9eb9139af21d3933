// Keys and their handles.
ghost use Rattle.std.specs.Prelude.{◌≡◌, ◌≤◌, length, OnErr, OnOk, false, true};
ghost use Rattle.hash.specs.Hash.{hash_of};
ghost use Rattle.rules.specs.Numbers.{entry_limit};
ghost use Rattle.dictionary.specs.Handles.{handle};
ghost use Rattle.dictionary.specs.Calls.{key_long, handle_call};
ghost use Rattle.handles.specs.Told.{handle_told};

use hash::Digest;

// The most bytes of a key: those of an entry.
pub const KEY_LIMIT: usize = 4_096;

// The key has more than 4,096 bytes.
#[derive(Clone, Copy, Debug, PartialEq, Eq)]
pub struct KeyTooLong;

// Whether a key may have a handle. Nothing is hashed for it: what else a caller has to test comes between this and the hash.
#[tactic(auto, unfolding(dictionary::specs::Calls::key_long))]
pub fn within_limit(key: &[u8]) -> Result<(), KeyTooLong>
    ensures ok { OnOk result (key_long key.now ≡ false) }
    ensures err { OnErr result (key_long key.now ≡ true) }
{
    if KEY_LIMIT < key.len() {
        return Err(KeyTooLong);
    }
    Ok(())
}

// The handle of a key that is not too long.
#[tactic(auto, using(hash::specs::Joined::joined_short))]
pub fn handle_for(key: &[u8]) -> Digest
    requires { length key.now ≤ entry_limit }
    ensures { result.bytes ≡ handle hash_of key.now }
{
    hash::joined(b"\x03", key)
}

// The handle of a key.
#[tactic(auto, unfolding(dictionary::specs::Calls::handle_call))]
pub fn handle_of(key: &[u8]) -> Result<Digest, KeyTooLong>
    ensures { handle_told result ≡ handle_call hash_of key.now }
{
    within_limit(key)?;
    Ok(handle_for(key))
}

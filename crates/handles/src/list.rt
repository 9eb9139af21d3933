// A lent list of handles: whether it may be used, and whether it has a handle.
ghost use Rattle.std.specs.Prelude.{◌≡◌, ◌%◌, length};
ghost use Rattle.dictionary.specs.Handles.{rows_of, rising_from, listed as listed_of, has};

use hash::Digest;

// "at most 1,000 handles"
const MOST: usize = 1_000;

// The rows of 32 bytes, from the front on: the handles of a list, or the siblings of a proof. Bytes behind the last whole row are left out.
pub fn rows(bytes: &[u8]) -> &[[u8; 32]]
    ensures { result.now ≡ rows_of bytes.now }
{
    let (rows, _) = bytes.as_chunks();
    rows
}

// Whether each row is above the one before it: rows, byte by byte, have the order of the numbers that they are.
fn rising(handles: &[u8]) -> bool
    ensures { result ≡ rising_from 0 (rows_of handles.now) }
{
    rows(handles).is_sorted_by(|row, next| row < next)
}

// Whether the list is whole, not too long, and rising.
#[tactic(auto, unfolding(dictionary::specs::Handles::listed))]
pub fn listed(handles: &[u8]) -> bool
    ensures { result ≡ listed_of handles.now }
{
    handles.len() % 32 == 0 && handles.len() / 32 <= MOST && rising(handles)
}

// Whether the list has the handle.
pub fn has_handle(handles: &[u8], key: Digest) -> bool
    requires { length handles.now % 32 ≡ 0 }
    ensures { result ≡ has key.bytes (rows_of handles.now) }
{
    rows(handles).contains(&key.bytes)
}

// Building proofs: the siblings on a key's way, from the root down to the leaf or to the first empty node.
#![tactic(auto)]

ghost use Rattle.std.specs.Prelude.{◌≡◌, ◌+◌, ◌*◌, ◌≤◌, ◌<◌, length};
ghost use Rattle.hash.specs.Hash.{hash_of};
ghost use Rattle.rules.specs.Calls.{written, over};
ghost use Rattle.dictionary.specs.Handles.{is, rows_of, flat};
ghost use Rattle.dictionary.specs.Trie.{way};
ghost use Rattle.dictionary.specs.Calls.{is_present, prove_call, presence_call, absence_call};
ghost use Rattle.trie.specs.Tidy.{Tidy};
ghost use Rattle.prove.specs.Told.{built_told};
ghost use Rattle.prove.specs.declared.ProveError.TheVariants.{KeyTooLong};

use handles::{handle_for, has_handle, listed, within_limit};
use hash::Digest;
use node::key_turns;
use trie::{side_of, subtree};

// Why no proof is built: the list is not one, the asked kind is not true, or the output has no room.
#[derive(Clone, Copy, Debug, PartialEq, Eq)]
pub enum ProveError {
    KeyTooLong,
    ListRefused,
    OtherKind,
    OutputShort,
}

impl From<handles::KeyTooLong> for ProveError {
    ghost from_gives = { λ _ e. e ≡ KeyTooLong };

    fn from(_e: handles::KeyTooLong) -> ProveError {
        ProveError::KeyTooLong
    }
}

// How many siblings stand on the way of `key`, below a node with e levels.
fn siblings(handles: &[u8], key: Digest, e: usize) -> usize
    requires { Tidy e handles.now × (e ≤ 256) }
    ensures { (result ≡ length (way hash_of e key.bytes (rows_of handles.now))) × (result ≤ e) }
{
    if handles.is_empty() {
        return 0;
    }
    if e == 0 {
        return 0;
    }
    let below = e - 1;
    let own = side_of(handles, below, key_turns(&key.bytes, below));
    siblings(own, key, below) + 1
}

// Writes the siblings on the way of `key`, below a node with e levels, to the start of out.
fn put_way(handles: &[u8], key: Digest, e: usize, out: &mut [u8])
    requires { Tidy e handles.now × (e ≤ 256) × (32 * length (way hash_of e key.bytes (rows_of handles.now)) ≤ length out.old) }
    ensures { out.new ≡ over (flat (way hash_of e key.bytes (rows_of handles.now))) out.old }
{
    if handles.is_empty() {
        return;
    }
    if e == 0 {
        return;
    }
    let below = e - 1;
    let one = key_turns(&key.bytes, below);
    let sibling = subtree(side_of(handles, below, !one), below);
    let (front, rest) = out.split_at_mut(32);
    front.copy_from_slice(&sibling.bytes);
    put_way(side_of(handles, below, one), key, below, rest);
}

// Writes the proof for a key to the start of out, where the list has its handle exactly if `present` says so: the bytes of the proof. What stands behind
// it stays.
fn build(handles: &[u8], key: &[u8], out: &mut [u8], present: bool) -> Result<u64, ProveError>
    ensures { written (built_told result) out.new ≡ prove_call hash_of (is present (is_present hash_of handles.now key.now)) handles.now key.now out.old }
{
    within_limit(key)?;
    if !listed(handles) {
        return Err(ProveError::ListRefused);
    }
    let handle = handle_for(key);
    // the two kinds differ in this test alone, so `present` is its bool and no enum
    if has_handle(handles, handle) != present {
        return Err(ProveError::OtherKind);
    }
    let size = 32 * siblings(handles, handle, 256);
    if out.len() < size {
        return Err(ProveError::OutputShort);
    }
    put_way(handles, handle, 256, out);
    // `From` makes no u64 of a usize
    Ok(size as u64)
}

// Writes the proof that the list has the key's handle.
pub fn presence(handles: &[u8], key: &[u8], out: &mut [u8]) -> Result<u64, ProveError>
    ensures { written (built_told result) out.new ≡ presence_call hash_of handles.now key.now out.old }
{
    build(handles, key, out, true)
}

// Writes the proof that the list does not have the key's handle.
pub fn absence(handles: &[u8], key: &[u8], out: &mut [u8]) -> Result<u64, ProveError>
    ensures { written (built_told result) out.new ≡ absence_call hash_of handles.now key.now out.old }
{
    build(handles, key, out, false)
}

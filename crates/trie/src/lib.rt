// The trie over a lent list of handles: the two sides of a list, the digest of the node over it, and the root.
#![tactic(auto)]

ghost use Rattle.std.specs.Prelude.{true, false, ◌≡◌, ◌+◌, ◌*◌, ◌%◌, ◌≤◌, ◌<◌, length};
ghost use Rattle.hash.specs.Hash.{hash_of};
ghost use Rattle.dictionary.specs.Handles.{rows_of, leading};
ghost use Rattle.dictionary.specs.Trie.{subtree as node_of};
ghost use Rattle.dictionary.specs.Calls.{root_call};
ghost use Rattle.trie.specs.Tidy.{Tidy, Sided};
ghost use Rattle.trie.specs.Told.{root_told};

use handles::{listed, rows};
use hash::Digest;
use node::{inner_digest, key_turns, leaf};

// The list of handles is broken, too long, or not rising.
#[derive(Clone, Copy, Debug, PartialEq, Eq)]
pub struct ListRefused;

// How many bytes stand before the first handle with bit 1; all of them, if there is none.
fn ones_from(handles: &[u8], e: usize) -> usize
    requires { (length handles.now % 32 ≡ 0) × (e < 256) }
    ensures { result ≡ 32 * leading e (rows_of handles.now) }
{
    let rows = rows(handles);
    let ones = rows.iter().position(|handle| key_turns(handle, e));
    32 * ones.unwrap_or(rows.len())
}

// The handles of both sides: in a rising list, those with bit 0 stand first.
fn sides(handles: &[u8], e: usize) -> (&[u8], &[u8])
    requires { Tidy (e + 1) handles.now × (e < 256) }
    ensures zeros { Sided false e handles.now result.0.now }
    ensures ones { Sided true e handles.now result.1.now }
{
    handles.split_at(ones_from(handles, e))
}

// The handles of one side, that of bit 1 where `one` says so.
pub fn side_of(handles: &[u8], e: usize, one: bool) -> &[u8]
    requires { Tidy (e + 1) handles.now × (e < 256) }
    ensures { Sided one e handles.now result.now }
{
    let (zeros, ones) = sides(handles, e);
    if one { ones } else { zeros }
}

// The node with e levels below it, over these handles.
pub fn subtree(handles: &[u8], e: usize) -> Digest
    requires { Tidy e handles.now × (e ≤ 256) }
    ensures { result.bytes ≡ node_of hash_of e (rows_of handles.now) }
{
    let Some(first) = rows(handles).first() else {
        return Digest { bytes: [0u8; 32] };
    };
    if e == 0 {
        return leaf(first);
    }
    let below = e - 1;
    let (zeros, ones) = sides(handles, below);
    let left = subtree(zeros, below);
    let right = subtree(ones, below);
    inner_digest(&left, &right)
}

// The root of a lent list of handles.
#[tactic(auto, unfolding(dictionary::specs::Calls::root_call))]
pub fn root(handles: &[u8]) -> Result<Digest, ListRefused>
    ensures { root_told result ≡ root_call hash_of handles.now }
{
    if !listed(handles) {
        return Err(ListRefused);
    }
    Ok(subtree(handles, 256))
}

// Checking proofs of presence and absence: from the leaf or an empty node up to the root.
#![tactic(auto)]

ghost use Rattle.std.specs.Prelude.{◌≡◌, ◌-◌, ◌≤◌, drop};
ghost use Rattle.lists.specs.Bytes.{same};
ghost use Rattle.hash.specs.Hash.{hash_of};
ghost use Rattle.dictionary.specs.Handles.{rows_of};
ghost use Rattle.dictionary.specs.Trie.{climbed};
ghost use Rattle.dictionary.specs.Calls.{check_presence, check_absence};
ghost use Rattle.lookup.specs.Told.{verdict_number};
ghost use Rattle.lookup.specs.Climbing.{Sized, depth_of};
ghost use Rattle.lookup.specs.declared.LookupError.TheVariants.{KeyTooLong};

use handles::{handle_for, rows, within_limit};
use hash::Digest;
use node::{crossing, digest_of, leaf};

// The depth of the trie, and the bytes of the longest proof: a sibling for each level.
const LEVELS: usize = 256;

const LONGEST: usize = 8_192;

// Why a proof is not accepted.
#[derive(Clone, Copy, Debug, PartialEq, Eq)]
pub enum LookupError {
    KeyTooLong,
    WrongLength,
    RootDiffers,
}

impl From<handles::KeyTooLong> for LookupError {
    ghost from_gives = { λ _ e. e ≡ KeyTooLong };

    fn from(_e: handles::KeyTooLong) -> LookupError {
        LookupError::KeyTooLong
    }
}

// The digest at depth t on the way of `key`, from the siblings below it and the node at their end.
pub fn climb(key: Digest, proof: &[u8], bottom: Digest, t: usize) -> Digest
    requires { Sized proof.now × (t ≤ depth_of proof.now) }
    ensures { result.bytes ≡ climbed hash_of (256 - t) key.bytes (drop t (rows_of proof.now)) bottom.bytes }
{
    let siblings = rows(proof);
    let mut own = bottom;
    // the depth itself decides the side, so it is counted and not the rows alone
    for depth in (t..siblings.len()).rev() {
        let sibling = Digest {
            bytes: siblings[depth],
        };
        own = digest_of(crossing(key, LEVELS - 1 - depth, own, sibling));
    }
    own
}

// Whether the siblings lead from this node at their end to the root.
fn leads_to(key: Digest, proof: &[u8], bottom: Digest, root: Digest) -> bool
    requires { Sized proof.now }
    ensures { result ≡ same (climbed hash_of 256 key.bytes (rows_of proof.now) bottom.bytes) root.bytes }
{
    climb(key, proof, bottom, 0) == root
}

// Whether the key's handle stands in the list with this root, by the proof.
pub fn check_presence(key: &[u8], root: Digest, proof: &[u8]) -> Result<(), LookupError>
    ensures { verdict_number result ≡ check_presence hash_of key.now root.bytes proof.now }
{
    within_limit(key)?;
    if proof.len() != LONGEST {
        return Err(LookupError::WrongLength);
    }
    let handle = handle_for(key);
    if !leads_to(handle, proof, leaf(&handle.bytes), root) {
        return Err(LookupError::RootDiffers);
    }
    Ok(())
}

// Whether the key's handle does not stand in the list with this root, by the proof.
pub fn check_absence(key: &[u8], root: Digest, proof: &[u8]) -> Result<(), LookupError>
    ensures { verdict_number result ≡ check_absence hash_of key.now root.bytes proof.now }
{
    within_limit(key)?;
    if proof.len() % 32 != 0 || LONGEST < proof.len() {
        return Err(LookupError::WrongLength);
    }
    let empty = Digest { bytes: [0u8; 32] };
    if !leads_to(handle_for(key), proof, empty, root) {
        return Err(LookupError::RootDiffers);
    }
    Ok(())
}

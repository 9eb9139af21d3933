// What a full way and an empty way of one handle come to: two different messages, or one message.
ghost use Rattle.std.specs.Prelude.{◌≡◌, cond, ◌-◌, ◌*◌, ◌≤◌, ◌<◌, length, take, drop};
ghost use Rattle.lists.specs.Bytes.{same};
ghost use Rattle.hash.specs.Hash.{hash_of};
ghost use Rattle.dictionary.specs.Handles.{rows_of};
ghost use Rattle.dictionary.specs.Trie.{leaf_msg};
ghost use Rattle.dictionary.specs.Meeting.{two, lone, full_msg, meeting};
ghost use Rattle.lookup.specs.Climbing.{Sized};
ghost use Rattle.clash.specs.Found.{meet_of};

use handles::rows;
use hash::Digest;
use lookup::climb;
use node::{crossing, digest_of, leaf};

// What was found from some depth down: two different messages, or one, of the leaf or of an inner node.
#[derive(Clone, Copy)]
pub(crate) enum Meet {
    Two([u8; 65], [u8; 65]),
    Leaf([u8; 33]),
    Inner([u8; 65]),
}

// The message of the leaf.
fn leaf_message(key: Digest) -> [u8; 33]
    ensures { result ≡ leaf_msg key.bytes }
{
    let mut message = [4u8; 33];
    message[1..].copy_from_slice(&key.bytes);
    message
}

// The sibling at a depth.
fn sibling_at(proof: &[u8], depth: usize) -> Digest
    requires { Sized proof.now × (32 * depth < length proof.now) }
    ensures { result.bytes ≡ take 32 (drop (32 * depth) proof.now) }
{
    Digest {
        bytes: rows(proof)[depth],
    }
}

// The full way's message at a depth: that of an inner node, or of the leaf.
fn full_message(key: Digest, presence: &[u8], depth: usize) -> Meet
    requires { (length presence.now ≡ 8192) × (depth ≤ 256) }
    ensures { meet_of result ≡ lone (full_msg hash_of (256 - depth) key.bytes (drop depth (rows_of presence.now))) }
{
    if depth == 256 {
        return Meet::Leaf(leaf_message(key));
    }
    let own = climb(key, presence, leaf(&key.bytes), depth + 1);
    let sibling = sibling_at(presence, depth);
    Meet::Inner(crossing(key, 255 - depth, own, sibling))
}

// The two messages, if they differ; else what was found below.
fn compare(below: Meet, one: [u8; 65], other: [u8; 65]) -> Meet
    ensures { meet_of result ≡ cond (same one other) (meet_of below) (two one other) }
{
    if one == other {
        return below;
    }
    Meet::Two(one, other)
}

// Both ways from the bottom up: what stands found at the root is what differs nearest to it.
pub(crate) fn walk_up(key: Digest, presence: &[u8], absence: &[u8]) -> Meet
    requires { (length presence.now ≡ 8192) × Sized absence.now }
    ensures { meet_of result ≡ meeting hash_of 256 key.bytes (rows_of presence.now) (rows_of absence.now) }
{
    let bottom = absence.len() / 32;
    let mut full = climb(key, presence, leaf(&key.bytes), bottom);
    let mut empty = Digest { bytes: [0u8; 32] };
    let mut found = full_message(key, presence, bottom);
    // the depth decides the side of both messages, so it is counted and the two proofs are not zipped
    for depth in (0..bottom).rev() {
        let a = crossing(key, 255 - depth, full, sibling_at(presence, depth));
        let b = crossing(key, 255 - depth, empty, sibling_at(absence, depth));
        found = compare(found, a, b);
        full = digest_of(a);
        empty = digest_of(b);
    }
    found
}

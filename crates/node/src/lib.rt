// The nodes of the trie: the bits of handles, and the messages and digests of leaves and inner nodes.
#![tactic(auto)]

ghost use Rattle.std.specs.Prelude.{◌≡◌, ◌+◌, ◌≤◌, ◌<◌, length, take, drop};
ghost use Rattle.hash.specs.Hash.{hash_of};
ghost use Rattle.dictionary.specs.Handles.{turn};
ghost use Rattle.dictionary.specs.Trie.{leaf_msg, inner_msg, crossing as crossing_of};

use hash::Digest;

// The bit that has e bits behind it, of the row at `at`.
pub fn turns(s: &[u8], at: usize, e: usize) -> bool
    requires { (at + 32 ≤ length s.now) × (e < 256) }
    ensures { result ≡ turn e (take 32 (drop at s.now)) }
{
    let byte = s[at + (31 - e / 8)];
    (byte >> (e % 8)) % 2 == 1
}

// The bit of a handle that has e bits behind it.
pub fn key_turns(handle: &[u8; 32], e: usize) -> bool
    requires { e < 256 }
    ensures { result ≡ turn e handle.now }
{
    turns(handle, 0, e)
}

// The digest of a full leaf. It and `inner_digest` are calls of their own when compiled too: a recursion over the levels of a trie would else hold the
// hash's blocks on the stack at each of them.
#[inline(never)]
#[tactic(auto, using(hash::specs::Joined::joined_short))]
pub fn leaf(handle: &[u8]) -> Digest
    requires { length handle.now ≤ 4096 }
    ensures { result.bytes ≡ hash_of (leaf_msg handle.now) }
{
    hash::joined(b"\x04", handle)
}

// The message of an inner node.
pub fn inner_message(left: Digest, right: Digest) -> [u8; 65]
    ensures { result ≡ inner_msg left.bytes right.bytes }
{
    let mut message = [5u8; 65];
    message[1..33].copy_from_slice(&left.bytes);
    message[33..].copy_from_slice(&right.bytes);
    message
}

// The digest of an inner node's message.
pub fn digest_of(message: [u8; 65]) -> Digest
    ensures { result.bytes ≡ hash_of message }
{
    hash::joined(&message, b"")
}

// The digest of an inner node over two.
#[inline(never)]
pub fn inner_digest(left: &Digest, right: &Digest) -> Digest
    ensures { result.bytes ≡ hash_of (inner_msg left.now.bytes right.now.bytes) }
{
    digest_of(inner_message(*left, *right))
}

// The message of a node on the way of `key`, with e + 1 levels below it.
#[tactic(auto, unfolding(dictionary::specs::Trie::crossing))]
pub fn crossing(key: Digest, e: usize, own: Digest, sibling: Digest) -> [u8; 65]
    requires { e < 256 }
    ensures { result ≡ crossing_of e key.bytes own.bytes sibling.bytes }
{
    if key_turns(&key.bytes, e) {
        return inner_message(sibling, own);
    }
    inner_message(own, sibling)
}

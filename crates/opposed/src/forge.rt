// Proofs that no list gave: made-up siblings, and the changes with which the stand-in, but no good hash, takes an absence beside a presence.
use hash::Digest;

// The bytes of 256 siblings.
const WHOLE: usize = 8192;

// The digest at a depth on the key's way, by a proof of presence; at depth 0 it is the root that the proof shows.
pub(crate) fn full_at(key: Digest, presence: &[u8; WHOLE], depth: usize) -> Digest {
    if 256 < depth {
        return key;
    }
    lookup::climb(key, presence, node::leaf(&key.bytes), depth)
}

// Made-up siblings.
pub(crate) fn scatter(proof: &mut [u8]) {
    for (i, byte) in proof.iter_mut().enumerate() {
        // below 251, so no bit is lost; `try_from` would give a `Result` to unwrap
        *byte = (i % 251) as u8;
    }
}

// Adds a row to a sibling, byte by byte.
fn add(sibling: &mut [u8], row: [u8; 32]) {
    for (byte, with) in sibling.iter_mut().zip(row) {
        *byte ^= with;
    }
}

// The siblings of the presence down to this depth, and there one over which the stand-in hashes an empty node as the presence's own.
pub(crate) fn part(key: Digest, presence: &[u8; WHOLE], depth: usize, absence: &mut [u8; WHOLE]) {
    if 255 < depth {
        return;
    }
    let own = full_at(key, presence, depth + 1);
    let start = 32 * depth;
    let end = start + 32;
    absence[..end].copy_from_slice(&presence[..end]);
    add(&mut absence[start..end], own.bytes);
}

// Makes the sibling at this depth one over which the stand-in hashes the presence's node to zeros: it turns the message by one byte, and 05 stands first.
pub(crate) fn zero(key: Digest, presence: &mut [u8; WHOLE], depth: usize) {
    if 255 < depth {
        return;
    }
    let mut row = full_at(key, presence, depth + 1).bytes;
    row[31] ^= 5;
    let start = 32 * depth;
    presence[start..start + 32].copy_from_slice(&row);
}

// A presence and an absence of one key that a house could show if its hash were weak, at several depths, and what they come to. Over the stand-in both
// are accepted, and two different messages of one hash are formed, or one whose hash is all zeros; over SHA-256 the absence is refused. `stdout` has
// the lines over SHA-256 and `stdout.standin` those over the stand-in, both from `scripts/expected`.
#![tactic(auto)]

mod forge;
mod say;

use hash::Digest;
use std::io;

// Both checks, and what the two proofs come to, in one line.
fn run(
    rt: &impl Print,
    key: &[u8],
    root: Digest,
    presence: &[u8],
    absence: &[u8],
) -> io::Result<()> {
    let shown = say::Checked(lookup::check_presence(key, root, presence));
    let denied = say::Checked(lookup::check_absence(key, root, absence));
    let mut one = [0u8; 65];
    let mut other = [0u8; 65];
    let to = clash::clash(key, root, presence, absence, &mut one, &mut other);
    let came = say::Came {
        to,
        one: &one,
        other: &other,
    };
    println!(rt; "{shown}, {denied}; {came}")
}

// The handle of a key; zeros for a key that has none.
fn handle(key: &[u8]) -> Digest {
    let zeros = Digest { bytes: [0u8; 32] };
    handles::handle_of(key).unwrap_or(zeros)
}

// An absence that parts from the presence at this depth.
fn parted(rt: &impl Print, key: &[u8], depth: usize) -> io::Result<()> {
    if 255 < depth {
        return Ok(());
    }
    print!(rt; "parted at {depth}: ")?;
    let handle = handle(key);
    let mut presence = [0u8; 8192];
    let mut absence = [0u8; 8192];
    forge::scatter(&mut presence);
    let root = forge::full_at(handle, &presence, 0);
    forge::part(handle, &presence, depth, &mut absence);
    run(rt, key, root, &presence, &absence[..32 * depth + 32])
}

// An absence that ends at this depth, at which the presence's node hashes to zeros.
fn zero(rt: &impl Print, key: &[u8], depth: usize) -> io::Result<()> {
    if 256 < depth {
        return Ok(());
    }
    print!(rt; "zeros at {depth}: ")?;
    let handle = handle(key);
    let mut presence = [0u8; 8192];
    forge::scatter(&mut presence);
    forge::zero(handle, &mut presence, depth);
    let root = forge::full_at(handle, &presence, 0);
    run(rt, key, root, &presence, &presence[..32 * depth])
}

// Fails only where a line can't be written.
fn main(rt: HostRuntime) -> io::Result<()> {
    let lot = b"lidocaine 2 %, lot 4711";
    for depth in [0, 1, 100, 255] {
        parted(&rt, lot, depth)?;
    }
    for depth in [0, 1, 100, 255] {
        zero(&rt, lot, depth)?;
    }
    // the key whose full leaf the stand-in hashes to zeros
    let mut key = [0u8; 32];
    key[30] = 4;
    key[31] = 3;
    zero(&rt, &key, 256)
}

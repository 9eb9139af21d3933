// Proofs that no log gave: made-up bytes, with the digests where the checker looks for them. The stand-in hashes a mended component as another.
use hash::Digest;
use path::{Length, Position};

// A proof after which another is mended, and the place on the path of the component that is.
#[derive(Clone, Copy)]
pub(crate) struct Model<'a> {
    pub(crate) place: usize,
    pub(crate) proof: &'a [u8],
}

// Made-up bytes from one place to another.
fn scatter(proof: &mut [u8], from: usize, end: usize, seed: u8) {
    for (i, byte) in proof.iter_mut().enumerate().take(end).skip(from) {
        *byte = seed ^ (i % 256) as u8;
    }
}

// The digest of element j, whose component is at `at`; one of no component where it does not fit.
fn digest_at(proof: &[u8], at: usize, j: Position) -> Digest {
    let head = messages::element_head(j);
    let len = path::component_len(j);
    if proof.len() < at || proof.len() - at < len {
        return hash::joined(&head, b"");
    }
    hash::joined(&head, &proof[at..at + len])
}

// Writes a component of element j at `at`: made-up bytes, but in this row the known digest. Gives its digest.
fn lay(proof: &mut [u8], at: usize, j: Position, row: usize, known: Digest, seed: u8) -> Digest {
    let len = path::component_len(j);
    if proof.len() < at || proof.len() - at < len || len / 32 <= row {
        return known;
    }
    scatter(proof, at, at + len, seed);
    let from = at + 32 * row;
    proof[from..from + 32].copy_from_slice(&known.bytes);
    digest_at(proof, at, j)
}

// Changes the 32 bytes at `at`, the start of a row, so that the stand-in hashes the component to `is` and no longer to `was`: nine bytes of the
// message stand before the component.
fn mend(proof: &mut [u8], at: usize, was: Digest, is: Digest) {
    if proof.len() < at || proof.len() - at < 32 {
        return;
    }
    for (k, byte) in proof[at..at + 32].iter_mut().enumerate() {
        let m = (9 + k) % 32;
        *byte ^= was.bytes[m] ^ is.bytes[m];
    }
}

// The row that is mended: the d of a component, but for the first, whose d is the entry's, its first link.
fn mended_at(place: usize, at: usize) -> usize {
    if place == 0 { 32 } else { at }
}

// Writes the components of the path from i to n; with a model only up to its place on the path, where the component hashes, under the stand-in, as
// that of the model does. Gives the last digest.
pub(crate) fn forge(
    entry: &[u8],
    i: Position,
    n: Length,
    seed: u8,
    model: Option<Model>,
    proof: &mut [u8],
) -> Digest {
    let mut known = hash::joined(b"\x00", entry);
    let mut j = i;
    let mut at: usize = 0;
    let mut row: usize = 0;
    for place in 0..=path::HOPS_MOST {
        known = lay(proof, at, j, row, known, seed);
        if let Some(other) = model
            && other.place == place
        {
            let is = digest_at(other.proof, at, j);
            mend(proof, mended_at(place, at), known, is);
            return is;
        }
        if n.0 <= j.0 {
            return known;
        }
        at = at.saturating_add(path::component_len(j));
        let r = path::hop(j, n);
        row = r.level as usize + 1;
        j = r.to;
    }
    known
}

// The stand-in for the hash: the XOR of the message's 32-byte blocks, the last filled with zeros. Anyone can make it collide, so disputes can be run.
#![tactic(auto)]

ghost use Rattle.std.specs.Prelude.{◌≡◌, ◌<◌};
ghost use Rattle.standin.specs.Stirred.{stirred};
ghost use Rattle.standin.specs.Joined.{joined_of};

use std::fmt;

// The same type stands in `hash`: either crate takes the other's place, so neither can stand on it.
#[derive(Clone, Copy, Debug, PartialEq, Eq)]
pub struct Digest {
    pub bytes: [u8; 32],
}

// Two hex digits for each byte.
impl fmt::Display for Digest {
    fn fmt<W: fmt::Write>(&self, f: &mut fmt::Formatter<W>) -> fmt::Result {
        for byte in self.bytes {
            write!(f, "{byte:02x}")?;
        }
        Ok(())
    }
}

// The row with the bytes of s XORed in, the first at place `at`.
fn stir(row: [u8; 32], s: &[u8], at: usize) -> [u8; 32]
    requires { at < 32 }
    ensures { result ≡ stirred at row s.now }
{
    let mut out = row;
    let mut k = at;
    for &byte in s {
        out[k] ^= byte;
        k = (k + 1) % 32;
    }
    out
}

// The digest of two strings, one after the other; of more than 65,536 bytes in all it is zeros.
pub fn joined(first: &[u8], second: &[u8]) -> Digest
    ensures { result.bytes ≡ joined_of first.now second.now }
{
    if 65536 < first.len() {
        return Digest { bytes: [0u8; 32] };
    }
    if 65536 - first.len() < second.len() {
        return Digest { bytes: [0u8; 32] };
    }
    let one = stir([0u8; 32], first, 0);
    let both = stir(one, second, first.len() % 32);
    Digest { bytes: both }
}

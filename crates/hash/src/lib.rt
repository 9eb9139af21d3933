// The one function through which the log hashes. The crates above know the hash by its name and its 32 bytes alone, so that a stand-in can take this crate's place.
#![tactic(auto)]

ghost use Rattle.std.specs.Prelude.{◌≡◌};
ghost use Rattle.hash.specs.Joined.{joined_of};

use std::fmt;

#[derive(Clone, Copy, Debug, PartialEq, Eq)]
pub struct Digest {
    pub bytes: [u8; 32],
}

// Two hex digits for each byte.
impl fmt::Display for Digest {
    fn fmt<W: fmt::Write>(&self, f: &mut fmt::Formatter<W>) -> fmt::Result {
        for byte in self.bytes {
            write!(f, "{byte:02x}")?;
        }
        Ok(())
    }
}

// The digest of two strings, one after the other; of more than 65,536 bytes in all it is zeros.
pub fn joined(first: &[u8], second: &[u8]) -> Digest
    ensures { result.bytes ≡ joined_of first.now second.now }
{
    let bytes = sha256::joined(first, second).unwrap_or([0u8; 32]);
    Digest { bytes }
}

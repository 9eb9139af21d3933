// Byte strings in lent slices: compared, copied, and read and written as big-endian numbers.
#![tactic(auto)]

ghost use Rattle.std.specs.Prelude.{◌≡◌, ◌+◌, ◌≤◌, ◌<◌, length, take, drop};
ghost use Rattle.std.proofs.Math.Seq.{paste};
ghost use Rattle.lists.specs.Bytes.{be, number};

// Whether two slices hold the same bytes.
#[tactic(auto, using(crate::proofs::Tests::tested, std::proofs::lemmas::List::take_all))]
pub fn same(a: &[u8], b: &[u8]) -> bool
    ensures { result ≡ Rattle.lists.specs.Bytes.same a.now b.now }
{
    a == b
}

// Copies the first k bytes of `from` into s from index at. The rest of s stays. The count stands beside the slice as callers' proofs name it.
pub fn put(s: &mut [u8], at: usize, from: &[u8], k: usize)
    requires { (at + k ≤ length s.old) × (k ≤ length from.now) }
    ensures { s.new ≡ paste s.old at from.now k }
{
    s[at..at + k].copy_from_slice(&from[..k]);
}

// Copies all of `from` into s from index at, byte by byte. For two lent slices, of which a machine's copy of blocks can't know that they lie apart: it
// would be `memmove`, which the library for C does without.
pub fn lay(s: &mut [u8], at: usize, from: &[u8])
    requires { at + length from.now ≤ length s.old }
    ensures { s.new ≡ paste s.old at from.now (length from.now) }
{
    for (i, byte) in from.iter().enumerate() {
        s[at + i] = *byte;
    }
}

// The 32 bytes of s from index at.
pub fn row_at(s: &[u8], at: usize) -> [u8; 32]
    requires { at + 32 ≤ length s.now }
    ensures { result ≡ take 32 (drop at s.now) }
{
    let end = at + 32;
    s[at..end].try_into().unwrap()
}

// A byte as a number.
pub fn wide(x: u8) -> u64
    ensures { (result ≡ x) × (result < 256) }
{
    u64::from(x)
}

// The number that the 8 bytes of s from index at are.
pub fn number_at(s: &[u8], at: usize) -> u64
    requires { at + 8 ≤ length s.now }
    ensures { result ≡ number (take 8 (drop at s.now)) }
{
    let digits: [u8; 8] = s[at..at + 8].try_into().unwrap();
    u64::from_be_bytes(digits)
}

// The number that k bytes of s from index at are.
pub fn number_in(s: &[u8], at: usize, k: usize) -> u64
    requires { (at + k ≤ length s.now) × (k ≤ 8) }
    ensures { result ≡ number (take k (drop at s.now)) }
{
    let mut digits = [0u8; 8];
    digits[8 - k..].copy_from_slice(&s[at..at + k]);
    number_at(&digits, 0)
}

// The 8 bytes of a number.
pub fn bytes_of(n: u64) -> [u8; 8]
    ensures { result ≡ be 8 n }
{
    n.to_be_bytes()
}

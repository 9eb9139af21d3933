// What a practice holds, by value: the state at the start of a log, whether a state is in order, and what a hop does to its rows.
// A row is in use by its bit of the count, never by what it contains.
#![tactic(auto)]

ghost use Rattle.std.specs.Prelude.{◌≡◌, ◌||◌, ◌+◌, ◌/◌, ◌%◌, ◌^◌, ◌<◌, length, drop};
ghost use Rattle.lists.specs.Bytes.{same, zeros};
ghost use Rattle.hash.specs.Hash.{hash_of};
ghost use Rattle.rules.specs.Numbers.{v1};
ghost use Rattle.rules.specs.Messages.{size};
ghost use Rattle.rules.specs.Held.{odd, no_rows, free_zero, held_start, held_zeros, is_in_order};
ghost use Rattle.rules.specs.Checking.{rows_after};
ghost use Rattle.held.specs.Holding.{rows_of, holds};
ghost use Rattle.held.specs.Rows.{rows_say};

use hash::Digest;
use path::Length;
use std::mem;

// The rows of a basis, one for each level.
pub const LEVELS: usize = path::LEVELS;

// What a row that is not in use is.
pub const FREE: Digest = Digest { bytes: [0u8; 32] };

// A log number, the count of its elements, the digest of the last, and the basis: a row for each level.
#[derive(Clone, Copy)]
pub struct Held {
    pub log: u64,
    pub count: Length,
    pub digest: Digest,
    pub rows: [Digest; LEVELS],
}

// A state at count 0: no row is in use.
fn at_zero(log: u64, digest: Digest) -> Held
    ensures { holds result ≡ record { log = log; count = 0; digest = digest.bytes; rows = no_rows v1 } }
{
    Held {
        log,
        count: Length(0),
        digest,
        rows: [FREE; LEVELS],
    }
}

// The state at 0 of a log.
pub fn start(log: u64) -> Held
    ensures { holds result ≡ held_start hash_of v1 log }
{
    at_zero(log, messages::start_digest(log))
}

// The state that stands beside a refusal where no state could be made.
pub fn all_zeros() -> Held
    ensures { holds result ≡ held_zeros v1 }
{
    at_zero(0, FREE)
}

// Whether a row may stand as it is: the lowest bit of q tells if it is in use, and a free row is zero.
fn may_stand(q: u64, row: Digest) -> bool
    ensures { result ≡ (odd q || same row.bytes zeros) }
{
    q % 2 == 1 || row == FREE
}

// Whether the free rows are zero.
fn has_free_rows_zero(h: &Held) -> bool
    ensures { result ≡ free_zero h.now.count.0 (rows_of h.now.rows) }
{
    h.rows
        .iter()
        .enumerate()
        .all(|(c, row)| may_stand(h.count.0 >> c, *row))
}

// Whether a state is in order; what is not is refused with 2.
#[tactic(auto, using(crate::proofs::Turns::same_tests), unfolding(rules::specs::Held::is_in_order))]
pub fn is_in_order(h: &Held) -> bool
    ensures { result ≡ is_in_order hash_of v1 (holds h.now) }
{
    if path::LIMIT < h.count.0 {
        return false;
    }
    if !has_free_rows_zero(h) {
        return false;
    }
    1 <= h.count.0 || h.digest == messages::start_digest(h.log)
}

// What the rows say of a hop of this level: from it upward, lowest first, each row in use against the link of the next level in the component reached.
// Where they don't agree, the lowest row that differs.
pub fn compare_rows(h: &Held, level: u32, component: &[u8]) -> Option<u64>
    requires { (level < 64) × (h.now.count.0 % 2 ^ level ≡ 0) × (length component.now ≡ size v1 (h.now.count.0 + 2 ^ level)) }
    ensures { result ≡ rows_say level (h.now.count.0 / 2 ^ level) (drop level (rows_of h.now.rows)) component.now }
{
    let mut q = h.count.0 >> level;
    for (c, row) in h.rows.iter().enumerate().skip(level as usize) {
        if q % 2 == 0 {
            return None;
        }
        if !messages::row_is(component, c + 2, *row) {
            return Some(c as u64);
        }
        q /= 2;
    }
    None
}

// The rows after a good hop of this level: its row, if free, takes the digest held; else the last value in use moves to the first free row, and the
// rows before that become zero.
pub fn carry(h: &Held, level: u32) -> [Digest; LEVELS]
    requires { level < 64 }
    ensures { rows_of result ≡ rows_after level (holds h.now) }
{
    let mut rows = h.rows;
    let mut moving = h.digest;
    let mut bits = h.count.0 >> level;
    let from = LEVELS.min(level as usize);
    for row in &mut rows[from..] {
        if bits % 2 == 0 {
            *row = moving;
            return rows;
        }
        moving = mem::replace(row, FREE);
        bits /= 2;
    }
    rows
}

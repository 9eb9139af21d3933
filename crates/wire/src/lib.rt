// The bytes of a held state: log number and count (8 bytes each, big-endian), digest, rows.
#![tactic(auto)]

ghost use Rattle.std.specs.Prelude.{◌≡◌, length, drop};
ghost use Rattle.std.proofs.Math.Seq.{paste};
ghost use Rattle.rules.specs.Numbers.{v1};
ghost use Rattle.held.specs.Holding.{rows_of, holds};
ghost use Rattle.wire.specs.Wire.{rows_place, rows_bytes, flat, rows_in, wire_of, held_in};

use hash::Digest;
use held::Held;
use path::Length;
use std::array;

// Where the rows begin, and all bytes of a state.
const ROWS: usize = 48;

pub const HELD_BYTES: usize = ROWS + 32 * held::LEVELS;

fn read_rows(bytes: &[u8; HELD_BYTES]) -> [Digest; held::LEVELS]
    ensures { rows_of result ≡ rows_in v1.levels (drop rows_place bytes.now) }
{
    array::from_fn(|l| Digest {
        bytes: lists::row_at(bytes, ROWS + 32 * l),
    })
}

// The state that stands in the bytes, in order or not.
#[tactic(auto, unfolding(crate::specs::Wire::held_in))]
pub fn read_held(bytes: &[u8; HELD_BYTES]) -> Held
    ensures { holds result ≡ held_in bytes.now }
{
    Held {
        log: lists::number_at(bytes, 0),
        count: Length(lists::number_at(bytes, 8)),
        digest: Digest {
            bytes: lists::row_at(bytes, 16),
        },
        rows: read_rows(bytes),
    }
}

fn put_rows(rows: &[Digest; held::LEVELS], out: &mut [u8; HELD_BYTES])
    ensures { (out.new ≡ paste out.old rows_place (flat (rows_of rows.now)) rows_bytes) × (length (flat (rows_of rows.now)) ≡ rows_bytes) }
{
    for (l, row) in rows.iter().enumerate() {
        let at = ROWS + 32 * l;
        out[at..at + 32].copy_from_slice(&row.bytes);
    }
}

// Writes the bytes of a state.
pub fn write_held(h: &Held, out: &mut [u8; HELD_BYTES])
    ensures { out.new ≡ wire_of (holds h.now) }
{
    out[..8].copy_from_slice(&h.log.to_be_bytes());
    out[8..16].copy_from_slice(&h.count.0.to_be_bytes());
    out[16..ROWS].copy_from_slice(&h.digest.bytes);
    put_rows(&h.rows, out);
}

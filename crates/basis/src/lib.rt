// The state that a practice holds at a length, as a store gives it. Digests are taken as they are stored.
#![tactic(auto)]

ghost use Rattle.std.specs.Prelude.{◌≡◌, ◌≤◌, ◌<◌, length};
ghost use Rattle.hash.specs.Hash.{hash_of};
ghost use Rattle.rules.specs.Numbers.{v1, limit};
ghost use Rattle.rules.specs.Store.{place, t_of};
ghost use Rattle.rules.specs.Held.{row_of, basis};
ghost use Rattle.rules.specs.Calls.{held_call};
ghost use Rattle.held.specs.Holding.{rows_of};
ghost use Rattle.basis.specs.Told.{held_told};

use hash::Digest;
use held::Held;
use path::Length;
use std::array;
use store::ReadError;

// A row of the state at a length: it is in use by the bit of its level, and then holds T of the length with the bits up to that cleared.
fn basis_row(s: &[u8], at: Length, level: usize) -> Digest
    requires { (place v1 at.0 ≤ length s.now) × (at.0 ≤ limit v1) × (level < v1.levels) }
    ensures { result.bytes ≡ row_of (t_of hash_of v1 s.now) at.0 level }
{
    if (at.0 >> level) % 2 == 0 {
        return Digest { bytes: [0u8; 32] };
    }
    let above = level + 1;
    let cleared = Length((at.0 >> above) << above);
    layout::stored_digest(s, cleared)
}

// The rows of the state at a length.
fn basis_rows(s: &[u8], at: Length) -> [Digest; held::LEVELS]
    requires { (place v1 at.0 ≤ length s.now) × (at.0 ≤ limit v1) }
    ensures { rows_of result ≡ basis (t_of hash_of v1 s.now) at.0 0 v1.levels }
{
    array::from_fn(|level| basis_row(s, at, level))
}

// The state that a practice holds at a length, as the store gives it.
pub fn held_at(store: &[u8], at: Length) -> Result<Held, ReadError>
    ensures { held_told result ≡ held_call hash_of v1 store.now at.0 }
{
    let count = store::count(store)?;
    if count < at {
        return Err(ReadError::NoSuchNumber);
    }
    Ok(Held {
        log: layout::log_of(store),
        count: at,
        digest: layout::stored_digest(store, at),
        rows: basis_rows(store, at),
    })
}

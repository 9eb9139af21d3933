// Checking proofs.
ghost use Rattle.std.specs.Prelude.{◌≡◌};
ghost use Rattle.lotlog.specs.Exports.{told, wrote};
ghost use Rattle.lotlog.specs.Outcomes.{lot_check_membership, lot_check_advancement};

use super::answering::tell;
use hash::Digest;
use path::{Length, Position};
use wire::{HELD_BYTES, read_held, write_held};

// Whether `entry` is element i of the log with n elements and this digest, by the proof. Answer: the hops found good;
// with 10, also the element reached and the level hopped, else 0.
#[tactic(auto, unfolding(crate::specs::Outcomes::lot_check_membership, membership::specs::Verdicts::verdict_of))]
#[unsafe(no_mangle)]
pub extern "C" fn lot_check_membership(
    entry: &[u8],
    i: u64,
    n: u64,
    digest: &[u8; 32],
    proof: &[u8],
    answer: &mut [u64; 3],
) -> u64
    ensures { told result answer.new ≡ lot_check_membership entry.now i n digest.now proof.now }
{
    let d = Digest { bytes: *digest };
    let checked = checker::check_membership(entry, Position(i), Length(n), d, proof);
    tell(checked, answer)
}

// Whether the log that `held` tells of has gone on to n elements and this digest, by the proof; if so, `held` becomes the state there. Answer: the
// hops found good; with 9 and 10, also the element reached and the row or the level hopped, else 0.
#[tactic(auto, unfolding(crate::specs::Outcomes::lot_check_advancement))]
#[unsafe(no_mangle)]
pub extern "C" fn lot_check_advancement(
    held: &mut [u8; HELD_BYTES],
    n: u64,
    digest: &[u8; 32],
    proof: &[u8],
    answer: &mut [u64; 3],
) -> u64
    ensures { wrote result answer.new held.new ≡ lot_check_advancement held.old n digest.now proof.now }
{
    let d = Digest { bytes: *digest };
    let mut state = read_held(held);
    let checked = checker::check_advancement(&mut state, Length(n), d, proof);
    if checked.is_ok() {
        write_held(&state, held);
    }
    tell(checked, answer)
}

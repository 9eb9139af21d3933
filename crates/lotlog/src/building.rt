// Building proofs.
ghost use Rattle.std.specs.Prelude.{◌≡◌};
ghost use Rattle.lotlog.specs.Exports.{wrote};
ghost use Rattle.lotlog.specs.Outcomes.{lot_build_membership, lot_build_advancement};

use super::answering::tell;
use path::{Length, Position};

// Writes the membership proof of element i in the log of n elements to the start of `out`; what stands behind it stays. Answer: its length.
#[tactic(auto, unfolding(crate::specs::Outcomes::lot_build_membership))]
#[unsafe(no_mangle)]
pub extern "C" fn lot_build_membership(
    store: &[u8],
    i: u64,
    n: u64,
    out: &mut [u8],
    answer: &mut [u64; 3],
) -> u64
    ensures { wrote result answer.new out.new ≡ lot_build_membership store.now i n out.old }
{
    tell(
        build::membership(store, Position(i), Length(n), out),
        answer,
    )
}

// Writes the advancement proof from i to n elements to the start of `out`; what stands behind it stays. Answer: its length.
#[tactic(auto, unfolding(crate::specs::Outcomes::lot_build_advancement))]
#[unsafe(no_mangle)]
pub extern "C" fn lot_build_advancement(
    store: &[u8],
    i: u64,
    n: u64,
    out: &mut [u8],
    answer: &mut [u64; 3],
) -> u64
    ensures { wrote result answer.new out.new ≡ lot_build_advancement store.now i n out.old }
{
    tell(build::advancement(store, Length(i), Length(n), out), answer)
}

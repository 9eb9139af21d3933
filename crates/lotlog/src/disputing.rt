// The dispute.
ghost use Rattle.std.specs.Prelude.{◌≡◌};
ghost use Rattle.dispute.specs.Answers.{finding_of};
ghost use Rattle.lotlog.specs.Exports.{told, showed, finding};
ghost use Rattle.lotlog.specs.Outcomes.{lot_dispute, lot_differing};

use dispute::{DisputeError, Shown, Side};
use hash::Digest;
use path::{Length, Position};

// Writes what a dispute comes to; gives the number to return.
#[tactic(auto, unfolding(dispute::specs::Answers::finding_of))]
fn tell_finding(found: Result<Option<Shown>, DisputeError>, answer: &mut [u64; 3]) -> u64
    ensures { told result answer.new ≡ finding (finding_of found) }
{
    let (number, said) = match found {
        Ok(None) => (0, [1, 0, 0]),
        Ok(Some(shown)) => (0, [0, shown.first as u64, shown.second as u64]),
        Err(DisputeError::BufferShort) => (6, [0, 0, 0]),
        Err(DisputeError::NotAccepted(Side::First)) => (13, [1, 0, 0]),
        Err(DisputeError::NotAccepted(Side::Second)) => (13, [2, 0, 0]),
    };
    *answer = said;
    number
}

// The dispute of two entries and two proofs for one (i, n, digest): the two messages that clash go to the start of `first_out` and
// `second_out`. Answer: 1 if nothing differs, else 0 and the two lengths; with 13, the proof that is not accepted.
#[tactic(auto, unfolding(crate::specs::Outcomes::lot_dispute))]
#[unsafe(no_mangle)]
pub extern "C" fn lot_dispute(
    first_entry: &[u8],
    first_proof: &[u8],
    second_entry: &[u8],
    second_proof: &[u8],
    i: u64,
    n: u64,
    digest: &[u8; 32],
    first_out: &mut [u8],
    second_out: &mut [u8],
    answer: &mut [u64; 3],
) -> u64
    ensures { showed result answer.new first_out.new second_out.new ≡ lot_dispute first_entry.now first_proof.now second_entry.now second_proof.now i n digest.now first_out.old second_out.old }
{
    let d = Digest { bytes: *digest };
    let found = dispute::dispute(
        first_entry,
        first_proof,
        second_entry,
        second_proof,
        Position(i),
        Length(n),
        d,
        first_out,
        second_out,
    );
    tell_finding(found, answer)
}

// The differing component nearest n of two proofs for (i, n). Answer: where it begins in the second, and its length, which is 0 if there is none.
#[tactic(auto, unfolding(crate::specs::Outcomes::lot_differing))]
#[unsafe(no_mangle)]
pub extern "C" fn lot_differing(
    first: &[u8],
    second: &[u8],
    i: u64,
    n: u64,
    answer: &mut [u64; 3],
) -> u64
    ensures { told result answer.new ≡ lot_differing first.now second.now i n }
{
    *answer = match dispute::differing_at(first, second, Position(i), Length(n)) {
        Some(part) => [part.from as u64, part.size as u64, 0],
        None => [0, 0, 0],
    };
    0
}

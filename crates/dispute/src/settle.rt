// The dispute routine: 6, then 13, then what two accepted proofs come to.
ghost use Rattle.std.specs.Prelude.{◌≡◌, Ok};
ghost use Rattle.hash.specs.Hash.{hash_of};
ghost use Rattle.rules.specs.Numbers.{v1};
ghost use Rattle.rules.specs.Dispute.{dispute as messages_of};
ghost use Rattle.rules.specs.Calls.{showing, dispute_call};
ghost use Rattle.dispute.specs.Answers.{outcome};
ghost use Rattle.dispute.specs.Ready.{Ready};

use super::show::{Shown, show_elements, show_entries};
use hash::Digest;
use membership::check_membership;
use path::{Length, Position};
use place::find;

// A buffer takes the longest message: that of the longest entry.
const ROOM: usize = messages::ENTRY_LIMIT + 1;

// Which of the two proofs.
#[derive(Clone, Copy, Debug, PartialEq, Eq)]
pub enum Side {
    First,
    Second,
}

// Why there is no dispute: a buffer that is too short, or a proof that is not accepted.
#[derive(Clone, Copy, Debug, PartialEq, Eq)]
pub enum DisputeError {
    BufferShort,
    NotAccepted(Side),
}

// The messages of two accepted proofs that differ: of the elements, or else of the entries. An entry and its proof stand side by side here as in
// `dispute`: a struct of the two slices would serve this function alone, and its clauses would read `one.entry.entry.now`.
fn settle(
    entry1: &[u8],
    proof1: &[u8],
    entry2: &[u8],
    proof2: &[u8],
    i: Position,
    n: Length,
    out1: &mut [u8],
    out2: &mut [u8],
) -> Option<Shown>
    requires { Ready entry1.now proof1.now entry2.now proof2.now i.0 n.0 out1.old out2.old }
    ensures { outcome (Ok result) out1.new out2.new ≡ showing (messages_of v1 i.0 n.0 entry1.now entry2.now proof1.now proof2.now) out1.old out2.old }
{
    let Some(spot) = find(proof1, proof2, i, n) else {
        return show_entries(entry1, entry2, out1, out2);
    };
    Some(show_elements(spot, proof1, proof2, out1, out2))
}

// The dispute of two entries and two proofs for one (i, n, digest): the lengths of the two messages shown, or none where nothing differs.
pub fn dispute(
    entry1: &[u8],
    proof1: &[u8],
    entry2: &[u8],
    proof2: &[u8],
    i: Position,
    n: Length,
    digest: Digest,
    out1: &mut [u8],
    out2: &mut [u8],
) -> Result<Option<Shown>, DisputeError>
    ensures { outcome result out1.new out2.new ≡ dispute_call hash_of v1 entry1.now proof1.now entry2.now proof2.now i.0 n.0 digest.bytes out1.old out2.old }
{
    let one_short = out1.len() < ROOM;
    let two_short = out2.len() < ROOM;
    if one_short || two_short {
        return Err(DisputeError::BufferShort);
    }
    if check_membership(entry1, i, n, digest, proof1).is_err() {
        return Err(DisputeError::NotAccepted(Side::First));
    }
    if check_membership(entry2, i, n, digest, proof2).is_err() {
        return Err(DisputeError::NotAccepted(Side::Second));
    }
    Ok(settle(entry1, proof1, entry2, proof2, i, n, out1, out2))
}

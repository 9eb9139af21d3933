// Writing two messages, each from the start of its buffer.
ghost use Rattle.std.specs.Prelude.{◌≡◌, ◌++◌, ◌+◌, ◌≤◌, length, Ok, Some};
ghost use Rattle.std.proofs.Math.Option.{some};
ghost use Rattle.lists.specs.Bytes.{same};
ghost use Rattle.rules.specs.Numbers.{v1};
ghost use Rattle.rules.specs.Messages.{entry_msg, size};
ghost use Rattle.rules.specs.Dispute.{unlike, messages as messages_at, message_room};
ghost use Rattle.rules.specs.Calls.{over, showing};
ghost use Rattle.dispute.specs.Answers.{outcome};

use messages::{component_at, element_head};
use place::Spot;

// The lengths of two messages that were written.
#[derive(Clone, Copy, Debug, PartialEq, Eq)]
pub struct Shown {
    pub first: usize,
    pub second: usize,
}

// Writes the head and the body from the start of `out`; the rest stays.
fn show(out: &mut [u8], head: &[u8], body: &[u8])
    requires { length head.now + length body.now ≤ length out.old }
    ensures { out.new ≡ over (head.now ++ body.now) out.old }
{
    lists::lay(out, 0, head);
    lists::lay(out, head.len(), body);
}

// Shows two messages with one head.
fn show_both(head: &[u8], first: &[u8], second: &[u8], out1: &mut [u8], out2: &mut [u8]) -> Shown
    requires { (length head.now + length first.now ≤ length out1.old) × (length head.now + length second.now ≤ length out2.old) }
    ensures { outcome (Ok (Some result)) out1.new out2.new ≡ showing (some (head.now ++ first.now, head.now ++ second.now)) out1.old out2.old }
{
    show(out1, head, first);
    show(out2, head, second);
    Shown {
        first: head.len() + first.len(),
        second: head.len() + second.len(),
    }
}

// Shows the messages of the two components that differ at this spot.
pub(crate) fn show_elements(
    spot: Spot,
    proof1: &[u8],
    proof2: &[u8],
    out1: &mut [u8],
    out2: &mut [u8],
) -> Shown
    requires spot_in_bounds { (spot.offset + size v1 spot.element.0 ≤ length proof1.now) × (spot.offset + size v1 spot.element.0 ≤ length proof2.now) }
    requires message_room_in_bounds { (message_room ≤ length out1.old) × (message_room ≤ length out2.old) }
    ensures { outcome (Ok (Some result)) out1.new out2.new
        ≡ showing (messages_at v1 proof1.now proof2.now (some (spot.element.0, spot.offset))) out1.old out2.old }
{
    let one = component_at(proof1, spot.offset, spot.element);
    let two = component_at(proof2, spot.offset, spot.element);
    show_both(&element_head(spot.element), one, two, out1, out2)
}

// Shows the messages of the two entries, if they differ.
pub(crate) fn show_entries(
    entry1: &[u8],
    entry2: &[u8],
    out1: &mut [u8],
    out2: &mut [u8],
) -> Option<Shown>
    requires { (1 + length entry1.now ≤ length out1.old) × (1 + length entry2.now ≤ length out2.old) }
    ensures { outcome (Ok result) out1.new out2.new
        ≡ showing (unlike (same entry1.now entry2.now) (entry_msg entry1.now, entry_msg entry2.now)) out1.old out2.old }
{
    if entry1 == entry2 {
        return None;
    }
    Some(show_both(b"\x00", entry1, entry2, out1, out2))
}

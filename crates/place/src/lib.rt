// Where two proofs for (i, n) differ, nearest n.
#![tactic(auto)]

ghost use Rattle.std.specs.Prelude.{◌≡◌, ◌+◌, ◌<◌, ◌≤◌, length, IfSome};
ghost use Rattle.rules.specs.Numbers.{v1};
ghost use Rattle.rules.specs.Paths.{path};
ghost use Rattle.rules.specs.Messages.{size, total};
ghost use Rattle.rules.specs.Dispute.{nearest, differing as differing_part, differs_at};
ghost use Rattle.place.specs.Places.{spot_of, part_is, cut};

use messages::component_at;
use path::{Length, Position};

// Where two proofs differ: in the components of this element, which begin at this place of both.
#[derive(Clone, Copy, Debug, PartialEq, Eq)]
pub struct Spot {
    pub element: Position,
    pub offset: usize,
}

// Where a part of a proof begins, and its size.
#[derive(Clone, Copy, Debug, PartialEq, Eq)]
pub struct Part {
    pub from: usize,
    pub size: usize,
}

// The components of j, which begin at `at`, if they differ.
fn look(first: &[u8], second: &[u8], j: Position, at: usize) -> Option<Spot>
    requires { (at + size v1 j.0 ≤ length first.now) × (at + size v1 j.0 ≤ length second.now) }
    ensures { spot_of result ≡ differs_at v1 first.now second.now j.0 at }
{
    if component_at(first, at, j) == component_at(second, at, j) {
        return None;
    }
    Some(Spot {
        element: j,
        offset: at,
    })
}

// The difference nearest n of two proofs with the path's length: the walk goes from i to n, hop by hop, which no range gives, and a later one goes
// before an earlier.
pub fn find(first: &[u8], second: &[u8], i: Position, n: Length) -> Option<Spot>
    requires { (i.0 ≤ n.0) × (length first.now ≡ total v1 (path i.0 n.0)) × (length second.now ≡ total v1 (path i.0 n.0)) }
    ensures { spot_of result ≡ nearest v1 (path i.0 n.0) first.now second.now 0 }
{
    let mut spot = look(first, second, i, 0);
    let mut at = path::component_len(i);
    let mut j = i;
    while j.0 < n.0 {
        j = path::hop(j, n).to;
        spot = look(first, second, j, at).or(spot);
        at += path::component_len(j);
    }
    spot
}

// Where the differing component nearest n stands in both proofs, never of no bytes; none if none differs, a length is wrong or the positions are refused.
pub fn differing_at(first: &[u8], second: &[u8], i: Position, n: Length) -> Option<Part>
    ensures part { part_is result ≡ differing_part v1 i.0 n.0 first.now second.now }
    ensures sized { IfSome result (λ p. 0 < p.size) }
{
    if !path::asked(i, n) {
        return None;
    }
    let len = path::membership_len(i, n);
    if first.len() != len || second.len() != len {
        return None;
    }
    let spot = find(first, second, i, n)?;
    Some(Part {
        from: spot.offset,
        size: path::component_len(spot.element),
    })
}

// The differing component nearest n, as a part of the second proof; nothing is copied.
pub fn differing<'a, 'b>(first: &'a [u8], second: &'b [u8], i: Position, n: Length) -> &'b [u8]
    ensures { result.now ≡ cut (differing_part v1 i.0 n.0 first.now second.now) second.now }
{
    let Some(part) = differing_at(first, second, i, n) else {
        return &second[..0];
    };
    let end = part.from + part.size;
    &second[part.from..end]
}

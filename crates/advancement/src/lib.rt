// Checking an advancement: the state held, the numbers, the proof's length, then hop by hop rows and links, then the last digest.
#![tactic(auto)]

ghost use Rattle.std.specs.Prelude.{◌≡◌, ◌≤◌, length};
ghost use Rattle.hash.specs.Hash.{hash_of};
ghost use Rattle.rules.specs.Numbers.{v1, limit};
ghost use Rattle.rules.specs.Paths.{hops, path_after};
ghost use Rattle.rules.specs.Messages.{total};
ghost use Rattle.rules.specs.Checking.{advance_walk};
ghost use Rattle.rules.specs.Calls.{advance_answer, advance_call};
ghost use Rattle.held.specs.Holding.{holds};
ghost use Rattle.advancement.specs.Advancing.{advanced, outcome_of, step_of, Ready, hop_of, verdict_by};

use hash::Digest;
use held::Held;
use path::{Length, Position, Reach};

// Why an advancement is not accepted; `hops` are the hops found good. `element` is the element reached where a row or a link differs, with the row, the
// lowest that does, or the level hopped.
#[derive(Clone, Copy, Debug, PartialEq, Eq)]
pub enum AdvanceError {
    StateBroken,
    NoSuchLength,
    WrongLength,
    RowDiffers { hops: u64, element: u64, row: u64 },
    LinkDiffers { hops: u64, element: u64, level: u64 },
    DigestDiffers { hops: u64 },
}

// What one hop finds; a bad one names the element reached and the row or the level that differs.
#[derive(Clone, Copy)]
pub enum Hop {
    Good,
    Row { element: u64, row: u64 },
    Link { element: u64, level: u64 },
}

// A hop's verdict, and the state then: after a bad hop, the state as it was.
#[derive(Clone, Copy)]
pub struct Hopped {
    pub verdict: Hop,
    pub state: Held,
}

// The hop `by`, over the component of the element that it reaches: first the rows, then the link.
fn take_hop(h: &Held, by: Reach, component: &[u8]) -> Hopped
    requires { Ready (holds h.now) by.level by.to.0 component.now }
    ensures { step_of result ≡ hop_of (holds h.now) by.level component.now }
{
    let to = by.to;
    if let Some(row) = held::compare_rows(h, by.level, component) {
        return Hopped {
            verdict: Hop::Row { element: to.0, row },
            state: *h,
        };
    }
    if !messages::row_is(component, by.level as usize + 1, h.digest) {
        return Hopped {
            verdict: Hop::Link {
                element: to.0,
                level: u64::from(by.level),
            },
            state: *h,
        };
    }
    Hopped {
        verdict: Hop::Good,
        state: Held {
            log: h.log,
            count: Length(to.0),
            digest: messages::element_digest(to, component),
            rows: held::carry(h, by.level),
        },
    }
}

// What a hop's verdict says of the check, with the hops found good before it.
fn verdict_by(v: Hop, hops: u64) -> Result<u64, AdvanceError>
    ensures { result ≡ verdict_by v hops }
{
    match v {
        Hop::Good => Ok(hops),
        Hop::Row { element, row } => Err(AdvanceError::RowDiffers { hops, element, row }),
        Hop::Link { element, level } => Err(AdvanceError::LinkDiffers {
            hops,
            element,
            level,
        }),
    }
}

// The walk from the state held to n, the first bad hop deciding, and then the last digest. Beside a refusal the state held stays.
fn follow(held: &mut Held, n: Length, digest: Digest, proof: &[u8]) -> Result<u64, AdvanceError>
    requires { (held.old.count.0 ≤ n.0) × (n.0 ≤ limit v1) × (length proof.now ≡ total v1 (path_after held.old.count.0 n.0)) }
    ensures { outcome_of (advanced result held.new) ≡ advance_answer (holds held.old) (advance_walk hash_of v1 (holds held.old) (hops held.old.count.0 n.0) proof.now 0 digest.bytes 0) }
{
    let mut state = *held;
    let mut next: usize = 0;
    let mut hops: u64 = 0;
    // A walk by hops: no range has its steps.
    while state.count < n {
        let by = path::hop(Position(state.count.0), n);
        let component = messages::component_at(proof, next, by.to);
        let r = take_hop(&state, by, component);
        let v = r.verdict;
        let Hop::Good = v else {
            return verdict_by(v, hops);
        };
        state = r.state;
        next += component.len();
        hops += 1;
    }
    if state.digest != digest {
        return Err(AdvanceError::DigestDiffers { hops });
    }
    *held = state;
    Ok(hops)
}

// Whether the log that `held` tells of has gone on to n elements and this digest, by the proof. If so, `held` is the new state from now on, and the hops are
// given; beside a refusal it stays.
pub fn check_advancement(
    held: &mut Held,
    n: Length,
    digest: Digest,
    proof: &[u8],
) -> Result<u64, AdvanceError>
    ensures { outcome_of (advanced result held.new) ≡ advance_call hash_of v1 (holds held.old) n.0 digest.bytes proof.now }
{
    if !held::is_in_order(held) {
        return Err(AdvanceError::StateBroken);
    }
    if !path::ahead(held.count, n) {
        return Err(AdvanceError::NoSuchLength);
    }
    if proof.len() != path::advancement_len(held.count, n) {
        return Err(AdvanceError::WrongLength);
    }
    follow(held, n, digest, proof)
}

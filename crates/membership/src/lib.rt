// Checking membership: entry, positions, length, first d, then hop by hop, then the last digest.
#![tactic(auto)]

ghost use Rattle.std.specs.Prelude.{◌≡◌, ◌+◌, ◌≤◌, ◌<◌, ◌^◌, length};
ghost use Rattle.hash.specs.Hash.{hash_of};
ghost use Rattle.rules.specs.Numbers.{v1};
ghost use Rattle.rules.specs.Paths.{level, hops, path};
ghost use Rattle.rules.specs.Messages.{size, total};
ghost use Rattle.rules.specs.Checking.{walk, member};
ghost use Rattle.membership.specs.Verdicts.{verdict_of};
ghost use Rattle.membership.specs.Hopping.{hop_of, verdict_by};

use hash::Digest;
use messages::{component_at, row_is};
use path::{Length, Position};

// Why a proof is refused; `hops` are the hops found good, and `element` and `level` say where a link differs: the element reached and the level hopped.
#[derive(Clone, Copy, Debug, PartialEq, Eq)]
pub enum MembershipError {
    EntryTooLong,
    NoSuchElement,
    WrongLength,
    OtherEntry,
    LinkDiffers { hops: u64, element: u64, level: u64 },
    DigestDiffers { hops: u64 },
}

// What one hop finds; `Link` names the element reached and the level whose link differs.
#[derive(Clone, Copy)]
enum Hop {
    Good,
    Link { element: u64, level: u64 },
}

// Where a walk stands: an element, its digest, and where the next component begins.
#[derive(Clone, Copy)]
struct Walk {
    at: Position,
    digest: Digest,
    next: usize,
}

// A hop's verdict, and where the walk stands then: after a bad hop, where it stood.
#[derive(Clone, Copy)]
struct Hopped {
    verdict: Hop,
    state: Walk,
}

// The walk's next hop toward n.
fn take_hop(w: Walk, n: Length, proof: &[u8]) -> Hopped
    requires { (w.at.0 < n.0) × (w.next + size v1 (w.at.0 + 2 ^ level w.at.0 n.0) ≤ length proof.now) }
    ensures { result ≡ hop_of proof.now n.0 w }
{
    let r = path::hop(w.at, n);
    let component = component_at(proof, w.next, r.to);
    if !row_is(component, r.level as usize + 1, w.digest) {
        return Hopped {
            verdict: Hop::Link {
                element: r.to.0,
                level: u64::from(r.level),
            },
            state: w,
        };
    }
    Hopped {
        verdict: Hop::Good,
        state: Walk {
            at: r.to,
            digest: messages::element_digest(r.to, component),
            next: w.next + component.len(),
        },
    }
}

// What a hop's verdict says of the check, with the hops found good before it.
fn verdict_by(v: Hop, hops: u64) -> Result<u64, MembershipError>
    ensures { result ≡ verdict_by v hops }
{
    match v {
        Hop::Good => Ok(hops),
        Hop::Link { element, level } => Err(MembershipError::LinkDiffers {
            hops,
            element,
            level,
        }),
    }
}

// The walk from i to n, the first bad hop deciding, and then the last digest. A good proof gives its hops. No range gives the steps: each hop is found
// where the one before it ends.
fn follow(start: Walk, n: Length, digest: Digest, proof: &[u8]) -> Result<u64, MembershipError>
    requires { (start.at.0 ≤ n.0) × (start.next + total v1 (path start.at.0 n.0) ≡ length proof.now + size v1 start.at.0) }
    ensures { verdict_of result ≡ walk hash_of v1 start.at.0 start.digest.bytes (hops start.at.0 n.0) proof.now start.next digest.bytes 0 }
{
    let mut state = start;
    let mut hops: u64 = 0;
    while state.at.0 < n.0 {
        let r = take_hop(state, n, proof);
        let v = r.verdict;
        let Hop::Good = v else {
            return verdict_by(v, hops);
        };
        state = r.state;
        hops += 1;
    }
    if state.digest != digest {
        return Err(MembershipError::DigestDiffers { hops });
    }
    Ok(hops)
}

// Whether `entry` is element i of the log with n elements and this digest, by the proof: if so, the hops of its path.
pub fn check_membership(
    entry: &[u8],
    i: Position,
    n: Length,
    digest: Digest,
    proof: &[u8],
) -> Result<u64, MembershipError>
    ensures { verdict_of result ≡ member hash_of v1 entry.now i.0 n.0 digest.bytes proof.now }
{
    if messages::ENTRY_LIMIT < entry.len() {
        return Err(MembershipError::EntryTooLong);
    }
    if !path::asked(i, n) {
        return Err(MembershipError::NoSuchElement);
    }
    if proof.len() != path::membership_len(i, n) {
        return Err(MembershipError::WrongLength);
    }
    let first = component_at(proof, 0, i);
    if !row_is(first, 0, messages::entry_digest(entry)) {
        return Err(MembershipError::OtherEntry);
    }
    let start = Walk {
        at: i,
        digest: messages::element_digest(i, first),
        next: first.len(),
    };
    follow(start, n, digest, proof)
}

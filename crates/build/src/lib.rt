// What the house makes from a store: membership and advancement proofs, written into lent output; and, handed on from `basis`, the state that a
// practice holds at a length. Digests are taken as they are stored; only the audit judges those.
#![tactic(auto)]

ghost use Rattle.std.specs.Prelude.{◌≡◌, ◌&&◌, ◌+◌, ◌≤◌, leb, length};
ghost use Rattle.std.proofs.Math.Seq.{paste};
ghost use Rattle.hash.specs.Hash.{hash_of};
ghost use Rattle.rules.specs.Numbers.{v1, limit};
ghost use Rattle.rules.specs.Paths.{path_after};
ghost use Rattle.rules.specs.Messages.{size, total};
ghost use Rattle.rules.specs.Store.{place};
ghost use Rattle.rules.specs.Calls.{written, build_membership_call, build_advancement_call};
ghost use Rattle.build.specs.Parts.{component_in, advancement_in};
ghost use Rattle.build.specs.Told.{built_told};

pub use basis::held_at;
use path::{Length, Position};
use store::Damaged;

#[derive(Clone, Copy, Debug, PartialEq, Eq)]
pub enum BuildError {
    Damaged,
    NoSuchNumber,
    OutputShort,
}

impl From<Damaged> for BuildError {
    ghost use Rattle.build.specs.declared.BuildError.TheVariants as refusal;

    ghost from_gives = { λ _ e. e ≡ refusal.Damaged };

    fn from(_damaged: Damaged) -> BuildError {
        BuildError::Damaged
    }
}

// Writes the component of element j into out from index `to`.
fn put_component(s: &[u8], j: Position, out: &mut [u8], to: usize)
    requires { (1 ≤ j.0) × (place v1 j.0 ≤ length s.now) × (j.0 ≤ limit v1) × (to + size v1 j.0 ≤ length out.old) }
    ensures { out.new ≡ paste out.old to (component_in hash_of v1 s.now j.0) (size v1 j.0) }
{
    let d = layout::body_of(s, j);
    let end = to + d.len();
    out[to..end].copy_from_slice(d);
    layout::put_links(s, j, out, end);
}

// Writes the components on the path from i to n, without that of i, into out from index `at`. The walk goes by hops, and no range has its steps.
fn put_after(s: &[u8], i: Position, n: Length, out: &mut [u8], at: usize)
    requires { (i.0 ≤ n.0) × (n.0 ≤ limit v1) × (place v1 n.0 ≤ length s.now) × (at + total v1 (path_after i.0 n.0) ≤ length out.old) }
    ensures { out.new ≡ paste out.old at (advancement_in hash_of v1 s.now i.0 n.0) (total v1 (path_after i.0 n.0)) }
{
    let mut j = i;
    let mut to = at;
    while j.0 < n.0 {
        let next = path::hop(j, n).to;
        put_component(s, next, out, to);
        to += path::component_len(next);
        j = next;
    }
}

// Whether a log of so many elements goes from i to n.
fn covers(count: Length, i: Length, n: Length) -> bool
    ensures { result ≡ (leb i.0 n.0 && leb n.0 count.0) }
{
    i <= n && n <= count
}

// Writes the membership proof of element i in the log of n elements to the start of out. What stands behind it stays. Answers how many bytes it has.
pub fn membership(store: &[u8], i: Position, n: Length, out: &mut [u8]) -> Result<u64, BuildError>
    ensures { written (built_told result) out.new ≡ build_membership_call hash_of v1 store.now i.0 n.0 out.old }
{
    let count = store::count(store)?;
    if i.0 == 0 {
        return Err(BuildError::NoSuchNumber);
    }
    if !covers(count, Length(i.0), n) {
        return Err(BuildError::NoSuchNumber);
    }
    let size = path::membership_len(i, n);
    if out.len() < size {
        return Err(BuildError::OutputShort);
    }
    put_component(store, i, out, 0);
    put_after(store, i, n, out, path::component_len(i));
    Ok(size as u64)
}

// Writes the advancement proof from i to n elements to the start of out. What stands behind it stays. Answers how many bytes it has.
pub fn advancement(store: &[u8], i: Length, n: Length, out: &mut [u8]) -> Result<u64, BuildError>
    ensures { written (built_told result) out.new ≡ build_advancement_call hash_of v1 store.now i.0 n.0 out.old }
{
    let count = store::count(store)?;
    if !covers(count, i, n) {
        return Err(BuildError::NoSuchNumber);
    }
    let size = path::advancement_len(i, n);
    if out.len() < size {
        return Err(BuildError::OutputShort);
    }
    put_after(store, Position(i.0), n, out, 0);
    Ok(size as u64)
}

// Components and their rows, where they lie in a proof: nothing is copied.
ghost use Rattle.std.specs.Prelude.{◌≡◌, ◌+◌, ◌*◌, ◌≤◌, length};
ghost use Rattle.lists.specs.Bytes.{same};
ghost use Rattle.rules.specs.Numbers.{v1};
ghost use Rattle.rules.specs.Messages.{size, row, part};

use hash::Digest;
use path::Position;

// The component of element j that begins at `at`.
pub fn component_at(proof: &[u8], at: usize, j: Position) -> &[u8]
    requires { at + size v1 j.0 ≤ length proof.now }
    ensures { result.now ≡ part v1 proof.now at j.0 }
{
    &proof[at..at + path::component_len(j)]
}

// Whether row r of a component is the digest d. Row 0 is the entry's, row l + 1 the link of level l.
pub fn row_is(component: &[u8], r: usize, d: Digest) -> bool
    requires { 32 * r + 32 ≤ length component.now }
    ensures { result ≡ same (row v1 component.now r) d.bytes }
{
    component[32 * r..32 * r + 32] == d.bytes[..]
}

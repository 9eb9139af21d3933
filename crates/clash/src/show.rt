// The messages that an accepted presence and an accepted absence come to, in lent buffers.
ghost use Rattle.std.specs.Prelude.{◌≡◌, ◌≤◌, length, Ok};
ghost use Rattle.rules.specs.Calls.{over};
ghost use Rattle.hash.specs.Hash.{hash_of};
ghost use Rattle.dictionary.specs.Calls.{formed, showing, clash_call};
ghost use Rattle.clash.specs.Told.{clash_told};
ghost use Rattle.clash.specs.Found.{meet_of};

use super::meet::{Meet, walk_up};
use handles::handle_for;
use hash::Digest;
use lookup::{check_absence, check_presence};

// The bytes of the longest message: that of an inner node.
const ROOM: usize = 65;

// The two proofs.
#[derive(Clone, Copy, Debug, PartialEq, Eq)]
pub enum Shown {
    Presence,
    Absence,
}

// What an accepted presence and an accepted absence come to: two messages of these lengths, or one message whose hash is all zeros.
#[derive(Clone, Copy, Debug, PartialEq, Eq)]
pub enum Clashed {
    Two { first: usize, second: usize },
    Zero { size: usize },
}

// Why no message is written: a buffer is too short, or a proof is not accepted.
#[derive(Clone, Copy, Debug, PartialEq, Eq)]
pub enum ClashError {
    BufferShort,
    NotAccepted(Shown),
}

// Writes a message from the start of its buffer: its length.
fn write(message: &[u8], out: &mut [u8]) -> usize
    requires { length message.now ≤ length out.old }
    ensures { (result ≡ length message.now) × (out.new ≡ over message.now out.old) }
{
    let size = message.len();
    out[..size].copy_from_slice(message);
    size
}

// Writes what was found, each message from the start of its buffer.
fn show(found: Meet, out1: &mut [u8], out2: &mut [u8]) -> Clashed
    requires { (65 ≤ length out1.old) × (65 ≤ length out2.old) }
    ensures { formed (clash_told (Ok result)) out1.new out2.new ≡ showing (meet_of found) out1.old out2.old }
{
    match found {
        Meet::Two(first, second) => Clashed::Two {
            first: write(&first, out1),
            second: write(&second, out2),
        },
        Meet::Leaf(message) => Clashed::Zero {
            size: write(&message, out1),
        },
        Meet::Inner(message) => Clashed::Zero {
            size: write(&message, out1),
        },
    }
}

// The messages that an accepted presence and an accepted absence come to, each from the start of its buffer.
pub fn clash(
    key: &[u8],
    root: Digest,
    presence: &[u8],
    absence: &[u8],
    out1: &mut [u8],
    out2: &mut [u8],
) -> Result<Clashed, ClashError>
    ensures { formed (clash_told result) out1.new out2.new ≡ clash_call hash_of key.now root.bytes presence.now absence.now out1.old out2.old }
{
    let one_short = out1.len() < ROOM;
    let two_short = out2.len() < ROOM;
    if one_short || two_short {
        return Err(ClashError::BufferShort);
    }
    let Ok(()) = check_presence(key, root, presence) else {
        return Err(ClashError::NotAccepted(Shown::Presence));
    };
    let Ok(()) = check_absence(key, root, absence) else {
        return Err(ClashError::NotAccepted(Shown::Absence));
    };
    let found = walk_up(handle_for(key), presence, absence);
    Ok(show(found, out1, out2))
}

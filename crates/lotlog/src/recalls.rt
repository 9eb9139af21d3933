// The dictionary of recalled lots.
ghost use Rattle.std.specs.Prelude.{◌≡◌};
ghost use Rattle.clash.specs.Told.{clash_told};
ghost use Rattle.lotlog.specs.Exports.{told, left, wrote, showed};
ghost use Rattle.lotlog.specs.Recalls.{clashed, lot_handle, lot_trie_root, lot_prove_presence, lot_prove_absence, lot_check_presence, lot_check_absence, lot_trie_clash};

use super::answering::{leave, number, tell};
use clash::{ClashError, Clashed, Shown};
use hash::Digest;

// The handle of a key, into `handle`.
#[tactic(auto, unfolding(crate::specs::Recalls::lot_handle))]
#[unsafe(no_mangle)]
pub extern "C" fn lot_handle(key: &[u8], handle: &mut [u8; 32]) -> u64
    ensures { left result handle.new ≡ lot_handle key.now handle.old }
{
    leave(handles::handle_of(key), handle)
}

// The root of a rising list of handles, into `root`.
#[tactic(auto, unfolding(crate::specs::Recalls::lot_trie_root))]
#[unsafe(no_mangle)]
pub extern "C" fn lot_trie_root(handles: &[u8], root: &mut [u8; 32]) -> u64
    ensures { left result root.new ≡ lot_trie_root handles.now root.old }
{
    leave(trie::root(handles), root)
}

// Writes the proof that the list has the key's handle to the start of `out`; what stands behind it stays. Answer: its length.
#[tactic(auto, unfolding(crate::specs::Recalls::lot_prove_presence))]
#[unsafe(no_mangle)]
pub extern "C" fn lot_prove_presence(
    handles: &[u8],
    key: &[u8],
    out: &mut [u8],
    answer: &mut [u64; 3],
) -> u64
    ensures { wrote result answer.new out.new ≡ lot_prove_presence handles.now key.now out.old }
{
    tell(prove::presence(handles, key, out), answer)
}

// Writes the proof that the list does not have the key's handle to the start of `out`; what stands behind it stays. Answer: its length.
#[tactic(auto, unfolding(crate::specs::Recalls::lot_prove_absence))]
#[unsafe(no_mangle)]
pub extern "C" fn lot_prove_absence(
    handles: &[u8],
    key: &[u8],
    out: &mut [u8],
    answer: &mut [u64; 3],
) -> u64
    ensures { wrote result answer.new out.new ≡ lot_prove_absence handles.now key.now out.old }
{
    tell(prove::absence(handles, key, out), answer)
}

// Whether the list with this root has the key's handle, by the proof.
#[tactic(auto, unfolding(crate::specs::Recalls::lot_check_presence, lookup::specs::Told::verdict_number))]
#[unsafe(no_mangle)]
pub extern "C" fn lot_check_presence(key: &[u8], root: &[u8; 32], proof: &[u8]) -> u64
    ensures { result ≡ lot_check_presence key.now root.now proof.now }
{
    let d = Digest { bytes: *root };
    number(lookup::check_presence(key, d, proof))
}

// Whether the list with this root does not have the key's handle, by the proof.
#[tactic(auto, unfolding(crate::specs::Recalls::lot_check_absence, lookup::specs::Told::verdict_number))]
#[unsafe(no_mangle)]
pub extern "C" fn lot_check_absence(key: &[u8], root: &[u8; 32], proof: &[u8]) -> u64
    ensures { result ≡ lot_check_absence key.now root.now proof.now }
{
    let d = Digest { bytes: *root };
    number(lookup::check_absence(key, d, proof))
}

// Writes what a presence and an absence come to; gives the number to return.
fn tell_clash(found: Result<Clashed, ClashError>, answer: &mut [u64; 3]) -> u64
    ensures { told result answer.new ≡ clashed (clash_told found) }
{
    let (number, said) = match found {
        Ok(Clashed::Two { first, second }) => (0, [0, first as u64, second as u64]),
        Ok(Clashed::Zero { size }) => (0, [1, size as u64, 0]),
        Err(ClashError::BufferShort) => (6, [0, 0, 0]),
        Err(ClashError::NotAccepted(Shown::Presence)) => (13, [1, 0, 0]),
        Err(ClashError::NotAccepted(Shown::Absence)) => (13, [2, 0, 0]),
    };
    *answer = said;
    number
}

// What an accepted presence and an accepted absence for one key and root come to, at the start of `first_out` and `second_out`. Answer: 0 and the
// lengths of two different messages of equal hash; or 1 and the length of one message, whose hash is all zeros; with 13, the proof that is not
// accepted.
#[tactic(auto, unfolding(crate::specs::Recalls::lot_trie_clash))]
#[unsafe(no_mangle)]
pub extern "C" fn lot_trie_clash(
    key: &[u8],
    root: &[u8; 32],
    presence: &[u8],
    absence: &[u8],
    first_out: &mut [u8],
    second_out: &mut [u8],
    answer: &mut [u64; 3],
) -> u64
    ensures { showed result answer.new first_out.new second_out.new ≡ lot_trie_clash key.now root.now presence.now absence.now first_out.old second_out.old }
{
    let d = Digest { bytes: *root };
    let c = clash::clash(key, d, presence, absence, first_out, second_out);
    tell_clash(c, answer)
}

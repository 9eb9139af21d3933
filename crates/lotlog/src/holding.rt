// Held states.
ghost use Rattle.std.specs.Prelude.{◌≡◌, IfErr, IfOk};
ghost use Rattle.held.specs.Holding.{holds};
ghost use Rattle.wire.specs.Wire.{wire_of};
ghost use Rattle.numbers.specs.declared.Said.{Said};
ghost use Rattle.lotlog.specs.Exports.{left, wrote};
ghost use Rattle.lotlog.specs.Outcomes.{lot_held_start, lot_held_at, lot_held_write, lot_held_read};

use super::answering::{number_of, tell};
use held::Held;
use numbers::Said;
use path::Length;
use wire::{HELD_BYTES, read_held, write_held};

// The state that a practice holds of a log before its first element.
#[tactic(auto, unfolding(crate::specs::Outcomes::lot_held_start))]
#[unsafe(no_mangle)]
pub extern "C" fn lot_held_start(log: u64, held: &mut [u8; HELD_BYTES]) -> u64
    ensures { left result held.new ≡ lot_held_start log }
{
    write_held(&held::start(log), held);
    0
}

// Writes a state unless there is a refusal; gives the number to return.
fn leave_held<E: Into<Said>>(r: Result<Held, E>, lent: &mut [u8; HELD_BYTES]) -> u64
    ensures ok { IfOk r (λ h. left result lent.new ≡ left 0 (wire_of (holds h))) }
    ensures err { IfErr r (λ e. (s : Said) × E.converts e s × (left result lent.new ≡ left s.number lent.old)) }
{
    match r {
        Ok(h) => {
            write_held(&h, lent);
            0
        }
        Err(e) => number_of(e),
    }
}

// The state that a practice holds at a length, as the store gives it.
#[tactic(auto, unfolding(crate::specs::Outcomes::lot_held_at))]
#[unsafe(no_mangle)]
pub extern "C" fn lot_held_at(store: &[u8], at: u64, held: &mut [u8; HELD_BYTES]) -> u64
    ensures { left result held.new ≡ lot_held_at store.now at held.old }
{
    leave_held(build::held_at(store, Length(at)), held)
}

// Writes the file of a state to the start of `out`; what stands behind it stays. Answer: its length.
#[tactic(auto, unfolding(crate::specs::Outcomes::lot_held_write))]
#[unsafe(no_mangle)]
pub extern "C" fn lot_held_write(
    held: &[u8; HELD_BYTES],
    out: &mut [u8],
    answer: &mut [u64; 3],
) -> u64
    ensures { wrote result answer.new out.new ≡ lot_held_write held.now out.old }
{
    tell(saved::write(read_held(held), out), answer)
}

// The state that a file gives.
#[tactic(auto, unfolding(crate::specs::Outcomes::lot_held_read))]
#[unsafe(no_mangle)]
pub extern "C" fn lot_held_read(file: &[u8], held: &mut [u8; HELD_BYTES]) -> u64
    ensures { left result held.new ≡ lot_held_read file.now held.old }
{
    leave_held(saved::read(file), held)
}

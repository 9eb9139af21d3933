// The store: starting one, counting, appending, reading a digest, and the audit.
ghost use Rattle.std.specs.Prelude.{◌≡◌};
ghost use Rattle.lotlog.specs.Exports.{told, left, wrote};
ghost use Rattle.lotlog.specs.Outcomes.{lot_start, lot_count, lot_append, lot_digest_at, lot_audit};

use super::answering::{leave, number, tell};
use path::Length;

// Starts a store: writes the header and opens every record; all else stays.
#[tactic(auto, unfolding(crate::specs::Outcomes::lot_start))]
#[unsafe(no_mangle)]
pub extern "C" fn lot_start(store: &mut [u8], log: u64) -> u64
    ensures { left result store.new ≡ lot_start store.old log }
{
    number(store::start(store, log))
}

// The number of closed records. Answer: the count.
#[tactic(auto, unfolding(crate::specs::Outcomes::lot_count))]
#[unsafe(no_mangle)]
pub extern "C" fn lot_count(store: &[u8], answer: &mut [u64; 3]) -> u64
    ensures { told result answer.new ≡ lot_count store.now }
{
    tell(store::count(store).map(|n| n.0), answer)
}

// Appends an entry, stopping after `stop` of the 65 bytes of its record. Answer: the count now held.
#[tactic(auto, unfolding(crate::specs::Outcomes::lot_append))]
#[unsafe(no_mangle)]
pub extern "C" fn lot_append(
    store: &mut [u8],
    entry: &[u8],
    stop: u64,
    answer: &mut [u64; 3],
) -> u64
    ensures { wrote result answer.new store.new ≡ lot_append store.old entry.now stop }
{
    let appended = store::append(store, entry, stop);
    tell(appended.map(|n| n.0), answer)
}

// T of a length, as the store has it, into `digest`.
#[tactic(auto, unfolding(crate::specs::Outcomes::lot_digest_at))]
#[unsafe(no_mangle)]
pub extern "C" fn lot_digest_at(store: &[u8], at: u64, digest: &mut [u8; 32]) -> u64
    ensures { left result digest.new ≡ lot_digest_at store.now at digest.old }
{
    leave(store::digest_at(store, Length(at)), digest)
}

// Recomputes each T. Answer: the count; with 12, the lowest element whose T is wrong.
#[tactic(auto, unfolding(crate::specs::Outcomes::lot_audit))]
#[unsafe(no_mangle)]
pub extern "C" fn lot_audit(store: &[u8], answer: &mut [u64; 3]) -> u64
    ensures { told result answer.new ≡ lot_audit store.now }
{
    tell(audit::audit(store).map(|n| n.0), answer)
}

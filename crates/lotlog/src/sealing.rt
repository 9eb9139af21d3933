// HMAC, and the sealed logs of the vans.
ghost use Rattle.std.specs.Prelude.{◌≡◌};
ghost use Rattle.lotlog.specs.Exports.{told, left};
ghost use Rattle.lotlog.specs.Sealing.{sealed_left, lot_mac, lot_seal_add, lot_seal_check};

use super::answering::{leave, tell};
use hash::Digest;

// HMAC-SHA-256 of a message under a key, into `mac`.
#[tactic(auto, unfolding(crate::specs::Sealing::lot_mac))]
#[unsafe(no_mangle)]
pub extern "C" fn lot_mac(key: &[u8], message: &[u8], mac: &mut [u8; 32]) -> u64
    ensures { left result mac.new ≡ lot_mac key.now message.now mac.old }
{
    leave(hmac::mac(key, message), mac)
}

// Writes a van's entry to the start of `out`; what stands behind it stays. The key becomes the next one, or zeros behind a closing entry, and `chain` becomes
// Y with this entry. Answer: the bytes of the entry.
#[tactic(auto, unfolding(crate::specs::Sealing::lot_seal_add))]
#[unsafe(no_mangle)]
pub extern "C" fn lot_seal_add(
    key: &mut [u8],
    chain: &mut [u8; 32],
    kind: u32,
    data: &[u8],
    out: &mut [u8],
    answer: &mut [u64; 3],
) -> u64
    ensures { sealed_left result answer.new key.new chain.new out.new ≡ lot_seal_add key.old chain.old kind «data».now out.old }
{
    let y = Digest { bytes: *chain };
    let added = sealed::add(key, y, kind, data, out);
    let number = tell(added.map(|a| a.size), answer);
    if let Ok(a) = added {
        let y = a.chain.bytes;
        *chain = y;
    }
    number
}

// Checks a van's whole log from its first key. Answer: its entries, or with 24 the first wrong one.
#[tactic(auto, unfolding(crate::specs::Sealing::lot_seal_check))]
#[unsafe(no_mangle)]
pub extern "C" fn lot_seal_check(first_key: &[u8; 32], log: &[u8], answer: &mut [u64; 3]) -> u64
    ensures { told result answer.new ≡ lot_seal_check first_key.now log.now }
{
    let first = Digest { bytes: *first_key };
    tell(sealed::check(first, log), answer)
}

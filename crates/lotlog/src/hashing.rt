// SHA-256.
ghost use Rattle.std.specs.Prelude.{◌≡◌};
ghost use Rattle.lotlog.specs.Exports.{left};
ghost use Rattle.lotlog.specs.Outcomes.{lot_hash};

use super::answering::number_of;

// SHA-256 of a message of up to 65,536 bytes, into `digest`.
#[tactic(auto, unfolding(crate::specs::Outcomes::lot_hash))]
#[unsafe(no_mangle)]
pub extern "C" fn lot_hash(message: &[u8], digest: &mut [u8; 32]) -> u64
    ensures { left result digest.new ≡ lot_hash message.now digest.old }
{
    match sha256::hash(message) {
        Ok(bytes) => {
            *digest = bytes;
            0
        }
        Err(e) => number_of(e),
    }
}

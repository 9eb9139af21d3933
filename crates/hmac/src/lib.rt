// HMAC of RFC 2104 over the log's hash, with blocks of 64 bytes.
#![tactic(auto)]

ghost use Rattle.std.specs.Prelude.{◌≡◌, ◌≤◌, length};
ghost use Rattle.hash.specs.Hash.{hash_of};
ghost use Rattle.seals.specs.Hmac.{hmac_of};
ghost use Rattle.seals.specs.Calls.{key_limit, message_limit, mac_call};
ghost use Rattle.hmac.specs.Told.{coded_told};

use hash::Digest;

// The bytes of the hash's block.
const BLOCK: usize = 64;

// The most bytes that the hash takes.
const LIMIT: usize = 65_536;

const INNER: u8 = 0x36;

const OUTER: u8 = 0x5c;

// The one refusal: the hash does not take so long a key, or so long a message behind a block.
#[derive(Clone, Copy, Debug, PartialEq, Eq)]
pub struct TooLong;

// The key as one block: hashed first where it is longer, and filled with zeros.
fn key_block(key: &[u8]) -> [u8; BLOCK]
    requires { length key.now ≤ key_limit }
    ensures { result ≡ Rattle.seals.specs.Hmac.key_block hash_of key.now }
{
    let mut block = [0; BLOCK];
    if BLOCK < key.len() {
        block[..32].copy_from_slice(&hash::joined(key, b"").bytes);
    } else {
        block[..key.len()].copy_from_slice(key);
    }
    block
}

// The block with each byte XORed with one byte. It is changed where it lies: `map` would hold the key a second time.
fn pad(mut block: [u8; BLOCK], with: u8) -> [u8; BLOCK]
    ensures { result ≡ Rattle.seals.specs.Hmac.xored with block }
{
    for byte in &mut block {
        *byte ^= with;
    }
    block
}

// The code of a message that is within the limits.
fn code(key: &[u8], message: &[u8]) -> Digest
    requires { (length key.now ≤ key_limit) × (length message.now ≤ message_limit) }
    ensures { result.bytes ≡ hmac_of hash_of key.now message.now }
{
    let block = key_block(key);
    let inside = hash::joined(&pad(block, INNER), message);
    hash::joined(&pad(block, OUTER), &inside.bytes)
}

// The code of a message under a key. A key over 65,536 bytes is refused, and a message that does not fit the hash behind one block.
pub fn mac(key: &[u8], message: &[u8]) -> Result<Digest, TooLong>
    ensures { coded_told result ≡ mac_call hash_of key.now message.now }
{
    if LIMIT < key.len() || LIMIT - BLOCK < message.len() {
        return Err(TooLong);
    }
    Ok(code(key, message))
}

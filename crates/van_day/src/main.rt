// A van's day: its log of four entries, what adding answers, and what the office answers for the log whole, cut off behind each byte, with a bit of each
// byte changed, and with two blocks of an entry's data exchanged. Over the stand-in the exchange keeps Y, so that both logs are accepted; over SHA-256 the
// entry is wrong. `stdout` has the lines over SHA-256 and `stdout.standin` those over the stand-in, both from `scripts/expected`.
#![tactic(auto)]

use hash::Digest;
use sealed::{AddError, Added, CheckError};
use std::io;

// What stands beside a refusal, and before the first entry.
const ZEROS: Digest = Digest { bytes: [0; 32] };

// A van: its key, the chain's value, and its log, which goes on at `end`.
#[derive(Drop)]
struct Van {
    key: [u8; 32],
    chain: Digest,
    log: [u8; 320],
    end: usize,
}

impl Van {
    // Adds an entry. A line has the number answered, the bytes of the entry, Y and the key after the call.
    fn put(&mut self, rt: &impl Print, kind: u32, text: &[u8]) -> io::Result<()> {
        let Some(room) = self.log.get_mut(self.end..) else {
            return Ok(());
        };
        let added = sealed::add(&mut self.key, self.chain, kind, text, room);
        let key = Digest { bytes: self.key };
        match added {
            Ok(Added { size, chain }) => {
                self.chain = chain;
                self.end = self.end.saturating_add(size as usize);
                println!(rt; "add 0 {size} {chain} {key}")
            }
            Err(error) => println!(rt; "add {} 0 {ZEROS} {key}", number_of(error)),
        }
    }
}

// The number of a refusal.
fn number_of(error: AddError) -> u32 {
    match error {
        AddError::TooLong => 3,
        AddError::OutputShort => 6,
        AddError::Closed => 23,
    }
}

// Checks a log. A line has the number answered, and what stands with it.
fn check(rt: &impl Print, first: Digest, log: &[u8]) -> io::Result<()> {
    match sealed::check(first, log) {
        Ok(entries) => println!(rt; "check 0 {entries}"),
        Err(CheckError::Wrong { entry }) => println!(rt; "check 24 {entry}"),
        Err(CheckError::Unclosed) => println!(rt; "check 25 0"),
    }
}

// Checks the first n bytes.
fn check_front(rt: &impl Print, first: Digest, bytes: &[u8], n: usize) -> io::Result<()> {
    match bytes.get(..n) {
        Some(log) => check(rt, first, log),
        None => Ok(()),
    }
}

// Checks each front part of the log.
fn check_cut(rt: &impl Print, first: Digest, log: &[u8]) -> io::Result<()> {
    for n in 0..log.len() {
        check(rt, first, &log[..n])?;
    }
    Ok(())
}

// Checks the log with one bit of each byte changed.
fn check_altered(rt: &impl Print, first: Digest, log: &mut [u8]) -> io::Result<()> {
    for i in 0..log.len() {
        log[i] ^= 1;
        check(rt, first, log)?;
        log[i] ^= 1;
    }
    Ok(())
}

// Checks the log with 32 bytes of the third entry's data and the 32 behind them exchanged.
fn check_exchanged(rt: &impl Print, first: Digest, log: &mut [u8]) -> io::Result<()> {
    if let Some(blocks) = log.get_mut(120..184) {
        blocks.rotate_left(32);
        check(rt, first, log)?;
    }
    Ok(())
}

// Fails only where a line can't be written.
fn main(rt: HostRuntime) -> io::Result<()> {
    let key = [0x2a; 32];
    let first = Digest { bytes: key };
    let mut van = Van {
        key,
        chain: ZEROS,
        log: [0; 320],
        end: 0,
    };
    van.put(&rt, 2, b"door opened")?;
    van.put(&rt, 4294967295, b"")?;
    van.put(
        &rt,
        256,
        b"MONDAY, ROOM 1: LEFT SIDE, UPPER JAW, 2 % LIDOCAINE, LOT 4711, 12 PIECES, MORNING, KEPT AT 4.",
    )?;
    check_front(&rt, first, &van.log, van.end)?;
    van.put(&rt, 1, b"day closed")?;
    check_front(&rt, first, &van.log, van.end)?;
    check_front(&rt, first, &van.log, van.end.saturating_add(1))?;
    van.put(&rt, 2, b"too late")?;
    let end = van.end;
    if let Some(log) = van.log.get_mut(..end) {
        check_cut(&rt, first, log)?;
        check_altered(&rt, first, log)?;
        check_exchanged(&rt, first, log)?;
    }
    Ok(())
}

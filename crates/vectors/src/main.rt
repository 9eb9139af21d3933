// Runs SHA-256 over example messages, each at once and in six cuttings. A line has the message's name, the number answered, the digest, and whether
// every cutting answers alike. The expected lines come from `scripts/expected`, which asks another maker's SHA-256.
#![tactic(auto)]

ghost use Rattle.std.specs.Prelude.{◌≤◌, ◌<◌};

use sha256::{HashError, HashState, Untaken};
use std::{fmt, io};

// What hashing answered, as a line shows it: 0 and the digest, or the refusal's number and zeros.
#[derive(Clone, Copy)]
struct Answer(Result<[u8; 32], HashError>);

impl fmt::Display for Answer {
    fn fmt<W: fmt::Write>(&self, f: &mut fmt::Formatter<W>) -> fmt::Result {
        let number = self.0.map_or_else(number_of, |_| 0);
        write!(f, "{number} ")?;
        for byte in self.0.unwrap_or([0u8; 32]) {
            write!(f, "{byte:02x}")?;
        }
        Ok(())
    }
}

fn number_of(error: HashError) -> u64 {
    match error {
        HashError::StateBroken => 2,
        HashError::TooLong => 3,
    }
}

// An empty piece is taken before each.
fn take_piece(state: HashState, piece: &[u8]) -> Result<HashState, Untaken> {
    state.take(b"")?.take(piece)
}

// The message taken in pieces of n bytes. The first refusal is the answer.
fn cut(message: &[u8], n: usize) -> Result<[u8; 32], HashError>
    requires { 0 < n }
{
    let mut state = HashState::begin();
    for piece in message.chunks(n) {
        state = take_piece(state, piece)?;
    }
    state.finish()
}

fn all_alike(message: &[u8], whole: Result<[u8; 32], HashError>) -> bool {
    cut(message, 1) == whole
        && cut(message, 63) == whole
        && cut(message, 64) == whole
        && cut(message, 65) == whole
        && cut(message, message.len() / 2 + 1) == whole
        && cut(message, message.len() + 1) == whole
}

// What follows the message's name on its line.
fn run(rt: &impl Print, message: &[u8]) -> io::Result<()> {
    let whole = sha256::hash(message);
    let alike = if all_alike(message, whole) {
        "alike"
    } else {
        "differs"
    };
    println!(rt; " {} cut {alike}", Answer(whole))
}

fn run_repeated(rt: &impl Print, n: usize, byte: u8) -> io::Result<()>
    requires { n ≤ 1005 }
{
    let message = [byte; 1005];
    print!(rt; "nist {n} times {byte:02x}")?;
    run(rt, &message[..n])
}

// The examples of FIPS 180-4 and NIST's further ones. Those of a million bytes and more are over the limit of 65,536 and left out.
fn examples(rt: &impl Print) -> io::Result<()> {
    print!(rt; "fips empty")?;
    run(rt, b"")?;
    print!(rt; "fips abc")?;
    run(rt, b"abc")?;
    print!(rt; "fips 448 bits")?;
    run(
        rt,
        b"abcdbcdecdefdefgefghfghighijhijkijkljklmklmnlmnomnopnopq",
    )?;
    print!(rt; "fips 896 bits")?;
    run(
        rt,
        b"abcdefghbcdefghicdefghijdefghijkefghijklfghijklmghijklmnhijklmnoijklmnopjklmnopqklmnopqrlmnopqrsmnopqrstnopqrstu",
    )?;
    run_repeated(rt, 1, 0xbd)?;
    print!(rt; "nist c98c8e55")?;
    run(rt, &[0xc9u8, 0x8c, 0x8e, 0x55])?;
    run_repeated(rt, 55, 0)?;
    run_repeated(rt, 56, 0)?;
    run_repeated(rt, 57, 0)?;
    run_repeated(rt, 64, 0)?;
    run_repeated(rt, 1000, 0)?;
    run_repeated(rt, 1000, 0x41)?;
    run_repeated(rt, 1005, 0x55)
}

// Byte i of a message of n bytes is 7 i + n modulo 251.
fn fill(message: &mut [u8]) {
    let n = message.len();
    for (i, byte) in message.iter_mut().enumerate() {
        *byte = ((i % 251 * 7 + n % 251) % 251) as u8;
    }
}

fn run_filled(rt: &impl Print, message: &mut [u8]) -> io::Result<()> {
    fill(message);
    print!(rt; "length {}", message.len())?;
    run(rt, message)
}

fn run_length(rt: &impl Print, n: usize) -> io::Result<()>
    requires { n ≤ 65537 }
{
    let mut message = [0u8; 65537];
    run_filled(rt, &mut message[..n])
}

// The edges of one padded block and of two are among the first 300; the last is refused.
fn lengths(rt: &impl Print) -> io::Result<()> {
    for n in 0..=300 {
        run_length(rt, n)?;
    }
    run_length(rt, 65535)?;
    run_length(rt, 65536)?;
    run_length(rt, 65537)
}

// What taking a byte answers, and what finishing the state after that answers.
fn run_state(rt: &impl Print, state: HashState) -> io::Result<()> {
    let (number, after) = match state.take(b"a") {
        Ok(taken) => (0, taken),
        Err(untaken) => (number_of(untaken.error), untaken.state),
    };
    println!(rt; " take {number} finish {}", Answer(after.finish()))
}

fn run_wrong_fill(rt: &impl Print) -> io::Result<()> {
    let mut state = HashState::begin();
    state.fill = 1;
    print!(rt; "state of fill 1 and total 0")?;
    run_state(rt, state)
}

fn run_total_over(rt: &impl Print) -> io::Result<()> {
    let mut state = HashState::begin();
    state.total = 65600;
    print!(rt; "state of total 65600")?;
    run_state(rt, state)
}

fn run_full(rt: &impl Print) -> io::Result<()> {
    let mut message = [0u8; 65536];
    fill(&mut message);
    let full = HashState::begin().take(&message);
    print!(rt; "state of 65536 bytes")?;
    run_state(rt, full.unwrap_or_else(|untaken| untaken.state))
}

fn states(rt: &impl Print) -> io::Result<()> {
    print!(rt; "state begun")?;
    run_state(rt, HashState::begin())?;
    run_wrong_fill(rt)?;
    run_total_over(rt)?;
    run_full(rt)
}

// Fails only where a line can't be written.
fn main(rt: HostRuntime) -> io::Result<()> {
    examples(&rt)?;
    lengths(&rt)?;
    states(&rt)
}

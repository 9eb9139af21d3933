// Reads a store from standard input, audits it and writes one line: `sound N` with the count, `wrong N` with the lowest wrong element,
// `refused 1`, or `too long` for more than 65,536 bytes. A failed read counts as the end of input.
#![tactic(auto)]

ghost use Rattle.std.specs.Prelude.{◌≡◌, ◌≤◌, length, take};

use audit::AuditError;
use path::Length;
use std::io;
use std::io::Read;

// The most bytes of a store that is read.
const MOST: usize = 65_536;

fn report(rt: &impl Print, verdict: Result<Length, AuditError>) -> io::Result<()> {
    match verdict {
        Ok(n) => println!(rt; "sound {}", n.0),
        Err(AuditError::Wrong(j)) => println!(rt; "wrong {}", j.0),
        Err(AuditError::Damaged) => println!(rt; "refused 1"),
    }
}

// Reads until buf is full, the input ends or a read fails, and answers how many bytes it put at the start of buf. A turn goes on by as many bytes as
// a read gave, which no range does: so it is a `while`.
fn read_full(input: &mut impl Read, buf: &mut [u8]) -> usize
    ensures in_bounds { result ≤ length buf.new }
    ensures prefix { result ≡ length (take result buf.new) }
{
    let mut done: usize = 0;
    while done < buf.len() {
        match input.read(&mut buf[done..]) {
            Ok(0) | Err(_) => break,
            Ok(n) => done += n,
        }
    }
    done
}

// Whether a further byte can be read.
fn is_more(input: &mut impl Read) -> bool {
    let mut more = [0u8; 1];
    read_full(input, &mut more) > 0
}

// Fails only where the line can't be written.
fn main(rt: HostRuntime) -> io::Result<()> {
    let mut buffer = [0u8; MOST];
    let mut input = rt.reader();
    let n = read_full(&mut input, &mut buffer);
    if n == MOST && is_more(&mut input) {
        return println!(rt; "too long");
    }
    report(&rt, audit::audit(&buffer[..n]))
}

// Writes what the log's hash gives for a few messages, a line for each. Over SHA-256 all digests differ; over the stand-in the two orders of the
// same blocks collide. `stdout` has the lines for SHA-256 and `stdout.standin` those for the stand-in, both from `scripts/expected`.
#![tactic(auto)]

use std::io;

fn run(rt: &impl Print, name: &str, first: &[u8], second: &[u8]) -> io::Result<()> {
    let digest = hash::joined(first, second);
    println!(rt; "{name} {digest}")
}

fn run_orders(rt: &impl Print) -> io::Result<()> {
    let monday = b"MONDAY, ROOM 1: X-RAY, LEFT SIDE";
    let tuesday = b"TUESDAY, ROOM 2: CLEANING TEETH.";
    run(rt, "monday first", monday, tuesday)?;
    run(rt, "tuesday first", tuesday, monday)?;
    if hash::joined(monday, tuesday) == hash::joined(tuesday, monday) {
        println!(rt; "the two collide")
    } else {
        println!(rt; "the two differ")
    }
}

// As many bytes as can be hashed, and one more: then the digest is zeros.
fn run_limit(rt: &impl Print) -> io::Result<()> {
    let blocks = [7u8; 65504];
    run(
        rt,
        "65536 bytes",
        &blocks,
        b"0123456789abcdef0123456789abcdef",
    )?;
    run(
        rt,
        "65537 bytes",
        &blocks,
        b"0123456789abcdef0123456789abcdefg",
    )
}

// Fails only where a line can't be written.
fn main(rt: HostRuntime) -> io::Result<()> {
    run(&rt, "empty", b"", b"")?;
    run(&rt, "abc", b"", b"abc")?;
    run(&rt, "abc cut", b"ab", b"c")?;
    run_orders(&rt)?;
    run_limit(&rt)
}

// Runs document 01's figures that are not shown as theorems, at the ends that request A7 gives them, a line each: what was asked, and what the calls
// answer.
#![tactic(auto)]

ghost use Rattle.std.specs.Prelude.{◌≤◌};

use audit::AuditError;
use hash::Digest;
use membership::MembershipError;
use path::{Length, Position};
use std::io;
use store::{AppendError, Damaged};

// The hops of the path from i to n, up to 64 of them.
fn hops(i: Position, n: Length) -> u64
    ensures { result ≤ 64 }
{
    let mut j = i;
    for k in 0..64 {
        if n.0 <= j.0 {
            return k;
        }
        j = path::hop(j, n).to;
    }
    64
}

// 01: "1 to 1,048,575: 38 hops, 39 components, 14,048 bytes, the longest." 02, A7: "at most 62 hops, the longest proof is 34,784 bytes".
fn longest(rt: &impl Print) -> io::Result<()> {
    let i = Position(1);
    let n = Length(4_294_967_295);
    let k = hops(i, n);
    let components = k + 1;
    let size = path::membership_len(i, n);
    println!(rt; "1 to 4294967295: {k} hops, {components} components, bytes {size}")
}

// 01's number for a verdict.
fn number_of(v: Result<u64, MembershipError>) -> u64 {
    match v {
        Ok(_) => 0,
        Err(MembershipError::EntryTooLong) => 3,
        Err(MembershipError::NoSuchElement) => 4,
        Err(MembershipError::WrongLength) => 7,
        Err(MembershipError::OtherEntry) => 8,
        Err(MembershipError::LinkDiffers { .. }) => 10,
        Err(MembershipError::DigestDiffers { .. }) => 11,
    }
}

// 01: "Length 1,048,576: 4." 02, A7: 01's figures "move to the new ends".
fn over_the_limit(rt: &impl Print) -> io::Result<()> {
    let v = membership::check_membership(
        b"",
        Position(1),
        Length(4_294_967_296),
        Digest { bytes: [0u8; 32] },
        b"",
    );
    let number = number_of(v);
    println!(rt; "length 4294967296: {number}")
}

fn say_audit(rt: &impl Print, v: Result<Length, AuditError>) -> io::Result<()> {
    match v {
        Ok(Length(n)) => println!(rt; "sound {n}"),
        Err(AuditError::Wrong(Position(j))) => println!(rt; "wrong {j}"),
        Err(AuditError::Damaged) => println!(rt; "refused 1"),
    }
}

// The number of an append's answer, and the count now held.
fn say_append(rt: &impl Print, a: Result<Length, AppendError>) -> io::Result<()> {
    match a {
        Ok(Length(n)) => println!(rt; "0 with the count {n}"),
        Err(AppendError::Damaged) => println!(rt; "1"),
        Err(AppendError::TooLong) => println!(rt; "3"),
        Err(AppendError::Full) => println!(rt; "5"),
    }
}

// "Store of 15 bytes: 1."
fn fifteen(rt: &impl Print) -> io::Result<()> {
    print!(rt; "store of 15 bytes: ")?;
    match store::count(&[0u8; 15]) {
        Ok(Length(n)) => println!(rt; "{n}"),
        Err(Damaged) => println!(rt; "1"),
    }
}

// A started store of so many bytes, its audit, and two appends. What has no room for its header is not started, and refused by these.
fn started(rt: &impl Print, room: &mut [u8]) -> io::Result<()> {
    let bytes = room.len();
    print!(rt; "started store of {bytes} bytes: ")?;
    let _ = store::start(room, 7);
    say_audit(rt, audit::audit(room))?;
    print!(rt; "  append: ")?;
    say_append(rt, store::append(room, b"lot", 65))?;
    print!(rt; "  append again: ")?;
    say_append(rt, store::append(room, b"lot", 65))
}

// "Entry of 4,096 goes in; 4,097 gives 3; 0 goes in."
fn entries(rt: &impl Print) -> io::Result<()> {
    let mut room = [0u8; 211];
    let _ = store::start(&mut room, 7);
    let long = [97u8; 4097];
    print!(rt; "entry of 4096 bytes: ")?;
    say_append(rt, store::append(&mut room, &long[0..4096], 65))?;
    print!(rt; "entry of 4097 bytes: ")?;
    say_append(rt, store::append(&mut room, &long, 65))?;
    print!(rt; "entry of 0 bytes: ")?;
    say_append(rt, store::append(&mut room, b"", 65))
}

// Fails only where a line can't be written.
fn main(rt: HostRuntime) -> io::Result<()> {
    longest(&rt)?;
    over_the_limit(&rt)?;
    fifteen(&rt)?;
    started(&rt, &mut [0u8; 16])?;
    started(&rt, &mut [0u8; 80])?;
    started(&rt, &mut [0u8; 81])?;
    entries(&rt)
}

// Lies that a house could tell if its hash were weak, at every place of several paths, and the disputes about them. Over the stand-in both proofs
// of each case are accepted and the dispute shows the lie; over SHA-256 the second one is refused. `stdout` has the lines over SHA-256,
// `stdout.standin` those over the stand-in.
#![tactic(auto)]

mod forge;
mod say;

use forge::{Model, forge};
use hash::Digest;
use path::{Length, Position};
use std::io;

// What one side says: an entry, and the proof for it.
#[derive(Clone, Copy)]
struct Claim<'a> {
    entry: &'a [u8],
    proof: &'a [u8],
}

// What both sides speak of: an element, and the log with its digest.
#[derive(Clone, Copy)]
struct Topic {
    i: Position,
    n: Length,
    digest: Digest,
}

// What the checker says of a proof.
fn check(rt: &impl Print, claim: Claim, topic: Topic) -> io::Result<()> {
    let Topic { i, n, digest } = topic;
    say::verdict(
        rt,
        membership::check_membership(claim.entry, i, n, digest, claim.proof),
    )
}

// The differing part of two proofs.
fn part(rt: &impl Print, one: Claim, two: Claim, topic: Topic) -> io::Result<()> {
    let from = dispute::differing_at(one.proof, two.proof, topic.i, topic.n).map_or(
        0,
        |part| part.from,
    );
    let size = dispute::differing(one.proof, two.proof, topic.i, topic.n).len();
    print!(rt; "; part at {from} of {size}; ")
}

// The dispute, and whether what it hands over is what it says.
fn settle(rt: &impl Print, one: Claim, two: Claim, topic: Topic) -> io::Result<()> {
    let mut out1 = [0u8; 4097];
    let mut out2 = [0u8; 4097];
    let answer = dispute::dispute(
        one.entry,
        one.proof,
        two.entry,
        two.proof,
        topic.i,
        topic.n,
        topic.digest,
        &mut out1,
        &mut out2,
    );
    say::answer(rt, answer)?;
    let Ok(Some(shown)) = answer else {
        return Ok(());
    };
    let (Some(first), Some(second)) = (out1.get(..shown.first), out2.get(..shown.second)) else {
        return Ok(());
    };
    say::compared(rt, first, second)
}

// Both checks, the differing part and the dispute, in one line.
fn run(rt: &impl Print, one: Claim, two: Claim, topic: Topic) -> io::Result<()> {
    check(rt, one, topic)?;
    print!(rt; ", ")?;
    check(rt, two, topic)?;
    part(rt, one, two, topic)?;
    settle(rt, one, two, topic)?;
    println!(rt; "")
}

// Two proofs for (i, n): the second is forged anew up to this place on the path, and as the first behind it.
fn lie(
    rt: &impl Print,
    entry1: &[u8],
    entry2: &[u8],
    i: Position,
    n: Length,
    place: usize,
) -> io::Result<()> {
    let mut proof1 = [0u8; path::PROOF_MOST];
    let digest = forge(entry1, i, n, 3, None, &mut proof1);
    let mut proof2 = proof1;
    let model = Model {
        place,
        proof: &proof1,
    };
    forge(entry2, i, n, 201, Some(model), &mut proof2);
    let len = path::membership_len(i, n);
    let (Some(first), Some(second)) = (proof1.get(..len), proof2.get(..len)) else {
        return Ok(());
    };
    let one = Claim {
        entry: entry1,
        proof: first,
    };
    let two = Claim {
        entry: entry2,
        proof: second,
    };
    run(rt, one, two, Topic { i, n, digest })
}

// A lie at each place of the path.
fn each_place(rt: &impl Print, i: Position, n: Length, places: usize) -> io::Result<()> {
    for place in 0..places {
        print!(rt; "{} to {} at {place}: ", i.0, n.0)?;
        lie(rt, b"tooth 14, filling", b"tooth 14, pulled", i, n, place)?;
    }
    Ok(())
}

// Two entries that the stand-in hashes alike, with one proof.
fn entries(rt: &impl Print, name: &str, entry1: &[u8], entry2: &[u8]) -> io::Result<()> {
    print!(rt; "{name}")?;
    let i = Position(5);
    let n = Length(12);
    let mut proof = [0u8; 448];
    let digest = forge(entry1, i, n, 3, None, &mut proof);
    let one = Claim {
        entry: entry1,
        proof: &proof,
    };
    let two = Claim {
        entry: entry2,
        proof: &proof,
    };
    run(rt, one, two, Topic { i, n, digest })
}

// Fails only where a line can't be written.
fn main(rt: HostRuntime) -> io::Result<()> {
    each_place(&rt, Position(1), Length(1), 1)?;
    each_place(&rt, Position(8), Length(8), 1)?;
    each_place(&rt, Position(7), Length(8), 2)?;
    each_place(&rt, Position(5), Length(12), 4)?;
    each_place(&rt, Position(1), Length(7), 5)?;
    each_place(&rt, Position(1), Length(path::LIMIT), path::HOPS_MOST + 1)?;
    let monday =
        b"0123456789abcdef0123456789abcdeMONDAY, ROOM 1: X-RAY, LEFT SIDETUESDAY, ROOM 2: CLEANING TEETH.";
    let tuesday =
        b"0123456789abcdef0123456789abcdeTUESDAY, ROOM 2: CLEANING TEETH.MONDAY, ROOM 1: X-RAY, LEFT SIDE";
    entries(&rt, "entries of one length: ", monday, tuesday)?;
    entries(
        &rt,
        "entries of two lengths: ",
        b"tooth 14",
        b"tooth 14\x00",
    )?;
    entries(&rt, "nothing differs: ", monday, monday)
}

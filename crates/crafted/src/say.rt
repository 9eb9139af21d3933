// What the program writes of a case.
use dispute::{DisputeError, Shown, Side};
use membership::MembershipError;
use std::io;

// What the check of a proof answered.
pub(crate) fn verdict(rt: &impl Print, v: Result<u64, MembershipError>) -> io::Result<()> {
    match v {
        Ok(hops) => print!(rt; "accepted {hops}"),
        Err(MembershipError::EntryTooLong) => print!(rt; "refused 3 0"),
        Err(MembershipError::NoSuchElement) => print!(rt; "refused 4 0"),
        Err(MembershipError::WrongLength) => print!(rt; "refused 7 0"),
        Err(MembershipError::OtherEntry) => print!(rt; "refused 8 0"),
        Err(
            MembershipError::LinkDiffers {
                hops,
                element,
                level,
            },
        ) => print!(rt; "refused 10 {hops} at {element} {level}"),
        Err(MembershipError::DigestDiffers { hops }) => print!(rt; "refused 11 {hops}"),
    }
}

// What a dispute came to.
pub(crate) fn answer(rt: &impl Print, a: Result<Option<Shown>, DisputeError>) -> io::Result<()> {
    match a {
        Ok(None) => print!(rt; "same"),
        Ok(Some(Shown { first, second })) => print!(rt; "shown {first} {second}"),
        Err(DisputeError::BufferShort) => print!(rt; "denied 6"),
        Err(DisputeError::NotAccepted(Side::First)) => print!(rt; "denied 13 1"),
        Err(DisputeError::NotAccepted(Side::Second)) => print!(rt; "denied 13 2"),
    }
}

// Whether two messages differ, and whether they hash alike.
pub(crate) fn compared(rt: &impl Print, x: &[u8], y: &[u8]) -> io::Result<()> {
    let messages = if x == y { "equal" } else { "different" };
    let alike = hash::joined(x, b"") == hash::joined(y, b"");
    let hashes = if alike { "one hash" } else { "two hashes" };
    print!(rt; ", {messages}, {hashes}")
}

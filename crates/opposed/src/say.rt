// What the program writes of a case.
use clash::{ClashError, Clashed, Shown};
use lookup::LookupError;
use std::fmt;

// What a check answered, with the number of its refusal.
#[derive(Clone, Copy)]
pub(crate) struct Checked(pub(crate) Result<(), LookupError>);

impl fmt::Display for Checked {
    fn fmt<W: fmt::Write>(&self, f: &mut fmt::Formatter<W>) -> fmt::Result {
        match self.0 {
            Ok(()) => write!(f, "accepted"),
            Err(LookupError::KeyTooLong) => write!(f, "refused 3"),
            Err(LookupError::WrongLength) => write!(f, "refused 16"),
            Err(LookupError::RootDiffers) => write!(f, "refused 17"),
        }
    }
}

// The bytes of a message.
#[derive(Clone, Copy)]
struct Hex<'a>(&'a [u8]);

impl<'a> fmt::Display for Hex<'a> {
    fn fmt<W: fmt::Write>(&self, f: &mut fmt::Formatter<W>) -> fmt::Result {
        for byte in self.0 {
            write!(f, "{byte:02x}")?;
        }
        Ok(())
    }
}

// What the two proofs came to, and the buffers with the messages.
#[derive(Clone, Copy)]
pub(crate) struct Came<'a> {
    pub(crate) to: Result<Clashed, ClashError>,
    pub(crate) one: &'a [u8],
    pub(crate) other: &'a [u8],
}

impl<'a> fmt::Display for Came<'a> {
    fn fmt<W: fmt::Write>(&self, f: &mut fmt::Formatter<W>) -> fmt::Result {
        let one = Hex(self.one);
        let other = Hex(self.other);
        match self.to {
            Ok(Clashed::Two { first, second }) => {
                write!(f, "two messages of {first} and {second} {one} {other}")
            }
            Ok(Clashed::Zero { size }) => {
                write!(f, "one message of {size}")?;
                match self.one.get(..size) {
                    Some(message) => write!(f, " {}", Hex(message)),
                    None => Ok(()),
                }
            }
            Err(ClashError::BufferShort) => write!(f, "denied 6"),
            Err(ClashError::NotAccepted(Shown::Presence)) => write!(f, "denied 13 1"),
            Err(ClashError::NotAccepted(Shown::Absence)) => write!(f, "denied 13 2"),
        }
    }
}

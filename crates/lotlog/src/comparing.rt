// Two stores that should agree.
ghost use Rattle.std.specs.Prelude.{◌≡◌};
ghost use Rattle.compare.specs.Told.{compared_told};
ghost use Rattle.lotlog.specs.Exports.{told};
ghost use Rattle.lotlog.specs.Comparing.{compared, lot_compare};

use compare::{CompareError, Compared};

// Writes what a comparison comes to; gives the number to return.
fn tell_compared(found: Result<Compared, CompareError>, answer: &mut [u64; 3]) -> u64
    ensures { told result answer.new ≡ compared (compared_told found) }
{
    let (number, said) = match found {
        Ok(Compared::Equal) => (0, [0, 0, 0]),
        Ok(Compared::FirstShorter) => (0, [1, 0, 0]),
        Ok(Compared::SecondShorter) => (0, [2, 0, 0]),
        Ok(Compared::Differ { element, byte }) => (0, [3, element.0, byte]),
        Err(CompareError::Damaged) => (1, [0, 0, 0]),
        Err(CompareError::OtherLog) => (26, [0, 0, 0]),
    };
    *answer = said;
    number
}

// Compares the closed records of two stores of one log, each without its state byte. Answer: 0 if they are equal, 1 if the first is the start of the second, 2
// if the second is the start of the first; 3, the first element that differs and its first byte that does, from 0.
#[tactic(auto, unfolding(crate::specs::Comparing::lot_compare))]
#[unsafe(no_mangle)]
pub extern "C" fn lot_compare(first: &[u8], second: &[u8], answer: &mut [u64; 3]) -> u64
    ensures { told result answer.new ≡ lot_compare first.now second.now }
{
    tell_compared(compare::compare(first, second), answer)
}

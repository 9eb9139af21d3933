// Two stores that should agree: the first byte at which their closed records differ, or which store is the start of the other. Request A8 of document 02.
#![tactic(auto)]

ghost use Rattle.std.specs.Prelude.{◌≡◌, ◌+◌, ◌≤◌, length, MatchOption, IfSome};
ghost use Rattle.rules.specs.Numbers.{v1, limit};
ghost use Rattle.rules.specs.Store.{place};
ghost use Rattle.copies.specs.Comparing.{first_not, same_element, byte_at};
ghost use Rattle.copies.specs.Calls.{compare_call};
ghost use Rattle.compare.specs.Told.{compared_told};

use path::{Length, Position};
use std::cmp::Ordering;
use store::Damaged;

#[derive(Clone, Copy, Debug, PartialEq, Eq)]
pub enum Compared {
    Equal,
    FirstShorter,
    SecondShorter,
    Differ { element: Position, byte: u64 },
}

// Of two stores: one of them is damaged, or they have different log numbers.
#[derive(Clone, Copy, Debug, PartialEq, Eq)]
pub enum CompareError {
    Damaged,
    OtherLog,
}

impl From<Damaged> for CompareError {
    ghost use Rattle.compare.specs.declared.CompareError.TheVariants as refusal;

    ghost from_gives = { λ _ e. e ≡ refusal.Damaged };

    fn from(_damaged: Damaged) -> CompareError {
        CompareError::Damaged
    }
}

// Where two scans were left: at an element, and at a byte of it.
#[derive(Clone, Copy)]
struct Spot {
    element: Position,
    byte: u64,
}

// The first of the elements up to n that differs, and its first byte that does: both scans are left there. None if no element differs.
fn first_difference(first: &[u8], second: &[u8], n: Length) -> Option<Spot>
    requires { (place v1 n.0 ≤ length first.now) × (place v1 n.0 ≤ length second.now) × (n.0 ≤ limit v1) }
    ensures element_value { let at = first_not (same_element v1 first.now second.now) 1 n.0 in MatchOption result (at ≡ n.0 + 1) (λ spot. (at ≤ n.0) × (spot.element.0 ≡ at)) }
    ensures byte_value { IfSome result (λ spot. spot.byte ≡ byte_at v1 first.now second.now spot.element.0) }
{
    let mut found = None;
    'elements: for j in 1..=n.0 {
        let x = layout::fields_of(first, Position(j));
        let y = layout::fields_of(second, Position(j));
        for b in 0..layout::FIELDS {
            if x[b] != y[b] {
                found = Some(Spot {
                    element: Position(j),
                    byte: b as u64,
                });
                break 'elements;
            }
        }
    }
    found
}

// Compares the closed records of two stores of one log, each without its state byte. Open room and capacity do not count.
pub fn compare(first: &[u8], second: &[u8]) -> Result<Compared, CompareError>
    ensures { compared_told result ≡ compare_call v1 first.now second.now }
{
    let n = store::count(first)?;
    let m = store::count(second)?;
    if layout::log_of(first) != layout::log_of(second) {
        return Err(CompareError::OtherLog);
    }
    let common = n.min(m);
    let difference = first_difference(first, second, common);
    if let Some(spot) = difference {
        return Ok(Compared::Differ {
            element: spot.element,
            byte: spot.byte,
        });
    }
    match n.cmp(&m) {
        Ordering::Less => Ok(Compared::FirstShorter),
        Ordering::Greater => Ok(Compared::SecondShorter),
        Ordering::Equal => Ok(Compared::Equal),
    }
}

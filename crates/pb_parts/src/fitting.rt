//! Whether a part can have the numbers of a heading.
ghost use Rattle.std.specs.Prelude.{◌≡◌, ◌↔◌, Contains, IsOk, IsTrue, OnOk};
ghost use Rattle.std.specs.List.Sorted.{IsStrictlyIncreasing};
ghost use Rattle.pb_parts.specs.Parts.{AreApart, ArePieces, IsPiece};

use crate::faults::PartKind;
use crate::parts::Division;

/// Refuses numbers that are not those of pieces, or do not rise.
pub(crate) fn check_numbers(numbers: &[u32], division: &Division) -> Result<(), PartKind>
    ensures { OnOk result (ArePieces division.now numbers.now) }
{
    for number in numbers {
        check_piece(*number, division)?;
    }
    if !are_rising(numbers) {
        return Err(PartKind::NotRising);
    }
    Ok(())
}

/// Refuses a number that is not that of a piece.
fn check_piece(number: u32, division: &Division) -> Result<(), PartKind>
    ensures { IsOk result ↔ IsPiece division.now number }
{
    if number >= division.pieces {
        return Err(PartKind::NoSuchPiece);
    }
    Ok(())
}

/// Whether each number is above the one before it.
fn are_rising(numbers: &[u32]) -> bool
    ensures { IsTrue result ↔ IsStrictlyIncreasing numbers.now }
{
    for place in 1..numbers.len() {
        if numbers[place - 1] >= numbers[place] {
            return false;
        }
    }
    true
}

/// Whether no number is both done and cut. The numbers in `done` rise.
pub(crate) fn are_apart(done: &[u32], cut: &[u32]) -> bool
    requires { IsStrictlyIncreasing done.now }
    ensures { IsTrue result ↔ AreApart done.now cut.now }
{
    for number in cut {
        if is_among(done, *number) {
            return false;
        }
    }
    true
}

/// Whether the number is among these numbers, which rise.
pub fn is_among(numbers: &[u32], number: u32) -> bool
    requires { IsStrictlyIncreasing numbers.now }
    ensures { IsTrue result ↔ Contains numbers.now number }
{
    numbers.binary_search(&number).is_ok()
}

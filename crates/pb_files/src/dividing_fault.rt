//! Why an instance was not divided.
ghost use Rattle.std.specs.Prelude.{◌≡◌};
ghost use Rattle.pb_files.specs.declared.dividing_fault.DivisionFault.TheVariants.{Memory};

use crate::pieces_fault::PiecesFault;
use pb_report::Refusal;
use std::alloc::AllocError;
use std::io;

/// What keeps an instance from being read and divided.
#[derive(Debug, Drop)]
pub enum DivisionFault<'a> {
    /// The file cannot be opened or read, for this reason.
    CannotRead(&'a str, io::Error),
    /// The instance, the cubes, the split or the number of cubes is refused. The name is that of the cube file for its cubes, and
    /// else that of the instance's file. Behind it stands what may help, if there is such a hint.
    Refused(&'a str, Refusal, Option<String>),
    /// Memory was refused.
    Memory,
}

impl From<AllocError> for DivisionFault<'_> {
    ghost from_gives = { λ _ fault. fault ≡ Memory };

    fn from(_: AllocError) -> Self {
        DivisionFault::Memory
    }
}

impl<'a> From<DivisionFault<'a>> for PiecesFault<'a> {
    fn from(fault: DivisionFault<'a>) -> PiecesFault<'a> {
        match fault {
            DivisionFault::CannotRead(name, reason) => PiecesFault::CannotRead(name, reason),
            DivisionFault::Refused(name, refusal, hint) => of_refusal(name, refusal, hint),
            DivisionFault::Memory => PiecesFault::Memory,
        }
    }
}

/// Why no pieces are written where this is refused.
fn of_refusal<'a>(name: &'a str, refusal: Refusal, hint: Option<String>) -> PiecesFault<'a> {
    match refusal {
        Refusal::Input(fault) | Refusal::Cubes(fault) => PiecesFault::Refused(name, fault, hint),
        Refusal::Split => PiecesFault::BadSplit(hint),
        Refusal::TooManyCubes => PiecesFault::TooManyCubes(hint),
    }
}

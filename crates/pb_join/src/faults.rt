//! Why reports were not joined.
ghost use Rattle.std.specs.Prelude.{◌≡◌};
ghost use Rattle.pb_join.specs.declared.faults.JoinFault.TheVariants.{Memory};

use std::alloc::AllocError;
use thiserror::Error;

/// Why a report is not one of the pieces.
#[derive(Clone, Copy, Debug, PartialEq, Eq, Error)]
pub enum Rejection {
    /// Its number is not below the number of pieces.
    #[error("no piece has this number")]
    NoSuchPiece,
    /// An earlier report is of the same piece.
    #[error("there are two reports of this piece")]
    Doubled,
    /// Its assignment is to another number of variables.
    #[error("the assignment is to another number of variables")]
    OtherVariables,
    /// Its assignment does not meet every constraint of the instance.
    #[error("the assignment is infeasible")]
    Infeasible,
    /// The cost that it tells is not that of its assignment.
    #[error("the o line is not the cost of the assignment")]
    WrongCost,
}

/// Why reports were not joined.
#[derive(Clone, Copy, Debug, PartialEq, Eq, Error)]
pub enum JoinFault {
    /// The report at this place of the list, from 0, is the first that is rejected, for this reason.
    #[error("report {place}: {why}")]
    Report { place: usize, why: Rejection },
    /// The memory that the call needs was refused.
    #[error("out of memory")]
    Memory,
    /// The report could not be written.
    #[error("cannot write the report")]
    Write,
}

impl From<AllocError> for JoinFault {
    ghost from_gives = { λ _ fault. fault ≡ Memory };

    fn from(_: AllocError) -> JoinFault {
        JoinFault::Memory
    }
}

//! Why reports of parts were not joined.
ghost use Rattle.std.specs.Prelude.{◌≡◌};
ghost use Rattle.pb_join.specs.declared.parts.faults.PartsFault.TheVariants.{Memory};

use crate::faults::Rejection;
use std::alloc::AllocError;
use thiserror::Error;

/// Why a report is not one of the parts.
#[derive(Clone, Copy, Debug, PartialEq, Eq, Error)]
pub enum PartRejection {
    /// It is of an instance that has other bytes.
    #[error("the part is of another instance")]
    OtherInstance,
    /// It says that there are no pieces.
    #[error("the part is of no pieces")]
    NoPieces,
    /// It is of another number of tasks.
    #[error("the part is of another number of tasks")]
    OtherTasks,
    /// The first report is of an instance that was divided otherwise.
    #[error("the first part is of other pieces")]
    OtherDivision,
    /// An earlier report is of the same task.
    #[error("there are two reports of this task")]
    Doubled,
    /// It claims what no part can claim: that an assignment is least, that nothing is feasible, or that the instance was not
    /// solved.
    #[error("a part has no such answer")]
    NotAPart,
    /// The instance does not accept its assignment, for this reason. Those on the number of a piece do not occur here.
    #[error("{0}")]
    Unfit(Rejection),
}

/// Why reports of parts were not joined.
#[derive(Clone, Copy, Debug, PartialEq, Eq, Error)]
pub enum PartsFault {
    /// The report at this place of the list, from 0, is the first that is rejected, for this reason.
    #[error("report {place}: {why}")]
    Report { place: usize, why: PartRejection },
    /// The memory that the call needs was refused.
    #[error("out of memory")]
    Memory,
    /// The report could not be written.
    #[error("cannot write the report")]
    Write,
}

impl From<AllocError> for PartsFault {
    ghost from_gives = { λ _ fault. fault ≡ Memory };

    fn from(_: AllocError) -> PartsFault {
        PartsFault::Memory
    }
}

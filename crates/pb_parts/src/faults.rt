//! Why a part's report could not be read.
ghost use Rattle.std.specs.Prelude.{◌≡◌};
ghost use Rattle.pb_parts.specs.declared.faults.PartKind.TheVariants.{Memory};

use pb_report::ReportKind;
use std::alloc::{AllocError, AllocFailed};
use thiserror::Error;

/// What is wrong with a line of a part's report, or that memory ran out.
#[derive(Clone, Copy, Debug, PartialEq, Eq, Error)]
pub enum PartKind {
    /// The line that stands here in every heading is missing, or is spelled otherwise, or has a number that passes 32 bits.
    #[error("Heading")]
    Heading,
    /// The number of the task is not below the number of tasks.
    #[error("NoSuchTask")]
    NoSuchTask,
    /// The number of a piece is not below the number of pieces.
    #[error("NoSuchPiece")]
    NoSuchPiece,
    /// The number of a piece is not above the one before it.
    #[error("NotRising")]
    NotRising,
    /// A piece is said to be done and to be cut.
    #[error("DoneAndCut")]
    DoneAndCut,
    /// Memory ran out. This says nothing of the report.
    #[error("Memory")]
    Memory,
    /// The lines after the heading are no report.
    #[error("{0}")]
    Report(ReportKind),
}

impl From<AllocError> for PartKind {
    ghost from_gives = { λ _ kind. kind ≡ Memory };

    fn from(_: AllocError) -> PartKind {
        PartKind::Memory
    }
}

impl<T: Drop> From<AllocFailed<T>> for PartKind {
    ghost from_gives = { λ _ kind. kind ≡ Memory };

    fn from(_: AllocFailed<T>) -> PartKind {
        PartKind::Memory
    }
}

/// The first fault of a part's report, and its line, from 1. `Report` has the line of the report's fault, counted from the first
/// line of the heading. `Memory` has line 0.
#[derive(Clone, Copy, Debug, PartialEq, Eq, Error)]
#[error("{kind} at line {line}")]
pub struct PartFault {
    pub kind: PartKind,
    pub line: u64,
}

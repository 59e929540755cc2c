//! Why a run has no report, and what it refuses to solve.

use pb_read::ReadFault;
use thiserror::Error;

/// The device whose failure leaves a run without a report.
#[derive(Clone, Copy, Debug, PartialEq, Eq, Error)]
pub enum RunFault {
    #[error("cannot read the input")]
    ReadInput,
    #[error("cannot read the cube file")]
    ReadCubes,
    #[error("cannot write the report")]
    Write,
}

/// What a run refuses to solve.
#[derive(Clone, Copy, Debug, PartialEq, Eq)]
pub enum Refusal {
    Input(ReadFault),
    Cubes(ReadFault),
    Split,
    TooManyCubes,
}

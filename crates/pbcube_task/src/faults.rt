//! What keeps the program from a report.
use pb_solve::RunFault;
use std::io;
use thiserror::Error;

/// What keeps the program from a report.
#[derive(Clone, Copy, Debug, Error)]
pub enum ProgramFault<'a> {
    /// The file cannot be opened or read, for this reason.
    #[error("cannot read {0}")]
    CannotRead(&'a str, io::Error),
    #[error("cannot write")]
    CannotWrite,
}

/// The program reads no device, so a fault of a run is one of its output.
impl From<RunFault> for ProgramFault<'_> {
    fn from(_: RunFault) -> Self {
        ProgramFault::CannotWrite
    }
}

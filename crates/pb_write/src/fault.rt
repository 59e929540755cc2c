//! Why a text was not written.

use std::io::{Error, ErrorKind};
use thiserror::Error as ErrorText;

/// Why an instance or a piece was not written whole. Where it was refused, nothing was written.
#[derive(Clone, Copy, Debug, PartialEq, Eq, ErrorText)]
pub enum WriteFault {
    /// The format has clauses alone, and there is an objective or a constraint that is no clause.
    #[error("there is more than clauses")]
    NotClauses,
    /// There would be more than `MAX_CONSTRAINTS` constraints or `MAX_TERMS` terms.
    #[error("there are too many constraints or terms")]
    TooMany,
    /// The writer needed memory that was refused.
    #[error("out of memory")]
    Memory,
    /// The writer failed.
    #[error("cannot write")]
    Write,
}

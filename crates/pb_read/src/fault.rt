//! Why a text could not be read.

use thiserror::Error;

/// What is wrong with a statement of a text, or that memory ran out.
#[derive(Clone, Copy, Debug, PartialEq, Eq, Error)]
pub enum ReadKind {
    /// The text ends before the statement does.
    #[error("Unfinished")]
    Unfinished,
    /// A word is not one of the format's, or the words are in an order that the format does not have.
    #[error("Syntax")]
    Syntax,
    /// A term has more than one literal.
    #[error("NonLinear")]
    NonLinear,
    /// An objective comes after another statement.
    #[error("LateObjective")]
    LateObjective,
    /// The index of a variable is 0 or over its limit.
    #[error("BadVariable")]
    BadVariable,
    /// The absolute values of a statement's numbers add up to more than the bound on sums.
    #[error("TooLarge")]
    TooLarge,
    /// There are more variables, constraints, terms or cubes than an instance may have.
    #[error("TooMany")]
    TooMany,
    /// The header is missing or has another shape.
    #[error("BadHeader")]
    BadHeader,
    /// There are fewer clauses than the header says.
    #[error("TooFewClauses")]
    TooFewClauses,
    /// There are more clauses than the header says.
    #[error("TooManyClauses")]
    TooManyClauses,
    /// Something other than a cube comes after a cube.
    #[error("ClauseAfterCube")]
    ClauseAfterCube,
    /// Memory ran out. This says nothing of the text.
    #[error("Memory")]
    Memory,
}

/// The first fault of a text, and the line on which the faulty statement begins, from 1. `Memory` has line 0.
#[derive(Clone, Copy, Debug, PartialEq, Eq, Error)]
#[error("{kind} at line {line}")]
pub struct ReadFault {
    pub kind: ReadKind,
    pub line: u64,
}

impl ReadFault {
    /// Memory ran out.
    pub(crate) const MEMORY: ReadFault = ReadFault {
        kind: ReadKind::Memory,
        line: 0,
    };
}

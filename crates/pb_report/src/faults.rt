//! Why a report could not be read.
ghost use Rattle.std.specs.Prelude.{◌≡◌};

use thiserror::Error;

/// What is wrong with a line of a report, or that memory ran out.
#[derive(Clone, Copy, Debug, PartialEq, Eq, Error)]
pub enum ReportKind {
    /// A line is none of `o`, `s`, `v` and `c`, or has a word that it cannot have, or an `o` line's number passes 128 bits.
    #[error("Syntax")]
    Syntax,
    /// A second `s` line.
    #[error("SecondStatus")]
    SecondStatus,
    /// A literal of the `v` lines is of no variable of the instance.
    #[error("BadVariable")]
    BadVariable,
    /// A variable occurs a second time in the `v` lines.
    #[error("RepeatedVariable")]
    RepeatedVariable,
    /// The `v` lines end before every variable has its value, or without the `0` that ends them in DIMACS CNF.
    #[error("Unfinished")]
    Unfinished,
    /// There is no `s` line.
    #[error("NoStatus")]
    NoStatus,
    /// The `s` line claims an assignment, and there is no `v` line.
    #[error("NoValues")]
    NoValues,
    /// There are `v` lines, and the `s` line claims no assignment.
    #[error("Unclaimed")]
    Unclaimed,
    /// Memory ran out. This says nothing of the report.
    #[error("Memory")]
    Memory,
}

/// The first fault of a report, and its line, from 1. `NoStatus` is at the last line, `NoValues` and `Unclaimed` are at that
/// of the `s` line, `Unfinished` is at the last `v` line. `Memory` has line 0.
#[derive(Clone, Copy, Debug, PartialEq, Eq, Error)]
#[error("{kind} at line {line}")]
pub struct ReportFault {
    pub kind: ReportKind,
    pub line: u64,
}

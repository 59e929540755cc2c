//! What keeps reports from being joined.
use crate::clue::Clue;
use crate::quote::Quote;
use pb_hint::hint_on_name;
use pb_join::{PartRejection, Rejection};
use pb_parts::PartFault;
use pb_read::ReadFault;
use pb_report::ReportFault;
use std::alloc::{AllocError, AllocFailed};
use std::io;
use thiserror::Error;

/// Why an index is not that of the instance.
#[derive(Clone, Copy, Debug, PartialEq, Eq, Error)]
pub enum IndexFault {
    /// Its first line tells no number of pieces within the limits.
    #[error("line 1 tells no number of pieces")]
    NoNumber,
    /// It tells the first of these numbers of pieces, and the words or another index tell the second.
    #[error("it is of {0} pieces, and not of {1}")]
    OtherNumber(u32, u32),
    /// It tells the digest of another text.
    #[error("the instance is not the text that was cut: the digest at line 4 is another")]
    OtherDigest,
    /// This line, counted from 1, is not as it has to be.
    #[error("line {0} is not that of an index of the instance")]
    OtherLine(usize),
}

/// Why the file of a report or an index was not taken.
#[derive(Clone, Copy, Debug, Error)]
pub enum Refusal {
    /// Its name tells no piece.
    #[error("the name has no number of a piece before its last dot: name the report of piece 7 7.report, and leave out that of a whole run or of a join")]
    NoNumber,
    /// An earlier file has the same name.
    #[error("the file is named twice")]
    NamedTwice,
    /// It cannot be opened or read, for this reason.
    #[error("cannot be read: {0}")]
    Unreadable(io::Error),
    /// Its lines are no report.
    #[error("{0}")]
    Faulty(ReportFault),
    /// Its lines are no report, as its bytes or the line of the fault may tell.
    #[error("{0}: {1}")]
    Stray(ReportFault, Clue),
    /// No piece can have its report.
    #[error("{0}")]
    Rejected(Rejection),
    /// Its lines are no report of a part.
    #[error("{0}")]
    FaultyPart(PartFault),
    /// Its lines are no report of a part, as the line of the fault may tell.
    #[error("{0}: {1}")]
    StrayPart(PartFault, Clue),
    /// The run of its task refused its input, with this line.
    #[error("its run refused its input: {0}")]
    RefusedTask(Quote),
    /// The run of its task refused a split, and the instance has this number of variables, enough for each split.
    #[error("its run refused the split of another instance: the {0} variables of this one are enough for any")]
    RefusedOther(u32),
    /// Its task searched nothing, and tells this instead.
    #[error("the task searched nothing: {0}")]
    SearchedNothing(Quote),
    /// It is the report of one of this number of tasks, and those of pieces are asked for.
    #[error("it is the report of a task: give --tasks {0}")]
    OfTask(u32),
    /// It is the report of a piece, and those of tasks are asked for.
    #[error("it is the report of a piece: leave --tasks out")]
    OfPiece,
    /// It is the report of no task, and others are reports of tasks.
    #[error("it is the report of a whole run or of a join, and of no task: leave this file out")]
    OfNoTask,
    /// It is of the first of these numbers of tasks, and the words tell the second.
    #[error("the part is of {0} tasks, and --tasks tells {1}")]
    OfOtherTasks(u32, u32),
    /// No part can have its report.
    #[error("{0}")]
    RejectedPart(PartRejection),
    /// It is no index of the instance.
    #[error("{0}")]
    Index(IndexFault),
}

/// What keeps reports from being joined, with the name of the file where it was met.
#[derive(Debug, Drop, Error)]
pub enum ReportsFault<'a> {
    /// The instance cannot be opened or read, or the folder of reports, for this reason.
    #[error("cannot read {0}: {1}")]
    CannotRead(&'a str, io::Error),
    /// The instance is refused. Behind its fault stands what may help, if there is such a hint.
    #[error("{0}: {1}")]
    Refused(&'a str, ReadFault, Option<String>),
    /// The file of a report or an index is refused.
    #[error("{0}: {1}")]
    Report(String, Refusal),
    /// The file of a report is refused, since it does not go with that of the last name.
    #[error("{0}: {1}: see {2}")]
    Beside(String, Refusal, String),
    /// Neither the words nor an index tell how many pieces there are.
    #[error("the number of pieces is told neither by --pieces nor by an index")]
    NoNumber,
    /// Memory was refused.
    #[error("out of memory")]
    Memory,
    /// The report cannot be written.
    #[error("cannot write")]
    CannotWrite,
}

impl ReportsFault<'_> {
    /// What may help with the instance, if there is such a hint.
    pub fn hint(&self) -> Option<&str> {
        match self {
            ReportsFault::Refused(_, _, hint) => hint.as_deref(),
            ReportsFault::CannotRead(name, _) => hint_on_name(name),
            _ => None,
        }
    }

    /// Why the report in the file of this name is refused, which does not go with the report in another file, if that is known.
    pub fn of_report<'a>(name: String, why: Refusal, other: Option<String>) -> ReportsFault<'a> {
        match other {
            Some(other) if *other == *name => ReportsFault::Report(name, Refusal::NamedTwice),
            Some(other) => ReportsFault::Beside(name, why, other),
            None => ReportsFault::Report(name, why),
        }
    }
}

impl From<AllocError> for ReportsFault<'_> {
    fn from(_: AllocError) -> Self {
        ReportsFault::Memory
    }
}

impl<T: Drop> From<AllocFailed<T>> for ReportsFault<'_> {
    fn from(_: AllocFailed<T>) -> Self {
        ReportsFault::Memory
    }
}

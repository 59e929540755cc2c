//! The lines that name what has to be run again.
use pb_join::{JoinedParts, PieceState, ReportState, TaskState};
use std::io::{self, Write};

/// Pieces or tasks, by their numbers.
trait Numbered {
    /// How many there are.
    fn count(&self) -> usize;

    /// Whether the one of this number has to be run again.
    fn is_open(&self, number: usize) -> bool;
}

/// What became of each piece.
#[derive(Clone, Copy)]
struct Pieces<'s> {
    states: &'s [PieceState],
}

impl Numbered for Pieces<'_> {
    fn count(&self) -> usize {
        self.states.len()
    }

    fn is_open(&self, number: usize) -> bool {
        match self.states.get(number) {
            Some(state) => *state != PieceState::Done,
            None => false,
        }
    }
}

/// Why tasks have to be run again.
#[derive(Clone, Copy, PartialEq, Eq)]
enum Cause {
    /// There is a piece for the task, and no report of it; or its report names a piece as cut.
    Report,
    /// There is no report of the task. It may have claimed a piece, though it is dealt none.
    NoReport,
    /// No report names a piece that the task is dealt.
    Unnamed,
}

/// What became of each task, and for which cause some have to be run again.
#[derive(Clone, Copy)]
struct Tasks<'s> {
    states: &'s [TaskState],
    /// The number of pieces, where a report tells it. Each of the first tasks, one for each piece, is dealt a piece.
    pieces: Option<u32>,
    cause: Cause,
}

impl Numbered for Tasks<'_> {
    fn count(&self) -> usize {
        self.states.len()
    }

    fn is_open(&self, number: usize) -> bool {
        let Some(state) = self.states.get(number) else {
            return false;
        };
        let has_none = state.report == ReportState::Missing;
        match self.cause {
            Cause::Report => {
                state.report == ReportState::Cut || has_none && is_dealt(self.pieces, number)
            }
            Cause::NoReport => has_none,
            Cause::Unnamed => !state.finished,
        }
    }
}

/// Whether there is a piece for the task of this number, as far as is known.
fn is_dealt(pieces: Option<u32>, number: usize) -> bool {
    match pieces {
        Some(pieces) => number < pieces as usize,
        None => true,
    }
}

/// Writes one line to the standard error where there is no report at all: its files may have other names. A fault of the standard error
/// is ignored.
pub(crate) fn tell_of_no_report<E: Write>(err: &mut E) {
    let _ = writeln!(
        err,
        "pbcube_join: no report was found: name files, or folders with files whose names end in .report"
    );
}

/// Writes one line to the standard error with the numbers of the pieces that have to be run again, in the form that the option
/// `--array` of Slurm takes: `3,5-7`. A fault of the standard error is ignored.
pub(crate) fn name_pieces_again<E: Write>(states: &[PieceState], err: &mut E) {
    let _ = write_open("pieces", &Pieces { states }, err);
}

/// Writes the same of the tasks that have to be run again, where a report tells the number of pieces, if there is one. The first
/// cause counts for which there is such a task. Where it is the last, another line, before this one, has the numbers of the pieces
/// that no report names.
pub(crate) fn name_tasks_again<E: Write>(joined: &JoinedParts, pieces: Option<u32>, err: &mut E) {
    let tasks = open_tasks(&joined.states, pieces);
    if tasks.cause == Cause::Unnamed {
        let _ = write_unnamed(&joined.named, pieces.unwrap_or(0), err);
    }
    let _ = write_open("tasks", &tasks, err);
}

/// What became of these tasks, and the first cause for which some have to be run again.
fn open_tasks<'s>(states: &'s [TaskState], pieces: Option<u32>) -> Tasks<'s> {
    let mut tasks = Tasks {
        states,
        pieces,
        cause: Cause::Report,
    };
    if !has_open(&tasks) {
        tasks.cause = Cause::NoReport;
    }
    if !has_open(&tasks) {
        tasks.cause = Cause::Unnamed;
    }
    tasks
}

fn has_open<N: Numbered>(numbered: &N) -> bool {
    for number in 0..numbered.count() {
        if numbered.is_open(number) {
            return true;
        }
    }
    false
}

fn write_open<N: Numbered, E: Write>(of: &str, numbered: &N, err: &mut E) -> io::Result<()> {
    write!(err, "pbcube_join: run again: {of}")?;
    let mut separator = ' ';
    let mut first = None; // of the run of numbers under way
    let mut last = 0;
    for number in 0..numbered.count() {
        if numbered.is_open(number) {
            first = first.or(Some(number));
            last = number;
        } else if let Some(begun) = first.take() {
            write_run(separator, begun, last, err)?;
            separator = ',';
        }
    }
    if let Some(begun) = first {
        write_run(separator, begun, last, err)?;
    }
    writeln!(err)
}

/// Writes the line with the numbers of the pieces, of which there are `pieces`, that are not among those that are named. Some task
/// has claimed them, and has told nothing of them.
fn write_unnamed<E: Write>(named: &[u32], pieces: u32, err: &mut E) -> io::Result<()> {
    write!(err, "pbcube_join: no report names pieces")?;
    let mut separator = ' ';
    let mut next: u32 = 0; // the piece behind the last one that is named
    for number in named {
        if next < *number {
            write_run(separator, next as usize, *number as usize - 1, err)?;
            separator = ',';
        }
        next = number.saturating_add(1);
    }
    if next < pieces {
        write_run(separator, next as usize, pieces as usize - 1, err)?;
    }
    writeln!(
        err,
        ": first remove TASK.*.claim of these tasks from the folder of --exchange"
    )
}

/// The numbers from the first to the last one.
fn write_run<E: Write>(separator: char, first: usize, last: usize, err: &mut E) -> io::Result<()> {
    if first == last {
        write!(err, "{separator}{first}")
    } else {
        write!(err, "{separator}{first}-{last}")
    }
}

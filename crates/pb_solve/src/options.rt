//! The options of a run, and how it ends.
ghost use Rattle.std.specs.Prelude.{◌≡◌, false};

use pb_inst::Workers;
use pb_read::Format;
use pb_report::Status;

/// How to read the input, how to divide the work, and how much of it to do. Neither the workers nor an accepted split change
/// the report of a run in which no piece was cut.
#[derive(Clone, Copy, Debug)]
pub struct Options {
    pub format: Format,
    /// How many threads may search at the same time.
    pub workers: Workers,
    /// How many variables are split into cubes, at most 12; 0 makes no cubes.
    pub split: u32,
    /// How many decisions the search of each piece makes at most, where a variable's second value counts like its first; a
    /// piece that needs more is cut. None sets no limit. The workers share no budget, so that none waits for another's count,
    /// and a run of one worker is the same each time.
    pub nodes: Option<u64>,
}

/// How a run that wrote its report ended, and whether it went through all of the work.
#[derive(Clone, Copy, Debug, PartialEq, Eq)]
pub struct Ran {
    pub status: Status,
    /// Whether the search of some piece was cut by its budget. Then the report does not tell the least assignment, but the
    /// best that was found. Never without a budget, at a refusal, or for want of memory.
    pub cut: bool,
}

impl Ran {
    /// The end of a run in which no piece was cut.
    pub(crate) fn uncut(status: Status) -> Ran
        ensures { result ≡ record { status = status; cut = false } }
    {
        Ran { status, cut: false }
    }
}

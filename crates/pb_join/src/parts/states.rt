//! What became of a task.

/// What the report of a task tells, if there is one.
#[derive(Clone, Copy, PartialEq, Eq)]
pub enum ReportState {
    /// No report is of this task.
    Missing,
    /// Its report names a piece as cut.
    Cut,
    /// Its report names no piece as cut.
    Ended,
}

/// What became of a task: what its report tells, and whether its pieces are done, by whichever task. Where they are not, the task
/// is missing if it has no report, and else it is unfinished.
#[derive(Clone, Copy, PartialEq, Eq)]
pub struct TaskState {
    pub report: ReportState,
    /// Whether some report tells how many pieces there are, and each piece that the task is dealt is named as done by some report.
    pub finished: bool,
}

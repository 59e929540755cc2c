//! Which pieces and which tasks are done.
ghost use Rattle.std.specs.Prelude.{◌≡◌, ◌↔◌, ◌+◌, ◌*◌, ◌^◌, ◌<◌, ℕ, length, Contains, IfOk, IsTrue};
ghost use Rattle.std.specs.Option.{IfSome};
ghost use Rattle.std.specs.List.Sorted.{IsStrictlyIncreasing};
ghost use Rattle.pb_join.specs.Parts.{AreAllAmong, AreStatesBy, IsDealtTo, IsFinishedBy, IsReportBy};

use crate::parts::states::{ReportState, TaskState};
use pb_parts::{Division, Heading, is_among};
use std::alloc::{AllocError, Global};

/// What a report with this heading tells.
pub(crate) fn state_of_report(heading: &Heading) -> ReportState
    ensures { IsReportBy heading.now result }
{
    if heading.cut.is_empty() {
        ReportState::Ended
    } else {
        ReportState::Cut
    }
}

/// Whether each piece is among those that are named as done. It is not so where no report tells how many pieces there are.
pub(crate) fn is_whole(division: &Option<Division>, named: &[u32]) -> bool
    requires { IsStrictlyIncreasing named.now }
    ensures { IsTrue result ↔ AreAllAmong division.now named.now }
{
    match division {
        Some(division) => has_all(division.pieces, named),
        None => false,
    }
}

fn has_all(pieces: u32, named: &[u32]) -> bool
    requires { IsStrictlyIncreasing named.now }
    ensures { IsTrue result ↔ ((i : ℕ) → i < pieces → Contains named.now i) }
{
    for piece in 0..pieces {
        if !is_among(named, piece) {
            return false;
        }
    }
    true
}

/// What became of each task, by what its report tells and by the pieces that are named as done.
pub(crate) fn states_of(
    alloc: Global,
    division: &Option<Division>,
    tasks: u32,
    reports: &[ReportState],
    named: &[u32],
) -> Result<Vec<TaskState>, AllocError>
    requires tasks { IfSome division.now (λ d. d.tasks ≡ tasks) }
    requires reports { length reports.now ≡ tasks }
    requires rising { IsStrictlyIncreasing named.now }
    ensures { IfOk result (λ states. AreStatesBy division.now tasks reports.now named.now states.items) }
{
    let mut states = Vec::new(alloc);
    for task in 0..tasks {
        states.push(TaskState {
            report: reports[task as usize],
            finished: is_finished(division, task, named),
        })?;
    }
    Ok(states)
}

/// Whether each piece that the task is dealt is among those that are named as done.
fn is_finished(division: &Option<Division>, task: u32, named: &[u32]) -> bool
    requires task { IfSome division.now (λ d. task < d.tasks) }
    requires rising { IsStrictlyIncreasing named.now }
    ensures { IsTrue result ↔ IsFinishedBy division.now task named.now }
{
    match division {
        Some(division) => names_all(division, task, named),
        None => false,
    }
}

fn names_all(division: &Division, task: u32, named: &[u32]) -> bool
    requires task { task < division.now.tasks }
    requires rising { IsStrictlyIncreasing named.now }
    ensures { IsTrue result ↔ ((i : ℕ) → IsDealtTo division.now task i → Contains named.now i) }
{
    for turn in 0..turns_of(division, task) {
        if !is_among(named, turn * division.tasks + task) {
            return false;
        }
    }
    true
}

/// How many pieces the task is dealt: one at each turn.
fn turns_of(division: &Division, task: u32) -> u32
    requires { task < division.now.tasks }
    ensures turns { (turn : ℕ) → (turn < result) ↔ (turn * division.now.tasks + task < division.now.pieces) }
    ensures fits { (turn : ℕ) → turn < result → turn * division.now.tasks + task < 2 ^ 32 }
{
    if task < division.pieces {
        (division.pieces - 1 - task) / division.tasks + 1
    } else {
        0
    }
}

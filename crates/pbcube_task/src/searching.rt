//! The search of the pieces of a task.
ghost use Rattle.std.specs.Prelude.{◌≡◌, ◌<◌, [], true, is_some, IfNone, IfOk, IfSome};
ghost use Rattle.pb_workers.specs.Dealing.{IsAnswerOfTask};
ghost use Rattle.pbcube_task.specs.Reporting.{task_of};

use crate::places::Places;
use pb_files::Prepared;
use pb_inst::Best;
use pb_line::tasks::Line;
use pb_line::tell_of_one_piece;
use pb_notes::{Division, Notes, note_room, write_note};
use pb_workers::{Correspondence, NoNotes, OpenGate, SolveFault, Task, TaskAnswer, solve_task};
use std::alloc::Global;
use std::io::{self, Error, ErrorKind, Write};
use std::thread::Threads;

/// Searches the pieces of the line's task, with the notes and claims of other tasks where the line names a folder that can be used.
pub fn search<'i, R: Threads + Sync, N: Notes + Sync + Drop, P: Places<N>, E: Write>(
    rt: &R,
    alloc: Global,
    line: &Line<'_>,
    prepared: &'i Prepared,
    places: &P,
    err: &mut E,
) -> Result<TaskAnswer<'i>, SolveFault>
    requires task { line.now.task < line.now.tasks }
    requires same_variables { prepared.now.pieces.vars ≡ prepared.now.instance.vars }
    ensures same_instance { IfOk result (λ answer. answer.best.problem ≡ prepared.now.instance) }
    ensures answer { IfOk result (λ answer. IsAnswerOfTask prepared.now.instance prepared.now.pieces (task_of line.now) answer.done.items answer.cut.items answer.best.held) }
    ensures no_budget { IfNone line.now.nodes (IfOk result (λ answer. answer.cut.items ≡ [])) }
{
    let pieces = prepared.pieces.len();
    if has_one_piece(line, pieces) {
        tell_of_one_piece("pbcube_task", line.workers, err);
    }
    match place_of(alloc, line, pieces, places, err)? {
        Some(notes) => search_with_notes(rt, alloc, line, prepared, &notes),
        None => search_without_notes(rt, alloc, line, prepared),
    }
}

/// Whether the line's task has one of these pieces, and no second one: where it claims pieces it may get all.
fn has_one_piece(line: &Line<'_>, pieces: u32) -> bool {
    let rest = pieces.saturating_sub(line.task);
    match line.exchange {
        Some(_) => rest > 0 && pieces == 1,
        None => rest > 0 && rest <= line.tasks,
    }
}

/// The notes of the tasks, where the line names a folder and this task has a piece. A folder that cannot be used is reported.
fn place_of<N, P: Places<N>, E: Write>(
    alloc: Global,
    line: &Line<'_>,
    pieces: u32,
    places: &P,
    err: &mut E,
) -> Result<Option<N>, SolveFault>
    ensures { IfOk result (λ place. IfSome place (λ _. is_some line.now.exchange ≡ true)) }
{
    if line.task >= pieces {
        let _ = writeln!(
            err,
            "pbcube_task: none of the {pieces} pieces is of task {}",
            line.task
        );
        return Ok(None);
    }
    let Some(folder) = line.exchange else {
        return Ok(None);
    };
    let tasks = tasks_with_pieces(line.tasks, pieces);
    match places.open(alloc, folder, line.task, tasks, line.workers.get()) {
        Ok(place) => Ok(Some(place)),
        Err(fault) if fault.kind() == ErrorKind::OutOfMemory => Err(SolveFault::Memory),
        Err(fault) => {
            let _ = writeln!(
                err,
                "pbcube_task: cannot use {folder}, so task {} exchanges no assignments: {fault}",
                line.task
            );
            Ok(None)
        }
    }
}

/// The number of tasks that have a piece. The other tasks have no notes.
fn tasks_with_pieces(tasks: u32, pieces: u32) -> u32 {
    tasks.min(pieces)
}

/// Searches with these notes. What was found in the end is left there for the tasks that still search.
fn search_with_notes<'i, R: Threads + Sync, N: Notes + Sync>(
    rt: &R,
    alloc: Global,
    line: &Line<'_>,
    prepared: &'i Prepared,
    notes: &N,
) -> Result<TaskAnswer<'i>, SolveFault>
    requires task { line.now.task < line.now.tasks }
    requires same_variables { prepared.now.pieces.vars ≡ prepared.now.instance.vars }
    requires exchange { is_some line.now.exchange ≡ true }
    ensures same_instance { IfOk result (λ answer. answer.best.problem ≡ prepared.now.instance) }
    ensures answer { IfOk result (λ answer. IsAnswerOfTask prepared.now.instance prepared.now.pieces (task_of line.now) answer.done.items answer.cut.items answer.best.held) }
    ensures no_budget { IfNone line.now.nodes (IfOk result (λ answer. answer.cut.items ≡ [])) }
{
    let pieces = prepared.pieces.len();
    let division = Division {
        instance: prepared.digest,
        pieces,
        split: line.split,
        cubes: prepared.cubes_digest,
        tasks: tasks_with_pieces(line.tasks, pieces),
    };
    let with = Correspondence {
        notes,
        division,
        task: line.task,
    };
    let answer = search_with(rt, alloc, line, prepared, Some(&with))?;
    if let Err(fault) = leave_note(alloc, notes, &prepared.digest, &answer.best) {
        notes.tell(&fault);
    }
    Ok(answer)
}

/// Searches the pieces that the task is dealt, and no others.
fn search_without_notes<'i, R: Threads + Sync>(
    rt: &R,
    alloc: Global,
    line: &Line<'_>,
    prepared: &'i Prepared,
) -> Result<TaskAnswer<'i>, SolveFault>
    requires task { line.now.task < line.now.tasks }
    requires same_variables { prepared.now.pieces.vars ≡ prepared.now.instance.vars }
    ensures same_instance { IfOk result (λ answer. answer.best.problem ≡ prepared.now.instance) }
    ensures answer { IfOk result (λ answer. IsAnswerOfTask prepared.now.instance prepared.now.pieces (task_of line.now) answer.done.items answer.cut.items answer.best.held) }
    ensures no_budget { IfNone line.now.nodes (IfOk result (λ answer. answer.cut.items ≡ [])) }
{
    let nobody = None::<&Correspondence<'_, NoNotes>>;
    let answer = search_with(rt, alloc, line, prepared, nobody)?;
    Ok(answer)
}

/// Searches with this correspondence, by which the task claims pieces, or with none.
fn search_with<'i, R: Threads + Sync, N: Notes + Sync>(
    rt: &R,
    alloc: Global,
    line: &Line<'_>,
    prepared: &'i Prepared,
    with: Option<&Correspondence<'_, N>>,
) -> Result<TaskAnswer<'i>, SolveFault>
    requires task { line.now.task < line.now.tasks }
    requires same_variables { prepared.now.pieces.vars ≡ prepared.now.instance.vars }
    ensures same_instance { IfOk result (λ answer. answer.best.problem ≡ prepared.now.instance) }
    ensures answer { IfOk result (λ answer. IsAnswerOfTask prepared.now.instance prepared.now.pieces (record { number = line.now.task; tasks = line.now.tasks; claims = is_some with.entry }) answer.done.items answer.cut.items answer.best.held) }
    ensures no_budget { IfNone line.now.nodes (IfOk result (λ answer. answer.cut.items ≡ [])) }
{
    let Some(task) = Task::new(line.task, line.tasks, with.is_some()) else {
        unreachable!()
    };
    solve_task(
        rt,
        alloc,
        &prepared.instance,
        &prepared.pieces,
        task,
        line.workers,
        with,
        &OpenGate,
        line.nodes,
    )
}

/// Writes what is held as the task's note, if anything is.
fn leave_note<N: Notes>(
    alloc: Global,
    notes: &N,
    digest: &[u8; 32],
    best: &Best<'_>,
) -> io::Result<()> {
    let (Some(cost), Some(values)) = (best.cost(), best.assignment()) else {
        return Ok(());
    };
    let Ok(mut text) = Vec::with_capacity(alloc, note_room(values.len())) else {
        return Err(Error::from(ErrorKind::OutOfMemory));
    };
    write_note(&mut text, digest, cost, values);
    notes.write(0, &text)
}

//! Solving the pieces of one task, whose workers lend each other what they found, and others beyond their board.
ghost use Rattle.std.specs.Prelude.{◌≡◌, [], IfOk, IfNone};
ghost use Rattle.pb_workers.specs.Dealing.{IsAnswerOfTask};

use crate::facts::facts_of;
use crate::gate::Gate;
use crate::names::Names;
use crate::note_share::Correspondence;
use crate::solving::SolveFault;
use crate::task::Task;
use crate::together::{Dealt, work_together};
use pb_cubes::Pieces;
use pb_inst::{Best, Instance, Workers};
use pb_notes::Notes;
use std::alloc::Global;
use std::thread::Threads;

/// What a task found.
#[derive(Drop)]
pub struct TaskAnswer<'i> {
    /// The best assignment that was found in the task's pieces or came from others, which is feasible.
    pub best: Best<'i>,
    /// The numbers of the pieces that are done, in order: no feasible assignment of them is before the best one.
    pub done: Vec<u32>,
    /// The numbers of the pieces whose search was cut by its budget, in order; none without one.
    pub cut: Vec<u32>,
}

/// Searches every piece that the task is dealt, with at most `nodes` decisions where a budget is given, and answers the best
/// assignment that was found. A task that claims pieces leaves out those that other tasks have claimed, and afterwards searches the
/// pieces of other tasks that it can claim. The workers lend each other what they found, and each of them also borrows and lends beyond the
/// board. Whatever comes in that way, a piece that is named as done is done, since every assignment that is borrowed is
/// checked. Asks for pieces over the instance's variables. Fails where memory is refused.
pub fn solve_task<'i, R: Threads + Sync, N: Notes + Sync, G: Gate + Sync>(
    rt: &R,
    alloc: Global,
    inst: &'i Instance,
    pieces: &'i Pieces,
    task: Task,
    workers: Workers,
    notes: Option<&Correspondence<'_, N>>,
    gate: &G,
    nodes: Option<u64>,
) -> Result<TaskAnswer<'i>, SolveFault>
    requires { pieces.now.vars ≡ inst.now.vars }
    ensures same_instance { IfOk result (λ answer. answer.best.problem ≡ inst.now) }
    ensures answer { IfOk result (λ answer. IsAnswerOfTask inst.now pieces.now task answer.done.items answer.cut.items answer.best.held) }
    ensures no_budget { IfNone nodes (IfOk result (λ answer. answer.cut.items ≡ [])) }
{
    let dealt = work_together(
        rt,
        alloc,
        inst,
        pieces,
        workers,
        notes,
        gate,
        Some(task),
        nodes,
        false,
    )?;
    let Dealt {
        best,
        names,
        cut: _,
        is_settled: _,
    } = dealt;
    // The proof learns by this call that what is held is a solution, so what some part did is done by the first of all parts.
    facts_of(&best);
    let Names { done, cut } = names;
    Ok(TaskAnswer { best, done, cut })
}

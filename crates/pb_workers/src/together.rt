//! Workers on threads of their own, on all pieces of an instance or on those of a task.
//! Source: [H11]
ghost use Rattle.std.specs.Prelude.{◌≡◌, ◌≤◌, List, None, false, true, min, IfOk, IfNone};
ghost use Rattle.pb_inst.specs.declared.limits.TheConstants.{MAX_WORKERS};
ghost use Rattle.pb_workers.specs.Dealing.{AreDealtWork, AreNamesOf};
ghost use Rattle.pb_workers.specs.Parts.{IsSettled, PartView};
ghost use Rattle.pb_cubes.specs.Solving.{HoldsLeast};

use crate::facts::facts_of;
use crate::fork::fork;
use crate::gate::Gate;
use crate::gathering::{gather, is_one_settled};
use crate::names::Names;
use crate::note_share::Correspondence;
use crate::task::{Task, claims_pieces};
use crate::working::SearchWorkers;
use pb_board::Board;
use pb_clique::form_to_search;
use pb_cubes::Pieces;
use pb_inst::{Best, Instance, Memory, Workers};
use pb_notes::Notes;
use pb_search::SearchTables;
use std::alloc::Global;
use std::thread::Threads;

/// What workers did with the pieces that they were dealt.
#[derive(Drop)]
pub(crate) struct Dealt<'i> {
    /// The first of the assignments that they found.
    pub(crate) best: Best<'i>,
    /// The pieces of a task, as they name them; none without a task.
    pub(crate) names: Names,
    /// Whether the search of some piece was cut: by its budget, or in a race since another worker settled the whole.
    pub(crate) cut: bool,
    /// Whether one of the workers went through the whole.
    pub(crate) is_settled: bool,
}

/// Searches the pieces that the task is dealt or claims, and without a task all pieces. The workers, numbered from 0, run on threads of
/// their own where the system gives them. A worker beyond the number of pieces that are dealt is not started: it might get none, and
/// yet take memory for a search of its own. Asks for pieces over the instance's variables.
pub(crate) fn work_together<'i, R: Threads + Sync, N: Notes + Sync, G: Gate + Sync>(
    rt: &R,
    alloc: Global,
    inst: &'i Instance,
    pieces: &'i Pieces,
    workers: Workers,
    notes: Option<&Correspondence<'_, N>>,
    gate: &G,
    task: Option<Task>,
    nodes: Option<u64>,
    is_race: bool,
) -> Result<Dealt<'i>, Memory>
    requires { pieces.now.vars ≡ inst.now.vars }
    ensures same_instance { IfOk result (λ dealt. dealt.best.problem ≡ inst.now) }
    ensures work { IfOk result (λ dealt. (parts : List PartView) × AreDealtWork inst.now pieces.now task nodes is_race parts dealt.best.held dealt.cut × AreNamesOf task parts dealt.names.done.items dealt.names.cut.items) }
    ensures least { IfOk result (λ dealt. task ≡ None → dealt.cut ≡ false → HoldsLeast inst.now dealt.best.held) }
    ensures settled { IfOk result (λ dealt. dealt.is_settled ≡ true → IsSettled pieces.now dealt.best) }
    ensures no_budget { is_race ≡ false → IfNone nodes (IfOk result (λ dealt. dealt.cut ≡ false)) }
{
    let mut best = Best::none(alloc, inst)?;
    let normal = form_to_search(alloc, inst, nodes)?;
    let tables = SearchTables::new(alloc, inst, &normal, pieces)?;
    let dealt = dealt_pieces(&task, pieces.len());
    let mut names = Names::with_room(alloc, &task, most_named(&task, pieces.len()))?;
    let workers = workers_with_a_piece(workers, dealt);
    let (board, seat) = Board::new(alloc, workers, inst.vars())?;
    let set = SearchWorkers::new(
        inst, pieces, &tables, &board, notes, gate, task, nodes, is_race,
    );
    let (parts, seat) = fork(rt, alloc, &set, seat, 0)?;
    let cut = gather(&mut best, &parts);
    // The proof learns by this call that what is held is a solution, so what some part did is done by the first of all parts.
    facts_of(&best);
    let is_settled = is_one_settled(&parts);
    names.take(&task, &parts)?;
    drop(parts);
    board.close(seat);
    Ok(Dealt {
        best,
        names,
        cut,
        is_settled,
    })
}

/// How many of `pieces` pieces are dealt, and 1 where there are none, since there is at least one worker.
fn dealt_pieces(task: &Option<Task>, pieces: u32) -> u32
    ensures { 1 ≤ result }
{
    match task {
        Some(task) => task.share_of(pieces).max(1),
        None => pieces.max(1),
    }
}

/// The most pieces that may be named.
fn most_named(task: &Option<Task>, pieces: u32) -> u32 {
    if claims_pieces(task) {
        pieces
    } else {
        dealt_pieces(task, pieces)
    }
}

/// As many workers as are asked for, and no more than there are pieces.
fn workers_with_a_piece(asked: Workers, pieces: u32) -> Workers
    requires { 1 ≤ pieces }
    ensures fewest { result ≡ min asked pieces }
    ensures in_range { (1 ≤ result) × (result ≤ MAX_WORKERS) }
{
    match Workers::new(asked.get().min(pieces)) {
        Ok(fewest) => fewest,
        Err(_) => asked,
    }
}

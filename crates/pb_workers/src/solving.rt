//! Solving with many workers, which claim pieces and lend each other what they found.
ghost use Rattle.std.specs.Prelude.{◌≡◌, List, false, All, IfOk, IfNone, IfSome};
ghost use Rattle.pb_workers.specs.Parts.{IsAnswerOf, KeepsBudget, PartView};
ghost use Rattle.pb_cubes.specs.Solving.{HoldsLeast};

use crate::gate::Gate;
use crate::note_share::{Correspondence, NoNotes};
use crate::racing::race;
use crate::together::{Dealt, work_together};
use pb_cubes::Pieces;
use pb_inst::{Best, Instance, Memory, Workers};
use std::alloc::Global;
use std::thread::Threads;
use thiserror::Error;

/// Why an instance was not solved.
#[derive(Clone, Copy, Debug, PartialEq, Eq, Error)]
pub enum SolveFault {
    /// The memory that the call needs was refused.
    #[error("out of memory")]
    Memory,
}

impl From<Memory> for SolveFault {
    fn from(_: Memory) -> SolveFault {
        SolveFault::Memory
    }
}

/// What the workers found. Where no piece was cut, that is the least assignment, or none where nothing is feasible. The parts
/// behind it are dropped when the call ends, since an answer that carried them would hold the number of every piece.
#[derive(Drop)]
pub struct Answer<'i> {
    /// The best assignment that was found, which is feasible.
    pub best: Best<'i>,
    /// Whether the search of some piece was cut by its budget; then there may be a better assignment.
    pub cut: bool,
}

/// Finds the least assignment, or none where nothing is feasible. Each piece is searched with at most `nodes` decisions, where
/// a budget is given: a piece that would need more is cut, and then the answer is the best that was found. The workers,
/// numbered from 0, run on threads of their own where the system gives them; else some of them run one after the other, and
/// their answer is the same. A worker beyond the number of pieces is not started: it would get none, and yet take memory for a
/// search of its own, and the run would end where that is refused. Asks for pieces over the instance's variables.
pub fn solve<'i, R: Threads + Sync, G: Gate + Sync>(
    rt: &R,
    alloc: Global,
    inst: &'i Instance,
    pieces: &'i Pieces,
    workers: Workers,
    gate: &G,
    nodes: Option<u64>,
) -> Result<Answer<'i>, SolveFault>
    requires { pieces.now.vars ≡ inst.now.vars }
    ensures same_instance { IfOk result (λ answer. answer.best.problem ≡ inst.now) }
    ensures least { IfOk result (λ answer. answer.cut ≡ false → HoldsLeast inst.now answer.best.held) }
    ensures no_budget { IfNone nodes (IfOk result (λ answer. answer.cut ≡ false)) }
    ensures parts { IfOk result (λ answer. (parts : List PartView) × IsAnswerOf inst.now pieces.now parts answer.best.held answer.cut × IfSome nodes (λ budget. All (KeepsBudget budget) parts)) }
{
    let Some(_) = nodes else {
        return race(rt, alloc, inst, pieces, workers, gate);
    };
    let no_notes = None::<&Correspondence<'_, NoNotes>>;
    let dealt = work_together(
        rt, alloc, inst, pieces, workers, no_notes, gate, None, nodes, false,
    )?;
    let Dealt {
        best,
        names: _,
        cut,
        is_settled: _,
    } = dealt;
    Ok(Answer { best, cut })
}

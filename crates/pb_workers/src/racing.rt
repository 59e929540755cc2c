//! Solving without a budget: the first worker stays with the whole, the others search the pieces, and who is done first ends the
//! search of all.
//! Source: [GS01]
ghost use Rattle.std.specs.Prelude.{◌≡◌, List, false, IfOk};
ghost use Rattle.pb_cubes.specs.Solving.{HoldsLeast};
ghost use Rattle.pb_workers.specs.Parts.{IsAnswerOf, IsSettled, PartView};

use crate::alone::solve_from;
use crate::facts::facts_of;
use crate::gate::Gate;
use crate::note_share::{Correspondence, NoNotes};
use crate::solving::{Answer, SolveFault};
use crate::together::{Dealt, work_together};
use pb_cubes::Pieces;
use pb_inst::{Best, Instance, Workers};
use std::alloc::Global;
use std::thread::Threads;

/// Finds the least assignment, or none where nothing is feasible, as `solve` does without a budget. Asks for pieces over the
/// instance's variables. Fails where memory is refused.
pub(crate) fn race<'i, R: Threads + Sync, G: Gate + Sync>(
    rt: &R,
    alloc: Global,
    inst: &'i Instance,
    pieces: &'i Pieces,
    workers: Workers,
    gate: &G,
) -> Result<Answer<'i>, SolveFault>
    requires { pieces.now.vars ≡ inst.now.vars }
    ensures same_instance { IfOk result (λ answer. answer.best.problem ≡ inst.now) }
    ensures uncut { IfOk result (λ answer. answer.cut ≡ false) }
    ensures least { IfOk result (λ answer. HoldsLeast inst.now answer.best.held) }
    ensures parts { IfOk result (λ answer. (parts : List PartView) × IsAnswerOf inst.now pieces.now parts answer.best.held answer.cut) }
{
    let no_notes = None::<&Correspondence<'_, NoNotes>>;
    let dealt = work_together(
        rt, alloc, inst, pieces, workers, no_notes, gate, None, None, true,
    )?;
    let Dealt {
        best,
        names: _,
        cut,
        is_settled,
    } = dealt;
    if !cut {
        return Ok(Answer { best, cut });
    }
    if is_settled {
        return Ok(settled_answer(best, pieces));
    }
    // No run comes here: a worker leaves a piece only where another one settled the whole. But nothing is promised of the board's
    // signal, so what is left is searched all the same.
    solve_from(alloc, inst, pieces, best, None)
}

/// The answer where each piece is done.
fn settled_answer<'i>(best: Best<'i>, pieces: &Pieces) -> Answer<'i>
    requires { IsSettled pieces.now best }
    ensures same_instance { result.best.problem ≡ best.entry.problem }
    ensures uncut { result.cut ≡ false }
    ensures least { HoldsLeast best.entry.problem result.best.held }
    ensures parts { (parts : List PartView) × IsAnswerOf best.entry.problem pieces.now parts result.best.held false }
{
    facts_of(&best);
    let _ = pieces;
    Answer { best, cut: false }
}

//! Solving by one search, on the caller's own thread.
ghost use Rattle.std.specs.Prelude.{◌≡◌, ◌+◌, List, false, length, All, IfOk, IfNone, IfSome};
ghost use Rattle.pb_workers.specs.Parts.{AreSearched, IsAnswerOf, KeepsBudget, PartView};
ghost use Rattle.pb_cubes.specs.Solving.{HoldsLeast};

use crate::facts::facts_of;
use crate::piece::search_piece;
use crate::solving::{Answer, SolveFault};
use pb_clique::form_to_search;
use pb_cubes::Pieces;
use pb_inst::{Best, Instance};
use pb_search::{Alone, LONG_TURNS, Outcome, Search};
use std::alloc::Global;

/// Finds the least assignment, or none where nothing is feasible, as `solve` does with one worker. One search goes through the
/// pieces in order, and starts no thread. Each piece is searched with at most `nodes` decisions, where a budget is given. Asks
/// for pieces over the instance's variables. Fails where memory is refused.
pub fn solve_alone<'i>(
    alloc: Global,
    inst: &'i Instance,
    pieces: &Pieces,
    nodes: Option<u64>,
) -> Result<Answer<'i>, SolveFault>
    requires { pieces.now.vars ≡ inst.now.vars }
    ensures same_instance { IfOk result (λ answer. answer.best.problem ≡ inst.now) }
    ensures least { IfOk result (λ answer. answer.cut ≡ false → HoldsLeast inst.now answer.best.held) }
    ensures no_budget { IfNone nodes (IfOk result (λ answer. answer.cut ≡ false)) }
    ensures parts { IfOk result (λ answer. (parts : List PartView) × IsAnswerOf inst.now pieces.now parts answer.best.held answer.cut × IfSome nodes (λ budget. All (KeepsBudget budget) parts)) }
{
    let best = Best::none(alloc, inst)?;
    solve_from(alloc, inst, pieces, best, nodes)
}

/// Solves as `solve_alone` does, where an assignment may be held already.
pub(crate) fn solve_from<'i>(
    alloc: Global,
    inst: &'i Instance,
    pieces: &Pieces,
    mut best: Best<'i>,
    nodes: Option<u64>,
) -> Result<Answer<'i>, SolveFault>
    requires pieces { pieces.now.vars ≡ inst.now.vars }
    requires same_instance { best.problem ≡ inst.now }
    ensures same_instance { IfOk result (λ answer. answer.best.problem ≡ inst.now) }
    ensures least { IfOk result (λ answer. answer.cut ≡ false → HoldsLeast inst.now answer.best.held) }
    ensures no_budget { IfNone nodes (IfOk result (λ answer. answer.cut ≡ false)) }
    ensures parts { IfOk result (λ answer. (parts : List PartView) × IsAnswerOf inst.now pieces.now parts answer.best.held answer.cut × IfSome nodes (λ budget. All (KeepsBudget budget) parts)) }
{
    let normal = form_to_search(alloc, inst, nodes)?;
    let mut search = Search::new(alloc, inst, &normal, pieces)?;
    search.begin(&mut best, &mut Alone, LONG_TURNS, nodes);
    let cut = search_all(&mut search, pieces.len(), &mut best, nodes);
    Ok(Answer { best, cut })
}

/// Searches all pieces in order, each within the budget, and answers whether one was cut.
fn search_all(search: &mut Search<'_>, count: u32, best: &mut Best<'_>, nodes: Option<u64>) -> bool
    requires count { count ≡ length search.old.division.cubes + 1 }
    requires same_instance { best.old.problem ≡ search.old.division.problem }
    ensures same_instance { best.new.problem ≡ best.old.problem }
    ensures least { result ≡ false → HoldsLeast best.old.problem best.new.held }
    ensures searched { AreSearched search.old.division count nodes best.new.held result }
    ensures no_budget { IfNone nodes (result ≡ false) }
{
    let mut cut = false;
    for piece in 0..count {
        let outcome = search_piece(search, piece, best, &mut Alone, nodes);
        // The proof learns by this call that what is held is a solution, so a piece that is done stays done.
        facts_of(best);
        cut |= outcome == Outcome::Cut;
    }
    cut
}

//! The work that is done where the search stands at its root.

ghost use Rattle.std.specs.Prelude.{◌≡◌, false, IfSome};
ghost use Rattle.pb_engine.specs.Soundness.{IsSoundTrail};
ghost use Rattle.pb_prune.specs.Subtree.{IsEngineOf, IsOpenOnOneSide};
ghost use Rattle.pb_control.specs.Budget.{IsLeftOf};
ghost use Rattle.pb_subtree.specs.SearchState.{SameBranchesAndRoom};

use crate::probing::find_failed;
use crate::search_state::SearchState;
use pb_control::{Pruning, RootWork};
use pb_engine::{Coefficient, EngineAt};
use pb_inst::{Best, Lit, Number};

/// Works at the root, where the search stands there. Gives a literal whose negation can lead to nothing better, or none where
/// none was found. Its probes are decisions. Once ties alone are left there is nothing to work for.
pub fn work_at_root<C: Coefficient>(
    state: &mut SearchState<C>,
    best: &Best<'_>,
    pruning: Pruning,
    bound: Option<Number>,
    left: &mut Option<u64>,
) -> Option<Lit>
    requires engine { IsEngineOf best.now.problem state.old.engine }
    requires sound { IsSoundTrail state.old.engine }
    requires no_conflict { state.old.engine.conflict ≡ false }
    ensures found { IfSome result (IsOpenOnOneSide best.now.problem state.new.engine best.now.held) }
    ensures engine { state.new.engine ≡ state.old.engine }
    ensures beside { SameBranchesAndRoom state.old state.new }
    ensures budget { IsLeftOf left.old left.new }
{
    let work = &mut state.root_work;
    if !work.is_at_root(&state.branches) {
        return None;
    }
    note_root_bound(work, &mut state.engine, bound);
    let (length, cost) = (state.engine.trail_len(), best.cost());
    if !work.is_round_due(pruning, length, cost) {
        return None;
    }
    let found = find_failed(&mut state.engine, work, best, left);
    // A literal that was found makes the trail longer, so a round is due again in any case.
    if found.is_none() {
        work.end_round(length, cost);
    }
    found
}

/// Notes the bound that was taken at the root; where none was, that of disjoint rows once, since a root with a bound of the best
/// cost has nothing but ties left.
fn note_root_bound<C: Coefficient>(
    work: &mut RootWork,
    engine: &mut EngineAt<C>,
    bound: Option<Number>,
)
    ensures engine { engine.new ≡ engine.old }
    ensures work { work.new ≡ work.old }
{
    let taken = if bound.is_none() && !work.has_root_bound() {
        Some(engine.bound())
    } else {
        bound
    };
    work.note_root_bound(taken);
}

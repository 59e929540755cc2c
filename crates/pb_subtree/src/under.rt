//! The search under the literals of a cube.

ghost use Rattle.std.specs.Prelude.{◌≡◌, ◌⊎◌, ◌≤◌, ◌++◌, false, List, Bool, All, IsSomeAnd};
ghost use Rattle.pb_prune.specs.Held.{IsImprovement};
ghost use Rattle.pb_prune.specs.Solutions.{SatisfiesUnder};
ghost use Rattle.pb_subtree.specs.Ended.{IsEnded};
ghost use Rattle.pb_subtree.specs.SearchState.{IsBrokenOff, IsStateOf};

use crate::Share;
use crate::incumbent::borrow;
use crate::node::search_subtree;
use crate::outcome::Outcome;
use crate::root::stand_below;
use crate::run::Run;
use crate::search_state::SearchState;
use pb_control::Goal;
use pb_engine::{Coefficient, Step};
use pb_inst::{Best, Lit};

/// Searches all solutions of the state's constraints under the assumption that the literals of the root and of the cube are true.
/// It stops where it would need one decision more than are left, or any decision once the goal is met, or where it was about to
/// flip a decision as often as `turns` says, if that is given; then it also stops where the share says that it is over.
pub fn search_under<C: Coefficient, S: Share>(
    state: &mut SearchState<C>,
    root: &[Lit],
    cube: &[Lit],
    best: &mut Best<'_>,
    share: &mut S,
    goal: Goal,
    turns: Option<u32>,
    left: &mut Option<u64>,
) -> Outcome
    requires state { IsStateOf best.old.problem state.old }
    requires root { All (λ l. l.var ≤ state.old.engine.vars) root.now }
    requires variables { All (λ l. l.var ≤ state.old.engine.vars) cube.now }
    ensures searched { result ≡ Outcome.Whole → (a : List Bool) → SatisfiesUnder state.old.engine (root.now ++ cube.now) a → ¬ IsImprovement best.old.problem a best.new.held }
    ensures own { S.lends share.old ≡ false → (best.new ≡ best.old) ⊎ IsSomeAnd best.new.held (λ s. SatisfiesUnder state.old.engine (root.now ++ cube.now) s.assignment) }
    ensures broken_off { result ≡ Outcome.Cut → IsBrokenOff best.old.problem state.old.engine (root.now ++ cube.now) state.new best.new.held }
    ensures ended { IsEnded S.keeps S.lends share.old share.new goal turns state.old state.new best.old best.new left.old left.new result }
{
    // Before the first bound is compared, because what another piece found may close this one at its root.
    borrow(&mut state.candidate, best, share);
    state.branches.clear();
    if stand_below(&mut state.engine, root, cube) == Step::Conflict {
        return Outcome::Whole;
    }
    let mut run = Run::begin(best, *left);
    let outcome = search_subtree(state, best, share, goal, turns, &mut run);
    *left = run.left;
    outcome
}

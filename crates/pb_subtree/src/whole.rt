//! The search of the whole, which begins before that of its pieces.

ghost use Rattle.std.specs.Prelude.{◌≡◌, ◌≤◌, [], List, Bool, All, None, Some, ℕ, vec_capacity};
ghost use Rattle.pb_inst.specs.Cubes.{MakesTrue};
ghost use Rattle.pb_control.specs.declared.goal.Goal.TheVariants.{Least};
ghost use Rattle.pb_prune.specs.Held.{IsImprovement};
ghost use Rattle.pb_prune.specs.Solutions.{Satisfies, SatisfiesUnder};
ghost use Rattle.pb_subtree.specs.Ended.{IsEnded};
ghost use Rattle.pb_subtree.specs.Paths.{LiesOpen};
ghost use Rattle.pb_subtree.specs.SearchState.{IsStateOf};

use crate::Share;
use crate::outcome::Outcome;
use crate::search_state::SearchState;
use crate::under::search_under;
use pb_control::{Branch, Goal};
use pb_engine::Coefficient;
use pb_inst::{Best, Lit};

/// Begins the search of all solutions below the literals of the root, and stops where it was about to flip a decision as often as
/// `turns` says. Then it adds to them the literals that are fixed for good: each solution that comes before the best one makes them
/// true. No more are added than there is room for, so that it takes no memory. Asks for literals that each solution before the best
/// one makes true.
pub fn begin_whole<C: Coefficient, S: Share>(
    state: &mut SearchState<C>,
    root: &mut Vec<Lit>,
    best: &mut Best<'_>,
    share: &mut S,
    turns: u32,
) -> Outcome
    requires state { IsStateOf best.old.problem state.old }
    requires variables { All (λ l. l.var ≤ state.old.engine.vars) root.old.items }
    requires root { (a : List Bool) → SatisfiesUnder state.old.engine [] a → IsImprovement best.old.problem a best.old.held → MakesTrue a root.old.items }
    ensures searched { result ≡ Outcome.Whole → (a : List Bool) → SatisfiesUnder state.old.engine [] a → ¬ IsImprovement best.old.problem a best.new.held }
    ensures root { (a : List Bool) → SatisfiesUnder state.old.engine [] a → IsImprovement best.old.problem a best.new.held → MakesTrue a root.new.items }
    ensures variables { All (λ l. l.var ≤ state.old.engine.vars) root.new.items }
    ensures same_room { vec_capacity root.new ≡ vec_capacity root.old }
    ensures ended { IsEnded S.keeps S.lends share.old share.new Least (Some turns) state.old state.new best.old best.new None None result }
{
    let mut left = None;
    let outcome = search_under(
        state,
        root,
        &[],
        best,
        share,
        Goal::Least,
        Some(turns),
        &mut left,
    );
    if outcome == Outcome::Cut {
        note_fixed(&state.branches, root);
    }
    outcome
}

/// Adds the literals of the decisions, from the first on, that have no other value to try, as many as there is room for.
fn note_fixed(path: &[Branch], root: &mut Vec<Lit>)
    ensures fixed { (a : List Bool) → LiesOpen a path.now → MakesTrue a root.old.items → MakesTrue a root.new.items }
    ensures variables { (n : ℕ) → All (λ b. b.lit.var ≤ n) path.now → All (λ l. l.var ≤ n) root.old.items → All (λ l. l.var ≤ n) root.new.items }
    ensures same_room { vec_capacity root.new ≡ vec_capacity root.old }
{
    let room = root.capacity();
    for branch in path {
        if !branch.flipped || root.len() >= room {
            return;
        }
        root.push_reserved(branch.lit);
    }
}

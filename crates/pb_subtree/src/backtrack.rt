//! Back to the last decision on the trail whose other value is still to be tried.
//! Source: [DLL62]

ghost use Rattle.std.specs.Prelude.{◌≡◌, ◌++◌, ◌∷◌, [], ◌⊎◌, false, true, List, IsTrue, IfSome, IfNone, vec_capacity};
ghost use Rattle.pb_inst.specs.Literal.{Literal};
ghost use Rattle.pb_engine.specs.EngineState.{EngineState};
ghost use Rattle.pb_subtree.specs.Paths.{IsOtherValue};
ghost use Rattle.pb_prune.specs.Solutions.{SameConstraints};
ghost use Rattle.pb_prune.specs.AgreedPrefix.{KnowsHeldPrefix};
ghost use Rattle.pb_prune.specs.Subtree.{IsClosed, IsEngineOf};
ghost use Rattle.pb_engine.specs.Free.{IsFree};
ghost use Rattle.pb_subtree.specs.Nodes.{IsBackOnPath, IsOnPath};
ghost use Rattle.pb_subtree.specs.SearchState.{IsAtPath, IsAtSomePath, IsLeaving, IsNext, IsSearched, LeavesFewer};

use crate::search_state::SearchState;
use pb_control::Branch;
use pb_engine::{Coefficient, EngineAt};
use pb_inst::Best;
use pb_prune::{AgreedPrefix, is_closed_since};

/// Takes back the last decision, and gives it; none where there is none.
pub fn undo_decision<C: Coefficient>(
    engine: &mut EngineAt<C>,
    path: &mut Vec<Branch>,
    best: &Best<'_>,
    agreed: &mut AgreedPrefix,
) -> Option<Branch>
    requires at_path { IsAtSomePath engine.old path.old.items }
    requires known { KnowsHeldPrefix engine.old.trail best.now.held agreed.old }
    ensures popped { IfSome result (λ b. path.old.items ≡ path.new.items ++ b ∷ []) }
    ensures free { IfSome result (λ b. IsFree engine.new b.lit) }
    ensures at_path { (root : List Literal) → IsAtPath root engine.old path.old.items → IsAtPath root engine.new path.new.items }
    ensures constraints { SameConstraints engine.old engine.new }
    ensures same_room { vec_capacity path.new ≡ vec_capacity path.old }
    ensures no_decisions { IfNone result (path.old.items ≡ []) }
    ensures known { KnowsHeldPrefix engine.new.trail best.now.held agreed.new }
{
    let branch = path.pop()?;
    let level = engine.level() - 1;
    // Before the engine forgets the literals, because the prefix is told which ones go.
    agreed.forget_from(engine, branch.lit, best);
    engine.undo_to(level);
    agreed.cut(engine);
    Some(branch)
}

/// Takes back the decisions up to the last one whose other value is still to be tried, and gives the decision for that
/// value; none where there is none.
pub fn backtrack<C: Coefficient>(
    state: &mut SearchState<C>,
    best: &Best<'_>,
    agreed: &mut AgreedPrefix,
) -> Option<Branch>
    requires { IsOnPath best.now.problem state.old best.now.held agreed.old }
    ensures next { IfSome result (λ b. (start : EngineState) → IsLeaving best.now.problem start state.old best.now.held → IsNext best.now.problem start state.new b best.now.held) }
    ensures fewer { IfSome result (λ b. LeavesFewer best.now.problem state.old state.new b) }
    ensures finished { IfNone result ((start : EngineState) → IsLeaving best.now.problem start state.old best.now.held → IsSearched best.now.problem start best.now.held) }
    ensures back { IsBackOnPath best.now.problem state.old state.new best.now.held agreed.new }
{
    while let Some(branch) = undo_decision(&mut state.engine, &mut state.branches, best, agreed) {
        if !is_spent(&mut state.engine, &branch, best, agreed) {
            return Some(other_value(&branch));
        }
    }
    None
}

/// Whether nothing is left to try at a branch whose decision was taken back: both values were tried, or no completion of its
/// trail comes before the best assignment any more, since that may have improved below the first value.
fn is_spent<C: Coefficient>(
    engine: &mut EngineAt<C>,
    branch: &Branch,
    best: &Best<'_>,
    agreed: &mut AgreedPrefix,
) -> bool
    requires engine { IsEngineOf best.now.problem engine.old }
    requires known { KnowsHeldPrefix engine.old.trail best.now.held agreed.old }
    ensures spent { IsTrue result → (branch.now.flipped ≡ true) ⊎ IsClosed best.now.problem engine.old best.now.held }
    ensures fresh { result ≡ false → branch.now.flipped ≡ false }
    ensures unchanged { engine.new ≡ engine.old }
    ensures known { KnowsHeldPrefix engine.old.trail best.now.held agreed.new }
{
    if branch.flipped {
        return true;
    }
    is_closed_since(engine, branch.bound, best, agreed)
}

/// The decision for the other value. The trail before it is the same again, so bound and hints are kept.
fn other_value(branch: &Branch) -> Branch
    ensures { IsOtherValue branch.now result }
{
    Branch {
        lit: branch.lit.negate(),
        flipped: true,
        bound: branch.bound,
        hints: branch.hints,
    }
}

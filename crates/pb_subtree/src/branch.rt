//! How a decision of the search is made.

ghost use Rattle.std.specs.Prelude.{◌≡◌, ◌≢◌, ◌++◌, ◌∷◌, [], ◌≤◌, List, length, vec_capacity, Some};
ghost use Rattle.pb_inst.specs.Literal.{Literal};
ghost use Rattle.pb_prune.specs.Solutions.{SameConstraints};
ghost use Rattle.pb_engine.specs.Free.{IsFree};
ghost use Rattle.pb_subtree.specs.SearchState.{IsAtPath, IsAtSomePath};
ghost use Rattle.pb_control.specs.Budget.{one_more};

use pb_control::{Branch, count_down};
use pb_engine::{Coefficient, EngineAt};

/// Adds a decision to the path, assumes its literal, and takes one off what is left of the budget.
pub fn decide<C: Coefficient>(
    engine: &mut EngineAt<C>,
    path: &mut Vec<Branch>,
    branch: Branch,
    left: &mut Option<u64>,
)
    requires at_path { IsAtSomePath engine.old path.old.items }
    requires free { IsFree engine.old branch.lit }
    requires room { engine.old.vars ≤ vec_capacity path.old }
    requires some_left { left.old ≢ Some 0 }
    ensures added { path.new.items ≡ path.old.items ++ branch ∷ [] }
    ensures few { length path.new.items ≤ engine.old.vars }
    ensures at_path { (root : List Literal) → IsAtPath root engine.old path.old.items → IsAtPath root engine.new path.new.items }
    ensures constraints { SameConstraints engine.old engine.new }
    ensures same_room { vec_capacity path.new ≡ vec_capacity path.old }
    ensures longer { engine.new.trail ≡ engine.old.trail ++ branch.lit ∷ [] }
    ensures counted { left.old ≡ one_more left.new }
{
    engine.assume(branch.lit);
    settle(engine, branch.flipped);
    count_down(left);
    // No more than one decision for each variable, so there is room.
    path.push_reserved(branch);
}

/// Tells the engine where nothing is left to try in place of the last decision, so that it may improve multipliers beside the
/// root's trail.
fn settle<C: Coefficient>(engine: &mut EngineAt<C>, is_settled: bool)
    ensures { engine.new ≡ engine.old }
{
    if is_settled {
        engine.settle_last();
    }
}

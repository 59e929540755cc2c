//! The steps of a dive: down by a decision, and back to one that can be flipped.

ghost use Rattle.std.specs.Prelude.{◌≡◌, ◌≢◌, ◌<◌, ◌≤◌, ◌+◌, false, true, length, Some, IfSome, IfNone, vec_len};
ghost use Rattle.pb_inst.specs.declared.limits.TheConstants.{MAX_VARS};
ghost use Rattle.pb_engine.specs.EngineState.{EngineState};
ghost use Rattle.pb_engine.specs.Free.{IsFree};
ghost use Rattle.pb_engine.specs.Soundness.{IsFull, IsSolved, IsSoundTrail};
ghost use Rattle.pb_control.specs.Budget.{one_more};
ghost use Rattle.pb_dive.specs.Dives.{IsTakenBackTo, LeadsBack};

use crate::course::Way;
use crate::path::{DiveBranch, DivePath};
use pb_control::count_down;
use pb_engine::{Coefficient, EngineAt, Step, is_free};
use pb_inst::{Lit, Number};
use pb_order::Order;

/// How many steps the method makes for each plan after the first one. They go on from the last point, so few serve. Chosen by
/// hand.
const STEPS: u32 = 50;

/// Assumes the literal, which takes one decision off what is left, and adds what follows.
pub fn plunge<C: Coefficient>(engine: &mut EngineAt<C>, lit: Lit, left: &mut Option<u64>) -> Step
    requires sound { IsSoundTrail engine.old }
    requires free { IsFree engine.old lit }
    requires some_left { left.old ≢ Some 0 }
    ensures back { (start : EngineState) → LeadsBack start engine.old → LeadsBack start engine.new }
    ensures sound { IsSoundTrail engine.new }
    ensures same_variables { engine.new.vars ≡ engine.old.vars }
    ensures no_conflict { result ≡ Step.Fixed → engine.new.conflict ≡ false }
    ensures solved { result ≡ Step.Fixed → IsFull engine.new → IsSolved engine.new }
    ensures one_level { length engine.new.levels ≡ length engine.old.levels + 1 }
    ensures counted { left.old ≡ one_more left.new }
{
    engine.assume(lit);
    count_down(left);
    engine.propagate()
}

/// Takes decisions back to the last one that led to that, as far as the path knows, and was not flipped yet, and gives its other
/// value as the next decision; none where there is no such decision, or the dive took too long.
pub fn turn<C: Coefficient>(
    engine: &mut EngineAt<C>,
    path: &mut DivePath,
    order: &mut Order,
    floor: u32,
) -> Option<DiveBranch>
    requires sound { IsSoundTrail engine.old }
    ensures taken_back { IsTakenBackTo floor engine.old engine.new }
    ensures free { IfSome result (λ b. IsFree engine.new b.lit) }
    ensures fewer { IfSome result (λ _. vec_len path.new.decisions < vec_len path.old.decisions) }
{
    if !path.outlasts_conflict() {
        return None;
    }
    let vars = engine.vars();
    while let Some(last) = path.pop() {
        if !take_back_last(engine, floor) {
            return None;
        }
        // So that the order gives again what it gave above this decision.
        order.return_to(last.left.min(vars));
        // A decision that had no part in it is taken back too: a dive closes nothing, so nothing is lost with it. The path promises
        // nothing, so the engine is asked whether the literal has no value.
        let is_to_blame = path.take_blame(last.lit.var());
        if is_to_blame && !last.flipped && is_free(engine, vars, last.lit) {
            return Some(turned(last));
        }
    }
    None
}

/// The decision to make next where all is to cost less than `cost`, if that is given: `branch` where the bound is below it, and else
/// the other value of an earlier decision, as after a conflict. None where nothing is left to try.
pub fn next_below<C: Coefficient>(
    engine: &mut EngineAt<C>,
    path: &mut DivePath,
    order: &mut Order,
    branch: DiveBranch,
    floor: u32,
    cost: Option<Number>,
) -> Option<DiveBranch>
    requires sound { IsSoundTrail engine.old }
    requires free { IsFree engine.old branch.lit }
    ensures taken_back { IsTakenBackTo floor engine.old engine.new }
    ensures free { IfSome result (λ b. IsFree engine.new b.lit) }
{
    let mut branch = branch;
    while is_beyond(engine, cost) {
        path.forget_blame();
        branch = turn(engine, path, order, floor)?;
    }
    Some(branch)
}

/// Whether every completion of the trail costs as much as `cost`, if that is given, by the bound of disjoint rows.
fn is_beyond<C: Coefficient>(engine: &mut EngineAt<C>, cost: Option<Number>) -> bool
    ensures { engine.new ≡ engine.old }
{
    match cost {
        Some(cost) => engine.bound() >= cost,
        None => false,
    }
}

/// The decision for the other value.
fn turned(branch: DiveBranch) -> DiveBranch
    ensures { result.lit.var ≡ branch.lit.var }
{
    DiveBranch {
        lit: branch.lit.negate(),
        flipped: true,
        ..branch
    }
}

/// Takes back the last assumption, where it is above the level. Answers whether it was.
fn take_back_last<C: Coefficient>(engine: &mut EngineAt<C>, floor: u32) -> bool
    requires sound { IsSoundTrail engine.old }
    ensures taken_back { IsTakenBackTo floor engine.old engine.new }
    ensures no_conflict { result ≡ true → engine.new.conflict ≡ false }
{
    // Levels up to the floor are the search's, so a dive leaves them alone.
    let level = engine.level();
    if level <= floor {
        return false;
    }
    engine.undo_to(level - 1);
    true
}

/// Whether the bound of the multipliers is over the limit of the dive, if it has one.
pub fn is_over_limit<C: Coefficient>(engine: &mut EngineAt<C>, path: &DivePath) -> bool
    ensures { engine.new ≡ engine.old }
{
    let Some(limit) = path.course().limit else {
        return false;
    };
    engine.bound_at_hand() > Some(limit)
}

/// Plans anew where the dive goes by a plan and that is due.
pub fn plan_again<C: Coefficient>(engine: &mut EngineAt<C>, path: &mut DivePath)
    ensures { engine.new ≡ engine.old }
{
    if path.course().way == Way::Plan && path.take_plan(free_variables(engine)) {
        engine.plan(STEPS);
    }
}

/// How many variables have no value.
pub fn free_variables<C: Coefficient>(engine: &EngineAt<C>) -> usize {
    (engine.vars() as usize).saturating_sub(engine.trail_len())
}

//! The way down: one decision after another, and back where one leads to a conflict.
//! Source: [B06]

ghost use Rattle.std.specs.Prelude.{◌≡◌, ◌≢◌, ◌≤◌, ◌+◌, false, length, Some, IfSome};
ghost use Rattle.pb_inst.specs.declared.limits.TheConstants.{MAX_VARS};
ghost use Rattle.pb_engine.specs.EngineState.{EngineState};
ghost use Rattle.pb_engine.specs.Free.{IsFree};
ghost use Rattle.pb_engine.specs.Soundness.{IsSoundTrail};
ghost use Rattle.pb_control.specs.Budget.{one_more, with_more};
ghost use Rattle.pb_dive.specs.Dives.{LeadsBack, IsGoingOn, IsTakenBackTo};

use crate::choice::next_decision;
use crate::course::{Course, Way};
use crate::path::{DiveBranch, DivePath};
use crate::steps::{free_variables, is_over_limit, next_below, plan_again, plunge, turn};
use pb_engine::{Coefficient, EngineAt, Step};
use pb_inst::Number;
use pb_order::Order;

/// How many decisions a dive makes at most, so that it ends on great instances too: below some 60,000 variables conflicts and
/// work end it sooner.
pub const MAX_DECISIONS: u64 = 4_000_000;

/// How many steps the method makes for the first plan of a dive: few, since rounding needs a rough point alone. Chosen by hand.
const FIRST_STEPS: u32 = 50;

/// How a dive goes on.
#[derive(Clone, Copy)]
pub enum Progress {
    /// This decision is next.
    Next(DiveBranch),
    /// Every variable has a value, and all constraints are met.
    Full,
    /// Nothing is left to try, or the dive took too long.
    Stuck,
}

/// What a part of a dive came to.
#[derive(Clone, Copy)]
pub struct Descent {
    pub progress: Progress,
    /// How many decisions were made.
    pub decisions: u64,
}

/// A dive on this course begins: where it goes by a plan, the first-order method makes one. Gives the first decision, or none where
/// every variable has a value.
pub fn begin_descent<C: Coefficient>(
    engine: &mut EngineAt<C>,
    path: &mut DivePath,
    order: &mut Order,
    course: Course,
) -> Option<DiveBranch>
    requires few { engine.old.vars ≤ MAX_VARS }
    requires no_conflict { engine.old.conflict ≡ false }
    ensures unchanged { engine.new ≡ engine.old }
    ensures free { IfSome result (λ b. IsFree engine.old b.lit) }
{
    path.begin(engine.vars(), free_variables(engine), course);
    if course.way == Way::Plan {
        engine.plan(FIRST_STEPS);
    }
    order.return_to(engine.vars());
    next_decision(engine, path, order, 0)
}

/// Goes down towards a full trail by at most `most` decisions, of which `first` is the next one, on the course that was begun.
/// After a conflict it flips the last decision that led to it and that it can flip, none of level `floor` or below. Where `cost` is
/// given, it compares the bound with it before each decision, since nothing that costs as much is looked for. What it assumed is left on the trail. Each decision is taken off what is left of a budget; where none
/// is left the dive is over. A dive that was not over goes on with the decision that it answers.
pub fn descend<C: Coefficient>(
    engine: &mut EngineAt<C>,
    path: &mut DivePath,
    order: &mut Order,
    first: DiveBranch,
    floor: u32,
    most: u64,
    cost: Option<Number>,
    left: &mut Option<u64>,
) -> Descent
    requires few { engine.old.vars ≤ MAX_VARS }
    requires sound { IsSoundTrail engine.old }
    requires free { IsFree engine.old first.lit }
    ensures back { (start : EngineState) → length start.levels ≡ floor → LeadsBack start engine.old → LeadsBack start engine.new }
    ensures sound { IsSoundTrail engine.new }
    ensures next { IsGoingOn engine.new result.progress }
    ensures within { result.decisions ≤ most }
    ensures counted { left.old ≡ with_more result.decisions left.new }
    ensures assumed { length engine.new.levels ≤ length engine.old.levels + result.decisions }
{
    let mut branch = first;
    for made in 0..most {
        if *left == Some(0) {
            return ended(Progress::Stuck, made);
        }
        let Some(below) = next_below(engine, path, order, branch, floor, cost) else {
            return ended(Progress::Stuck, made);
        };
        match advance(engine, path, order, below, floor, left) {
            Progress::Next(next) => branch = next,
            Progress::Full => return ended(Progress::Full, made + 1),
            Progress::Stuck => return ended(Progress::Stuck, made + 1),
        }
    }
    ended(Progress::Next(branch), most)
}

/// What the dive came to after `decisions` decisions.
fn ended(progress: Progress, decisions: u64) -> Descent
    ensures progress { result.progress ≡ progress }
    ensures decisions { result.decisions ≡ decisions }
{
    Descent {
        progress,
        decisions,
    }
}

/// Makes the decision, and takes it off what is left. Answers how the dive goes on: by the next decision, or after a conflict, or a
/// bound over the limit, by flipping an earlier one.
fn advance<C: Coefficient>(
    engine: &mut EngineAt<C>,
    path: &mut DivePath,
    order: &mut Order,
    branch: DiveBranch,
    floor: u32,
    left: &mut Option<u64>,
) -> Progress
    requires few { engine.old.vars ≤ MAX_VARS }
    requires sound { IsSoundTrail engine.old }
    requires free { IsFree engine.old branch.lit }
    requires some_left { left.old ≢ Some 0 }
    ensures back { (start : EngineState) → length start.levels ≡ floor → LeadsBack start engine.old → LeadsBack start engine.new }
    ensures sound { IsSoundTrail engine.new }
    ensures next { IsGoingOn engine.new result }
    ensures counted { left.old ≡ one_more left.new }
    ensures assumed { length engine.new.levels ≤ length engine.old.levels + 1 }
    ensures same_variables { engine.new.vars ≡ engine.old.vars }
{
    let (lit, plan, next) = (branch.lit, branch.plan, branch.next);
    let before = engine.trail_len();
    path.push(branch);
    let step = plunge(engine, lit, left);
    // Before the conflict is looked at, or else a dive from conflict to conflict would pay for nothing.
    path.charge(engine.trail_len().saturating_sub(before));
    if step == Step::Conflict || is_over_limit(engine, path) {
        return turned_back(engine, path, order, floor);
    }
    plan_again(engine, path);
    let from = path.place_after(plan, next);
    match next_decision(engine, path, order, from) {
        Some(next) => Progress::Next(next),
        None => Progress::Full,
    }
}

/// After a conflict, or a bound over the limit: how the dive goes on.
fn turned_back<C: Coefficient>(
    engine: &mut EngineAt<C>,
    path: &mut DivePath,
    order: &mut Order,
    floor: u32,
) -> Progress
    requires sound { IsSoundTrail engine.old }
    ensures taken_back { IsTakenBackTo floor engine.old engine.new }
    ensures next { IsGoingOn engine.new result }
{
    path.blame(order, engine);
    match turn(engine, path, order, floor) {
        Some(next) => Progress::Next(next),
        None => Progress::Stuck,
    }
}

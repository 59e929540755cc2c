//! Whether a subtree may be left, since its bound is not below the best cost.
//! Source: [LD60]

ghost use Rattle.std.specs.Prelude.{◌≡◌, ◌-◌, ℕ, length, IsTrue, IfSome};
ghost use Rattle.pb_engine.specs.Completion.{IsLowerBound};
ghost use Rattle.pb_engine.specs.Fixing.{IsBelowCompletions};
ghost use Rattle.pb_prune.specs.Subtree.{HasOnesWithin, IsClosed, IsEngineOf, IsNotBefore, IsOpenOnOneSide, IsTied};
ghost use Rattle.pb_prune.specs.AgreedPrefix.{KnowsPrefix, KnowsHeldPrefix};
ghost use Rattle.pb_prune.specs.Checks.{Checks};

use crate::agreed_prefix::AgreedPrefix;
use pb_control::Pruning;
use pb_engine::{Coefficient, EngineAt, settled_from};
use pb_inst::{Assignment, Best, Lit, Number};

/// What the bounds say of the subtree below the trail, and the greatest of them that was taken: none where none was.
fn check_bound<C: Coefficient>(
    engine: &mut EngineAt<C>,
    best: &Best<'_>,
    agreed: &mut AgreedPrefix,
) -> (Pruning, Option<Number>)
    requires engine { IsEngineOf best.now.problem engine.old }
    requires known { KnowsHeldPrefix engine.old.trail best.now.held agreed.old }
    ensures { Checks best.now.problem best.now.held engine.old engine.new agreed.new result.0 }
{
    let (pruning, bound) = check_rows(engine, best, agreed);
    check_multipliers(engine, best, agreed, pruning, bound)
}

/// What the bound of disjoint rows says of the subtree below the trail, and that bound: none where nothing is held.
pub fn check_rows<C: Coefficient>(
    engine: &mut EngineAt<C>,
    best: &Best<'_>,
    agreed: &mut AgreedPrefix,
) -> (Pruning, Option<Number>)
    requires engine { IsEngineOf best.now.problem engine.old }
    requires known { KnowsHeldPrefix engine.old.trail best.now.held agreed.old }
    ensures checked { Checks best.now.problem best.now.held engine.old engine.new agreed.new result.0 }
    ensures bound { IfSome result.1 (IsLowerBound engine.old.form engine.old.rows engine.old.trail) }
{
    // Where nothing is held there is nothing to compare a bound with, and taking one would go through rows for nothing. So the
    // first descent to a solution costs propagation alone, and multipliers as far as they pay, which lead it to a cheap one.
    if best.cost().is_none() {
        return (Pruning::Open, None);
    }
    let bound = engine.bound();
    (classify_bound(engine, bound, best, agreed), Some(bound))
}

/// What the bound of the multipliers says of that subtree, after what that of disjoint rows said. Of two lower bounds the greater
/// one counts; that of disjoint rows comes first, since it is at hand sooner.
pub fn check_multipliers<C: Coefficient>(
    engine: &mut EngineAt<C>,
    best: &Best<'_>,
    agreed: &mut AgreedPrefix,
    pruning: Pruning,
    bound: Option<Number>,
) -> (Pruning, Option<Number>)
    requires engine { IsEngineOf best.now.problem engine.old }
    requires closed { pruning ≡ Pruning.Closed → IsClosed best.now.problem engine.old best.now.held }
    requires tied { (var : ℕ) → pruning ≡ Pruning.Tied var → IsTied best.now.problem engine.old best.now.held var }
    requires bound { IfSome bound (IsLowerBound engine.old.form engine.old.rows engine.old.trail) }
    requires known { KnowsHeldPrefix engine.old.trail best.now.held agreed.old }
    ensures { Checks best.now.problem best.now.held engine.old engine.new agreed.new result.0 }
{
    // Where nothing is held every completion counts, so the subtree is closed only if there is none.
    let Some(bound) = bound else {
        if engine.improve_multipliers() {
            return (Pruning::Closed, None);
        }
        return (pruning, None);
    };
    if pruning == Pruning::Closed {
        return (pruning, Some(bound));
    }
    let goal = closing_bound(engine, best, agreed);
    let relaxed = engine.relaxed_bound(bound, goal);
    if relaxed <= bound {
        return (pruning, Some(bound));
    }
    (classify_bound(engine, relaxed, best, agreed), Some(relaxed))
}

/// The least bound that closes the subtree: the best cost where the order of assignments closes it at a tie, else more.
fn closing_bound<C: Coefficient>(
    engine: &EngineAt<C>,
    best: &Best<'_>,
    agreed: &mut AgreedPrefix,
) -> Number
    requires engine { IsEngineOf best.now.problem engine.now }
    requires known { KnowsHeldPrefix engine.now.trail best.now.held agreed.old }
    ensures known { KnowsHeldPrefix engine.now.trail best.now.held agreed.new }
{
    let Some(cost) = best.cost() else {
        return Number::MAX;
    };
    let Some(held) = best.assignment() else {
        return Number::MAX;
    };
    if classify_tie(engine, held, agreed) == Pruning::Closed {
        return cost;
    }
    cost.saturating_add(1)
}

/// Compares a bound of the trail's completions with the best cost. Where they are equal the order of assignments decides.
pub fn classify_bound<C: Coefficient>(
    engine: &EngineAt<C>,
    bound: Number,
    best: &Best<'_>,
    agreed: &mut AgreedPrefix,
) -> Pruning
    requires engine { IsEngineOf best.now.problem engine.now }
    requires bound { IsBelowCompletions engine.now bound }
    requires known { KnowsHeldPrefix engine.now.trail best.now.held agreed.old }
    ensures closed { result ≡ Pruning.Closed → IsClosed best.now.problem engine.now best.now.held }
    ensures tied { (var : ℕ) → result ≡ Pruning.Tied var → IsTied best.now.problem engine.now best.now.held var }
    ensures known { KnowsHeldPrefix engine.now.trail best.now.held agreed.new }
{
    let Some(cost) = best.cost() else {
        return Pruning::Open;
    };
    let Some(held) = best.assignment() else {
        return Pruning::Open;
    };
    if bound < cost {
        return Pruning::Open;
    }
    if bound > cost {
        return Pruning::Closed;
    }
    classify_tie(engine, held, agreed)
}

/// What the order of assignments says where the bound equals the cost of `held`. Of assignments of one cost the lexicographically
/// first is wanted, so that the answer is a function of the instance alone.
fn classify_tie<C: Coefficient>(
    engine: &EngineAt<C>,
    held: &Assignment,
    agreed: &mut AgreedPrefix,
) -> Pruning
    requires room { length held.now ≡ engine.now.vars }
    requires known { KnowsPrefix engine.now.trail held.now agreed.old }
    ensures closed { result ≡ Pruning.Closed → IsNotBefore engine.now.trail held.now }
    ensures tied { (var : ℕ) → result ≡ Pruning.Tied var → HasOnesWithin engine.now.trail held.now 0 (var - 1) }
    ensures known { KnowsPrefix engine.now.trail held.now agreed.new }
{
    // With zeros elsewhere the trail is the first of its completions. If that one comes after the best assignment, or is the best
    // one itself, none comes before it. So one comparison settles the subtree.
    if agreed.has_surplus(engine, held) {
        return Pruning::Closed;
    }
    let count = agreed.extend(engine, held);
    if count >= held.len() {
        return Pruning::Closed;
    }
    if held.get(count + 1) {
        return Pruning::Tied(count + 1);
    }
    Pruning::Closed
}

/// At a tie, the negation of the lowest variable that has no value and comes before the first difference, or none where each of
/// them has a value: with 1 there nothing comes before the best assignment. That the first `settled` variables have values is no
/// more than a hint.
pub fn tied_literal<C: Coefficient>(
    engine: &EngineAt<C>,
    best: &Best<'_>,
    pruning: Pruning,
    settled: u32,
) -> Option<Lit>
    requires engine { IsEngineOf best.now.problem engine.now }
    requires tied { (var : ℕ) → pruning ≡ Pruning.Tied var → IsTied best.now.problem engine.now best.now.held var }
    ensures { IfSome result (IsOpenOnOneSide best.now.problem engine.now best.now.held) }
{
    let Pruning::Tied(var) = pruning else {
        return None;
    };
    let held = best.assignment()?;
    let end = var.saturating_sub(1).min(held.len());
    let place = settled_from(engine, settled, end);
    if place >= end || held.get(place + 1) {
        return None;
    }
    let Ok(lit) = Lit::new(place + 1, false) else {
        return None;
    };
    Some(lit)
}

/// Whether by now no completion of the trail comes before the best assignment. The trail is as it was when `bound` was taken, or
/// when none was.
pub fn is_closed_since<C: Coefficient>(
    engine: &mut EngineAt<C>,
    bound: Option<Number>,
    best: &Best<'_>,
    agreed: &mut AgreedPrefix,
) -> bool
    requires engine { IsEngineOf best.now.problem engine.old }
    requires known { KnowsHeldPrefix engine.old.trail best.now.held agreed.old }
    ensures closed { IsTrue result → IsClosed best.now.problem engine.old best.now.held }
    ensures unchanged { engine.new ≡ engine.old }
    ensures known { KnowsHeldPrefix engine.old.trail best.now.held agreed.new }
{
    let Some(cost) = best.cost() else {
        return false;
    };
    // Where an earlier bound of this trail is below the best cost, asking the engine again would be in vain.
    if bound.is_some_and(|bound| bound < cost) {
        return false;
    }
    if bound.is_none() && is_tied_below(engine, best, agreed) {
        return false;
    }
    check_bound(engine, best, agreed).0 == Pruning::Closed
}

/// Whether the best assignment was found below the trail, where nothing was held before, and another one of its cost may
/// come before it.
fn is_tied_below<C: Coefficient>(
    engine: &EngineAt<C>,
    best: &Best<'_>,
    agreed: &mut AgreedPrefix,
) -> bool
    requires engine { IsEngineOf best.now.problem engine.now }
    requires known { KnowsHeldPrefix engine.now.trail best.now.held agreed.old }
    ensures known { KnowsHeldPrefix engine.now.trail best.now.held agreed.new }
{
    // A branch of the first descent keeps no bound. What this search found since then completes the trail, so no bound of
    // the trail is over the cost, and the order of assignments alone could close it. So the way back costs no more than the
    // way down, or else each of the variables would have its bound taken over rows as long as the instance.
    if agreed.has_borrowed() {
        return false;
    }
    match best.assignment() {
        Some(held) => classify_tie(engine, held, agreed) != Pruning::Closed,
        None => false,
    }
}

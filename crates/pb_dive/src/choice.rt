//! The next decision of a dive. Any variable without a value would do.

ghost use Rattle.std.specs.Prelude.{◌≡◌, ◌≤◌, false, IfSome, IfNone};
ghost use Rattle.pb_inst.specs.declared.limits.TheConstants.{MAX_VARS};
ghost use Rattle.pb_engine.specs.Free.{IsFree};
ghost use Rattle.pb_engine.specs.Soundness.{IsFull};

use crate::course::Way;
use crate::path::{DiveBranch, DivePath};
use pb_engine::{Coefficient, EngineAt, is_free, lowest_free};
use pb_inst::Lit;
use pb_order::Order;

/// The next decision, where the plan is read from the place on: a literal that the limit fixes, or one that the dive's way gives, or
/// else the lowest variable without a value, as 0; or none where each variable has one.
pub fn next_decision<C: Coefficient>(
    engine: &mut EngineAt<C>,
    path: &mut DivePath,
    order: &mut Order,
    from: usize,
) -> Option<DiveBranch>
    requires few { engine.old.vars ≤ MAX_VARS }
    requires no_conflict { engine.old.conflict ≡ false }
    ensures unchanged { engine.new ≡ engine.old }
    ensures free { IfSome result (λ b. IsFree engine.old b.lit) }
    ensures full { IfNone result (IsFull engine.old) }
{
    if let Some(lit) = fixed_within(engine, path) {
        // The limit rules out its negation.
        let flipped = true;
        return Some(DiveBranch {
            flipped,
            ..branch_of(path, order, lit, from)
        });
    }
    let given = match path.course().way {
        Way::Plan => next_planned(engine, path, order, from),
        Way::Order => next_ordered(engine, path, order, from),
    };
    if let Some(branch) = given {
        return Some(branch);
    }
    // Neither gives a free literal from here on, so no decision below reads the plan again.
    let lit = lowest_free(engine, engine.vars())?;
    Some(branch_of(path, order, lit, usize::MAX))
}

/// A literal without a value that the multipliers fix within the dive's limit, if it has one and the gap to it tells that there may
/// be another.
fn fixed_within<C: Coefficient>(engine: &mut EngineAt<C>, path: &mut DivePath) -> Option<Lit>
    requires no_conflict { engine.old.conflict ≡ false }
    ensures unchanged { engine.new ≡ engine.old }
    ensures free { IfSome result (λ l. IsFree engine.old l) }
{
    let limit = path.course().limit?;
    // The multipliers follow the trail by this, so that the gap is that of the trail as it is.
    let _bound = engine.bound_at_hand();
    let gap = engine.gap(limit);
    if !path.is_gap_new(gap) {
        return None;
    }
    let vars = engine.vars();
    if let Some(lit) = engine.fixed_at_hand(limit)
        && is_free(engine, vars, lit)
    {
        return Some(lit);
    }
    path.note_gap(gap);
    None
}

/// The first literal of the plan, from the place on, whose variable has no value; none where the plan has no such literal.
fn next_planned<C: Coefficient>(
    engine: &EngineAt<C>,
    path: &DivePath,
    order: &Order,
    from: usize,
) -> Option<DiveBranch>
    requires no_conflict { engine.now.conflict ≡ false }
    ensures free { IfSome result (λ b. IsFree engine.now b.lit) }
{
    let vars = engine.vars();
    for place in from..vars as usize {
        let lit = engine.planned(place)?;
        if is_free(engine, vars, lit) {
            return Some(branch_of(path, order, lit, place + 1));
        }
    }
    None
}

/// The first variable of the search's order that has no value, with the value that costs less by the multipliers. Those before it
/// are passed over until the dive turns.
fn next_ordered<C: Coefficient>(
    engine: &EngineAt<C>,
    path: &DivePath,
    order: &mut Order,
    from: usize,
) -> Option<DiveBranch>
    requires no_conflict { engine.now.conflict ≡ false }
    ensures free { IfSome result (λ b. IsFree engine.now b.lit) }
{
    let vars = engine.vars();
    for _ in 0..vars {
        let lit = order.first()?;
        if is_free(engine, vars, lit) {
            let cheaper = engine.cheaper_at_hand(lit);
            return Some(branch_of(path, order, cheaper, from));
        }
        order.pass();
    }
    None
}

/// The decision for the literal, behind which the plan is read from the place on.
fn branch_of(path: &DivePath, order: &Order, lit: Lit, next: usize) -> DiveBranch
    ensures { result.lit ≡ lit }
{
    DiveBranch {
        lit,
        plan: path.plan(),
        next,
        flipped: false,
        left: order.left(),
    }
}

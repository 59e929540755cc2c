//! What to decide next: by the order of activities, and where a tie is to be settled by the order of assignments.

ghost use Rattle.std.specs.Prelude.{◌≡◌, ◌≤◌, false, IfSome, IfNone, None};
ghost use Rattle.pb_inst.specs.declared.limits.TheConstants.{MAX_VARS};
ghost use Rattle.pb_engine.specs.Trail.{value_on};
ghost use Rattle.pb_engine.specs.Soundness.{IsFull};

use pb_control::{Branch, Hints, Pruning};
use pb_engine::{Coefficient, EngineAt, is_free, lowest_free, settled_from};
use pb_inst::{Lit, Number};
use pb_order::Order;

/// A decision of a variable without a value, or none where every variable has one. Any such decision is right. Where the
/// bound equals the best cost, the lowest variable up to the first difference from the best assignment comes first, with 0,
/// so that the order of assignments soon decides. Where nothing objects, variables behind that difference follow in the same way.
/// Else the literals come in their order.
pub fn next_decision<C: Coefficient>(
    engine: &EngineAt<C>,
    vars: u32,
    order: &mut Order,
    hints: Hints,
    pruning: Pruning,
    bound: Option<Number>,
    is_calm: bool,
) -> Option<Branch>
    requires variables { vars ≡ engine.now.vars }
    requires few { vars ≤ MAX_VARS }
    ensures free { IfSome result (λ b. (b.lit.var ≤ vars) × (value_on engine.now.trail b.lit.var ≡ None)) }
    ensures fresh { IfSome result (λ b. b.flipped ≡ false) }
    ensures full { IfNone result (IsFull engine.now) }
{
    // At a tie a completion that comes before the best assignment is the same as it up to this variable, where it has 0.
    // With the lowest variable decided first, and 0 first, every other value before it closes its subtree at once.
    let end = match pruning {
        Pruning::Tied(_) if is_calm => vars,
        Pruning::Tied(var) => var.min(vars),
        _ => 0,
    };
    let settled = settled_from(engine, hints.settled, end);
    let hints = Hints { settled, ..hints };
    if settled < end
        && let Ok(lit) = Lit::new(settled + 1, false)
    {
        return Some(decision(lit, bound, hints));
    }
    // The order promises nothing, so where it names no variable without a value, the lowest one is decided.
    if let Some(branch) = ordered_decision(engine, vars, order, hints, bound) {
        return Some(branch);
    }
    let lit = lowest_free(engine, vars)?;
    Some(decision(lit, bound, hints))
}

/// The decision for the first value to try of the literal's variable.
pub fn decision(lit: Lit, bound: Option<Number>, hints: Hints) -> Branch
    ensures literal { result.lit ≡ lit }
    ensures fresh { result.flipped ≡ false }
{
    Branch {
        lit,
        flipped: false,
        bound,
        hints,
    }
}

/// The first literal of the order whose variable has no value. Those before it are passed over until the search backtracks.
fn ordered_decision<C: Coefficient>(
    engine: &EngineAt<C>,
    vars: u32,
    order: &mut Order,
    hints: Hints,
    bound: Option<Number>,
) -> Option<Branch>
    requires variables { vars ≡ engine.now.vars }
    ensures free { IfSome result (λ b. (b.lit.var ≤ vars) × (value_on engine.now.trail b.lit.var ≡ None)) }
    ensures fresh { IfSome result (λ b. b.flipped ≡ false) }
{
    // Backtracking leaves the order alone, because many decisions may go before the next one is made. So what was passed over
    // below this node is taken back here.
    order.return_to(hints.left.min(vars));
    for _ in 0..vars {
        let lit = order.first()?;
        if is_free(engine, vars, lit) {
            let left = order.left();
            // The value that the multipliers make the cheaper one is the better guess, where there are any, unless the values of an
            // assignment are followed.
            let lit = if order.follows_assignment() {
                lit
            } else {
                engine.cheaper(lit)
            };
            return Some(decision(lit, bound, Hints { left, ..hints }));
        }
        order.pass();
    }
    None
}

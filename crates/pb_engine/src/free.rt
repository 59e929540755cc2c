//! Variables without a value.

ghost use Rattle.std.specs.Prelude.{◌≡◌, ◌≢◌, ◌≤◌, ◌<◌, ◌+◌, ℕ, IsTrue, IfSome, IfNone, None};
ghost use Rattle.pb_inst.specs.declared.limits.TheConstants.{MAX_VARS};
ghost use Rattle.pb_trail.specs.Trail.{value_on};
ghost use Rattle.pb_trail.specs.Soundness.{IsFull};

use crate::engine_at::EngineAt;
use pb_count::Coefficient;
use pb_inst::Lit;

/// Whether the literal's variable is one of the engine's and has no value.
pub fn is_free<C: Coefficient>(engine: &EngineAt<C>, vars: u32, lit: Lit) -> bool
    requires variables { vars ≡ engine.now.vars }
    ensures { IsTrue result → (lit.var ≤ vars) × (value_on engine.now.trail lit.var ≡ None) }
{
    if lit.var() > vars {
        return false;
    }
    engine.value(lit.var()).is_none()
}

/// The negative literal of the lowest variable without a value among the first `count`, or none where each of them has one.
pub fn lowest_free<C: Coefficient>(engine: &EngineAt<C>, count: u32) -> Option<Lit>
    requires variables { count ≤ engine.now.vars }
    requires few { count ≤ MAX_VARS }
    ensures free { IfSome result (λ l. (l.var ≤ count) × (value_on engine.now.trail l.var ≡ None)) }
    ensures full { IfNone result (count ≡ engine.now.vars → IsFull engine.now) }
{
    let settled = settled_from(engine, 0, count);
    if settled == count {
        return None;
    }
    Lit::new(settled + 1, false).ok()
}

/// How many variables come before the first one without a value, where the first `from` are passed over and those after the
/// first `end` are not looked at; where there is none, the greater of `from` and `end`.
pub fn settled_from<C: Coefficient>(engine: &EngineAt<C>, from: u32, end: u32) -> u32
    requires variables { end ≤ engine.now.vars }
    ensures free { result < end → value_on engine.now.trail (result + 1) ≡ None }
    ensures settled { (k : ℕ) → from ≤ k → k < result → value_on engine.now.trail (k + 1) ≢ None }
    ensures within { (from ≤ end → result ≤ end) × (from ≤ result) }
{
    for place in from..end {
        if engine.value(place + 1).is_none() {
            return place;
        }
    }
    from.max(end)
}

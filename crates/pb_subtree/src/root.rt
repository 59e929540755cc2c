//! The root of a search: the literals of a cube are assumed.

ghost use Rattle.std.specs.Prelude.{◌≡◌, ◌≤◌, ◌↔◌, ◌++◌, ◌∷◌, [], None, true, false, List, Bool, All};
ghost use Rattle.pb_inst.specs.Cubes.{MakesTrue};
ghost use Rattle.pb_inst.specs.Meaning.{literal_value};
ghost use Rattle.pb_engine.specs.Trail.{value_on};
ghost use Rattle.pb_engine.specs.Soundness.{assumptions, IsSoundTrail};
ghost use Rattle.pb_prune.specs.Solutions.{SameConstraints, Satisfies};

use pb_engine::{Coefficient, EngineAt, Step};
use pb_inst::Lit;

/// Assumes a literal that is not on the trail yet. A conflict means that it cannot be true with the other assumptions.
fn assume_literal<C: Coefficient>(engine: &mut EngineAt<C>, lit: Lit) -> Step
    requires variable { lit.var ≤ engine.old.vars }
    requires no_conflict { engine.old.conflict ≡ false }
    ensures constraints { SameConstraints engine.old engine.new }
    ensures sound { IsSoundTrail engine.new }
    ensures fixed { result ≡ Step.Fixed → engine.new.conflict ≡ false }
    ensures kept { result ≡ Step.Fixed → (a : List Bool) → Satisfies engine.old a → MakesTrue a (assumptions engine.new) ↔ (MakesTrue a (assumptions engine.old) × (literal_value a lit ≡ 1)) }
    ensures conflict { result ≡ Step.Conflict → (a : List Bool) → Satisfies engine.old a → MakesTrue a (assumptions engine.old) → ¬ (literal_value a lit ≡ 1) }
{
    match engine.value(lit.var()) {
        None => {
            assume_free(engine, lit);
            Step::Fixed
        }
        Some(value) => {
            if value == lit.positive() {
                Step::Fixed
            } else {
                Step::Conflict
            }
        }
    }
}

/// Assumes a literal without a value, and settles it, since the piece never tries its negation. No conflict comes before
/// propagation.
fn assume_free<C: Coefficient>(engine: &mut EngineAt<C>, lit: Lit)
    requires variable { lit.var ≤ engine.old.vars }
    requires no_value { value_on engine.old.trail lit.var ≡ None }
    requires no_conflict { engine.old.conflict ≡ false }
    requires sound { IsSoundTrail engine.old }
    ensures constraints { SameConstraints engine.old engine.new }
    ensures sound { IsSoundTrail engine.new }
    ensures assumed { assumptions engine.new ≡ assumptions engine.old ++ lit ∷ [] }
    ensures no_conflict { engine.new.conflict ≡ false }
{
    engine.assume(lit);
    engine.settle_last();
}

/// Takes back all assumptions, and adds what follows without any. A conflict means that no assignment meets the
/// constraints; it stands from then on, so that it is found only once.
fn return_to_root<C: Coefficient>(engine: &mut EngineAt<C>) -> Step
    ensures constraints { SameConstraints engine.old engine.new }
    ensures sound { IsSoundTrail engine.new }
    ensures no_assumptions { result ≡ Step.Fixed → assumptions engine.new ≡ [] }
    ensures no_conflict { result ≡ Step.Fixed → engine.new.conflict ≡ false }
    ensures conflict { result ≡ Step.Conflict → (a : List Bool) → ¬ Satisfies engine.old a }
{
    if is_refuted(engine) {
        return Step::Conflict;
    }
    engine.undo_to(0);
    engine.propagate()
}

/// Whether a conflict stands that follows from no assumption.
fn is_refuted<C: Coefficient>(engine: &EngineAt<C>) -> bool
    ensures refuted { result ≡ true → (a : List Bool) → ¬ Satisfies engine.now a }
    ensures sound { IsSoundTrail engine.now }
{
    if engine.level() > 0 {
        return false;
    }
    engine.conflict()
}

/// Assumes the literals too. A conflict means that no assignment that meets the constraints makes them and the assumptions before
/// them true.
fn assume_all<C: Coefficient>(engine: &mut EngineAt<C>, literals: &[Lit]) -> Step
    requires sound { IsSoundTrail engine.old }
    requires no_conflict { engine.old.conflict ≡ false }
    requires variables { All (λ l. l.var ≤ engine.old.vars) literals.now }
    ensures constraints { SameConstraints engine.old engine.new }
    ensures sound { IsSoundTrail engine.new }
    ensures no_conflict { result ≡ Step.Fixed → engine.new.conflict ≡ false }
    ensures fixed { result ≡ Step.Fixed → (a : List Bool) → Satisfies engine.old a → MakesTrue a (assumptions engine.new) ↔ (MakesTrue a (assumptions engine.old) × MakesTrue a literals.now) }
    ensures conflict { result ≡ Step.Conflict → (a : List Bool) → Satisfies engine.old a → MakesTrue a (assumptions engine.old) → ¬ MakesTrue a literals.now }
{
    for lit in literals {
        if assume_literal(engine, *lit) == Step::Conflict {
            return Step::Conflict;
        }
    }
    Step::Fixed
}

/// Takes back all assumptions, and assumes the literals of the root and then those of the cube. A conflict means that no assignment
/// that meets the constraints makes all of them true.
pub fn stand_below<C: Coefficient>(engine: &mut EngineAt<C>, root: &[Lit], cube: &[Lit]) -> Step
    requires root { All (λ l. l.var ≤ engine.old.vars) root.now }
    requires cube { All (λ l. l.var ≤ engine.old.vars) cube.now }
    ensures constraints { SameConstraints engine.old engine.new }
    ensures sound { IsSoundTrail engine.new }
    ensures fixed { result ≡ Step.Fixed → (a : List Bool) → Satisfies engine.old a → MakesTrue a (assumptions engine.new) ↔ MakesTrue a (root.now ++ cube.now) }
    ensures conflict { result ≡ Step.Conflict → (a : List Bool) → Satisfies engine.old a → ¬ MakesTrue a (root.now ++ cube.now) }
{
    if return_to_root(engine) == Step::Conflict {
        return Step::Conflict;
    }
    if assume_all(engine, root) == Step::Conflict {
        return Step::Conflict;
    }
    assume_all(engine, cube)
}

//! Literals that are tried at the root: where one leads to a conflict, or to a bound over the best cost, only its negation is
//! left to try.
//! Source: [S94]

ghost use Rattle.std.specs.Prelude.{◌≡◌, ◌++◌, ◌∷◌, [], false, Bool, List, IsTrue, IfSome, length};
ghost use Rattle.pb_inst.specs.Meaning.{literal_value};
ghost use Rattle.pb_engine.specs.Propagation.{AddsForced};
ghost use Rattle.pb_engine.specs.Soundness.{assumptions, IsSoundTrail};
ghost use Rattle.pb_prune.specs.Held.{IsImprovement};
ghost use Rattle.pb_prune.specs.Solutions.{Completes};
ghost use Rattle.pb_control.specs.Budget.{IsLeftOf};
ghost use Rattle.pb_engine.specs.Free.{IsFree};
ghost use Rattle.pb_prune.specs.Subtree.{IsClosed, IsEngineOf, IsOpenOnOneSide};

use pb_control::{RootWork, count_down};
use pb_engine::{Coefficient, EngineAt, Step, is_free};
use pb_inst::{Best, Lit};

/// A literal without a value whose negation failed when it was tried; or none, where none of a round fails or no more may be
/// tried. Each probe is a decision. Where the share is to be asked before the next one, the round waits.
pub fn find_failed<C: Coefficient>(
    engine: &mut EngineAt<C>,
    work: &mut RootWork,
    best: &Best<'_>,
    left: &mut Option<u64>,
) -> Option<Lit>
    requires engine { IsEngineOf best.now.problem engine.old }
    requires sound { IsSoundTrail engine.old }
    requires no_conflict { engine.old.conflict ≡ false }
    ensures failed { IfSome result (IsOpenOnOneSide best.now.problem engine.old best.now.held) }
    ensures unchanged { engine.new ≡ engine.old }
    ensures work { work.new ≡ work.old }
    ensures budget { IsLeftOf left.old left.new }
{
    let vars = engine.vars();
    for _ in 0..work.left_of_round(vars) {
        if *left == Some(0) || !work.may_probe() {
            return None;
        }
        if let Some(lit) = work.next_literal(vars)
            && is_free(engine, vars, lit)
        {
            count_down(left);
            // Probes count towards the next look, or else a long round would keep the share waiting.
            work.count(1);
            // The first that fails is fixed at once, since what follows from it may make others fail.
            if fails(engine, lit, work, best) {
                return Some(lit.negate());
            }
        }
    }
    None
}

/// Assumes the literal, and takes it back. Answers whether no completion of the trail with it comes before the best
/// assignment, by what propagation and the multipliers say.
fn fails<C: Coefficient>(
    engine: &mut EngineAt<C>,
    lit: Lit,
    work: &mut RootWork,
    best: &Best<'_>,
) -> bool
    requires engine { IsEngineOf best.now.problem engine.old }
    requires sound { IsSoundTrail engine.old }
    requires free { IsFree engine.old lit }
    ensures fails { IsTrue result → (a : List Bool) → Completes engine.old a → IsImprovement best.now.problem a best.now.held → literal_value a lit ≡ 0 }
    ensures unchanged { engine.new ≡ engine.old }
    ensures work { work.new ≡ work.old }
{
    let (level, length) = (engine.level(), engine.trail_len());
    let fails = is_closed_with(engine, lit, best);
    let pushed = engine.trail_len().saturating_sub(length);
    work.note_probe(pushed, fails);
    engine.undo_to(level);
    fails
}

/// Assumes the literal, and adds what follows. Answers whether no completion of the trail comes before the best assignment.
fn is_closed_with<C: Coefficient>(engine: &mut EngineAt<C>, lit: Lit, best: &Best<'_>) -> bool
    requires engine { IsEngineOf best.now.problem engine.old }
    requires sound { IsSoundTrail engine.old }
    requires free { IsFree engine.old lit }
    ensures closed { IsTrue result → IsClosed best.now.problem engine.new best.now.held }
    ensures grown { engine.new ≡ record engine.old { trail = engine.new.trail; levels = engine.old.levels ++ length engine.old.trail ∷ []; conflict = engine.new.conflict } }
    ensures forced { AddsForced engine.old.rows (engine.old.trail ++ lit ∷ []) engine.new.trail }
    ensures assumptions { assumptions engine.new ≡ assumptions engine.old ++ lit ∷ [] }
    ensures sound { IsSoundTrail engine.new }
{
    engine.assume(lit);
    if engine.propagate() == Step::Conflict {
        return true;
    }
    let Some(cost) = best.cost() else {
        return false;
    };
    // Multipliers are taken as they are, since there may be a probe for each literal.
    let Some(bound) = engine.bound_at_hand() else {
        return false;
    };
    // At equal cost a completion may still come first by the order of assignments, so the bound has to be greater.
    bound > cost
}

//! What is found at a node: what the bounds say of the subtree below it, and literals that have only one side to try there.
//! Source: [DFJ54], [CJP83]

ghost use Rattle.std.specs.Prelude.{◌≡◌, IfSome, ℕ};
ghost use Rattle.pb_engine.specs.Fixing.{IsBelowCompletions};
ghost use Rattle.pb_prune.specs.Subtree.{IsClosed, IsEngineOf, IsOpenOnOneSide, IsTied};
ghost use Rattle.pb_prune.specs.AgreedPrefix.{KnowsHeldPrefix};

use crate::agreed_prefix::AgreedPrefix;
use crate::pruning::{check_multipliers, check_rows, classify_bound, tied_literal};
use pb_control::{Hints, Pruning};
use pb_engine::{Coefficient, EngineAt, Fixed};
use pb_inst::{Best, Lit, Number};

/// What is found at a node.
#[derive(Clone, Copy)]
pub struct Verdict {
    /// What the bound says of the subtree below the trail.
    pub pruning: Pruning,
    /// The greatest bound that was taken, if any was.
    pub bound: Option<Number>,
    /// A literal without a value whose negation can lead to nothing better, if one is known. At a tie the lowest variables come
    /// first.
    pub fixed: Option<Lit>,
}

/// What the bounds say of the subtree below the trail. Once something is held, each call compares a bound; at a tie without a
/// budget it may be one that was taken above. Where decisions are counted, each of them has the bound of disjoint rows before it.
pub fn classify_node<C: Coefficient>(
    engine: &mut EngineAt<C>,
    best: &Best<'_>,
    agreed: &mut AgreedPrefix,
    is_counted: bool,
    hints: &mut Hints,
) -> Verdict
    requires engine { IsEngineOf best.now.problem engine.old }
    requires known { KnowsHeldPrefix engine.old.trail best.now.held agreed.old }
    ensures closed { result.pruning ≡ Pruning.Closed → IsClosed best.now.problem engine.old best.now.held }
    ensures fixed { IfSome result.fixed (IsOpenOnOneSide best.now.problem engine.old best.now.held) }
    ensures unchanged { engine.new ≡ engine.old }
    ensures known { KnowsHeldPrefix engine.old.trail best.now.held agreed.new }
{
    // Without a budget nobody counts the decisions that the bound of disjoint rows would save below a literal that was fixed, and
    // taking it costs more than it saves.
    if !is_counted && let Some(verdict) = fixed_again(engine, best, agreed, None) {
        return verdict;
    }
    if !hints.is_bound_due(is_counted)
        && let Some(verdict) = standing_tie(engine, best, agreed, hints)
    {
        return verdict;
    }
    let (pruning, bound) = check_rows(engine, best, agreed);
    if pruning != Pruning::Closed
        && let Some(verdict) = fixed_again(engine, best, agreed, bound)
    {
        return verdict;
    }
    let (pruning, bound) = check_multipliers(engine, best, agreed, pruning, bound);
    let fixed = one_sided_literal(engine, best, pruning, hints);
    Verdict {
        pruning,
        bound,
        fixed,
    }
}

/// A literal without a value whose negation can lead to nothing better, at a node that was classified: none where it is closed.
fn one_sided_literal<C: Coefficient>(
    engine: &mut EngineAt<C>,
    best: &Best<'_>,
    pruning: Pruning,
    hints: &mut Hints,
) -> Option<Lit>
    requires engine { IsEngineOf best.now.problem engine.old }
    requires tied { (var : ℕ) → pruning ≡ Pruning.Tied var → IsTied best.now.problem engine.old best.now.held var }
    ensures fixed { IfSome result (IsOpenOnOneSide best.now.problem engine.old best.now.held) }
    ensures unchanged { engine.new ≡ engine.old }
{
    if pruning == Pruning::Closed {
        return None;
    }
    if let Some(lit) = next_tied(engine, best, pruning, hints) {
        return Some(lit);
    }
    let fixed = fixed_literal(engine, best);
    Some(fixed?.lit)
}

/// The next literal to fix where one was fixed just before, since there are often more. The bound of the multipliers as they are
/// is at hand with each, so they are not improved in between. `bound` is that of disjoint rows, if it was taken.
fn fixed_again<C: Coefficient>(
    engine: &mut EngineAt<C>,
    best: &Best<'_>,
    agreed: &mut AgreedPrefix,
    bound: Option<Number>,
) -> Option<Verdict>
    requires engine { IsEngineOf best.now.problem engine.old }
    requires known { KnowsHeldPrefix engine.old.trail best.now.held agreed.old }
    ensures closed { IfSome result (λ v. v.pruning ≡ Pruning.Closed → IsClosed best.now.problem engine.old best.now.held) }
    ensures fixed { IfSome result (λ v. IfSome v.fixed (IsOpenOnOneSide best.now.problem engine.old best.now.held)) }
    ensures unchanged { engine.new ≡ engine.old }
    ensures known { KnowsHeldPrefix engine.old.trail best.now.held agreed.new }
{
    if !engine.is_fixing() {
        return None;
    }
    let fixed = fixed_literal(engine, best)?;
    Some(Verdict {
        pruning: classify_bound(engine, fixed.bound, best, agreed),
        bound,
        fixed: Some(fixed.lit),
    })
}

/// What a bound that was taken above says of the subtree below the trail, where that settles the node: it is closed, or it is a
/// tie and a literal comes next.
fn standing_tie<C: Coefficient>(
    engine: &EngineAt<C>,
    best: &Best<'_>,
    agreed: &mut AgreedPrefix,
    hints: &mut Hints,
) -> Option<Verdict>
    requires engine { IsEngineOf best.now.problem engine.now }
    requires known { KnowsHeldPrefix engine.now.trail best.now.held agreed.old }
    ensures closed { IfSome result (λ v. v.pruning ≡ Pruning.Closed → IsClosed best.now.problem engine.now best.now.held) }
    ensures fixed { IfSome result (λ v. IfSome v.fixed (IsOpenOnOneSide best.now.problem engine.now best.now.held)) }
    ensures known { KnowsHeldPrefix engine.now.trail best.now.held agreed.new }
{
    let bound = engine.standing_bound()?;
    let pruning = classify_bound(engine, bound, best, agreed);
    let fixed = next_tied(engine, best, pruning, hints);
    if pruning != Pruning::Closed && fixed.is_none() {
        return None;
    }
    Some(Verdict {
        pruning,
        bound: None,
        fixed,
    })
}

/// The next literal at a tie; `hints` tell from where nodes below it go on. None at no tie, or where its lowest variables have
/// values.
fn next_tied<C: Coefficient>(
    engine: &EngineAt<C>,
    best: &Best<'_>,
    pruning: Pruning,
    hints: &mut Hints,
) -> Option<Lit>
    requires engine { IsEngineOf best.now.problem engine.now }
    requires tied { (var : ℕ) → pruning ≡ Pruning.Tied var → IsTied best.now.problem engine.now best.now.held var }
    ensures { IfSome result (IsOpenOnOneSide best.now.problem engine.now best.now.held) }
{
    let Some(lit) = tied_literal(engine, best, pruning, hints.settled) else {
        hints.ties = 0;
        return None;
    };
    hints.settled = lit.var() - 1;
    hints.ties = hints.ties.saturating_add(1);
    Some(lit)
}

/// A literal without a value whose negation costs too much to come before the best assignment, with a bound that is at hand;
/// or none.
fn fixed_literal<C: Coefficient>(engine: &mut EngineAt<C>, best: &Best<'_>) -> Option<Fixed>
    requires engine { IsEngineOf best.now.problem engine.old }
    ensures fixed { IfSome result (λ f. IsOpenOnOneSide best.now.problem engine.old best.now.held f.lit) }
    ensures bound { IfSome result (λ f. IsBelowCompletions engine.old f.bound) }
    ensures unchanged { engine.new ≡ engine.old }
{
    let Some(cost) = best.cost() else {
        return None;
    };
    let Some(fixed) = engine.fixed_literal(cost) else {
        return None;
    };
    Some(fixed)
}

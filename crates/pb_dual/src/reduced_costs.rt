//! The reduced costs of literals, and what the variables add at least.
//! Source: [G74]

ghost use Rattle.std.specs.Prelude.{◌≡◌, ℕ, ◌+◌, ◌-◌, ◌*◌, ◌^◌, ◌<◌, ◌≤◌, Bool, None, All, IfOk, length, replicate, slice_index, slice_index_or, slice_set, if◌then◌else◌};
ghost use Rattle.pb_inst.specs.declared.limits.TheConstants.{MAX_VARS};
ghost use Rattle.pb_inst.specs.Literal.{Literal};
ghost use Rattle.pb_normal.specs.Literals.{same_sign, weight_of};
ghost use Rattle.pb_rows.specs.Index.{literal_place};
ghost use Rattle.pb_normal.specs.NormalForm.{total_coefficient};
ghost use Rattle.pb_dual.specs.ReducedCosts.{AreReducedCosts, cost_at, least_cost, part, parts};
ghost use Rattle.pb_dual.specs.Saturation.{capped};

use pb_count::{Coefficient, Counter};
use pb_inst::{Lit, Memory};
use pb_normal::{Form, FormTerm};
use pb_rows::place_of;
use std::alloc::Global;

/// What the variable adds at least: the reduced cost of its true literal, the lesser of both where it has no value.
pub fn part<C: Coefficient>(costs: &[Counter<C>], values: &[Option<bool>], lit: Lit) -> Counter<C>
    requires variable { lit.var ≤ length values.now }
    requires count { length costs.now ≡ 2 * length values.now }
    ensures { result ≡ part costs.now lit.var (slice_index_or values.now (lit.var - 1) None) }
{
    let (cost, other) = (costs[place_of(lit)], costs[place_of(lit.negate())]);
    least_of(lit, cost, other, values[lit.var() as usize - 1])
}

/// What a variable with this value, or without one, adds at least, by the reduced costs of a literal of it and of the negation.
#[inline]
fn least_of<C: Coefficient>(
    lit: Lit,
    cost: Counter<C>,
    other: Counter<C>,
    value: Option<bool>,
) -> Counter<C>
    ensures { result ≡ least_cost (λ positive. if same_sign positive lit.positive then cost else other) value }
{
    match value {
        None => cost.min(other),
        Some(value) => { if value == lit.positive() { cost } else { other } }
    }
}

/// Gives the variable another value, or none.
pub fn revalue<C: Coefficient>(
    costs: &[Counter<C>],
    sum: &mut u128,
    values: &mut [Option<bool>],
    lit: Lit,
    value: Option<bool>,
)
    requires variable { lit.var ≤ length values.old }
    requires count { length costs.now ≡ 2 * length values.old }
    requires room { 1 ≤ lit.var → (positive : Bool) → parts costs.now values.old + cost_at costs.now lit.var positive < 2 ^ 128 }
    requires sum { sum.old ≡ parts costs.now values.old }
    ensures values { values.new ≡ slice_set values.old (lit.var - 1) value }
    ensures sum { sum.new ≡ parts costs.now values.new }
    ensures from_one { 1 ≤ lit.var }
{
    let before = part(costs, values, lit);
    values[lit.var() as usize - 1] = value;
    let after = part(costs, values, lit);
    *sum = *sum - before.number() + after.number();
}

/// Changes what a row with these terms takes off the costs of their literals, where no coefficient counts more than `most`: its
/// multiplier is `to`, and was `from`.
pub fn reprice<C: Coefficient>(
    costs: &mut [Counter<C>],
    sum: &mut u128,
    values: &[Option<bool>],
    terms: &[FormTerm<C>],
    most: Counter<C>,
    from: Counter<C>,
    to: Counter<C>,
)
    requires variables { All (λ t. (1 ≤ t.lit.var) × (t.lit.var ≤ length values.now)) terms.now }
    requires count { length costs.old ≡ 2 * length values.now }
    requires few { length values.now ≤ MAX_VARS }
    requires enough { (l : Literal) → 1 ≤ l.var → l.var ≤ length values.now → to * weight_of l (capped most terms.now) ≤ slice_index costs.old (literal_place l) + from * weight_of l (capped most terms.now) }
    requires fits { (l : Literal) → 1 ≤ l.var → l.var ≤ length values.now → slice_index costs.old (literal_place l) + from * weight_of l (capped most terms.now) ≤ 3 * C.origin }
    requires sum { sum.old ≡ parts costs.old values.now }
    ensures count { length costs.new ≡ length costs.old }
    ensures each { (l : Literal) → 1 ≤ l.var → l.var ≤ length values.now → slice_index costs.new (literal_place l) + to * weight_of l (capped most terms.now) ≡ slice_index costs.old (literal_place l) + from * weight_of l (capped most terms.now) }
    ensures sum { sum.new ≡ parts costs.new values.now }
{
    for term in terms {
        reprice_literal(
            costs,
            sum,
            values,
            term.lit(),
            term.coef().min(most),
            from,
            to,
        );
    }
}

/// Changes what a row takes off the cost of one literal, which counts `coef` in it.
fn reprice_literal<C: Coefficient>(
    costs: &mut [Counter<C>],
    sum: &mut u128,
    values: &[Option<bool>],
    lit: Lit,
    coef: Counter<C>,
    from: Counter<C>,
    to: Counter<C>,
)
    requires variable { lit.var ≤ length values.now }
    requires count { length costs.old ≡ 2 * length values.now }
    requires few { length values.now ≤ MAX_VARS }
    requires enough { to * coef ≤ slice_index costs.old (literal_place lit) + from * coef }
    requires fits { slice_index costs.old (literal_place lit) + from * coef ≤ 3 * C.origin }
    requires small { (l : Literal) → 1 ≤ l.var → l.var ≤ length values.now → slice_index costs.old (literal_place l) ≤ 3 * C.origin }
    requires sum { sum.old ≡ parts costs.old values.now }
    ensures costs { costs.new ≡ slice_set costs.old (literal_place lit) (slice_index costs.old (literal_place lit) + from * coef - to * coef) }
    ensures sum { sum.new ≡ parts costs.new values.now }
{
    let here = place_of(lit);
    let other = costs[place_of(lit.negate())];
    let value = values[lit.var() as usize - 1];
    let before = costs[here];
    let after = before + from * coef - to * coef;
    costs[here] = after;
    *sum = *sum - least_of(lit, before, other, value).number()
        + least_of(lit, after, other, value).number();
}

/// The reduced costs where all multipliers are 0.
pub fn initial_costs<C: Coefficient>(
    alloc: Global,
    form: &Form<C>,
    scale: Counter<C>,
) -> Result<Vec<Counter<C>>, Memory>
    requires { scale * total_coefficient form.now.objective < 2 * C.origin }
    ensures { IfOk result (λ costs. AreReducedCosts C.origin scale form.now (replicate (length form.now.rows) 0) costs.items) }
{
    let mut costs = vec![in alloc; Counter::origin(); 2 * form.vars() as usize]?;
    for term in form.objective() {
        costs[place_of(term.lit())] += scale * term.coef();
    }
    Ok(costs)
}

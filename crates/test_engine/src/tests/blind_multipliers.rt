//! Bounds by multipliers that are drawn blindly, checked against a listing of all assignments.

use super::forms::{Terms, finished, form, multipliers};
use pb_count::Coefficient;
use pb_dual::{Multipliers, Signed};
use pb_inst::{Instance, InstanceBuilder, Lit, Magnitude, Number, Relation, Term};
use pb_normal::{Form, FormTerm, form_of};
use std::alloc::Global;
use std::process::Abort;

/// Numbers that look drawn, the same in each run. Source: [K97]
#[derive(Drop)]
struct Draws {
    state: u64,
}

impl Draws {
    /// The next number, from 0 to 2^31 - 1.
    fn next(&mut self) -> u64 {
        self.state = self
            .state
            .wrapping_mul(6_364_136_223_846_793_005)
            .wrapping_add(1_442_695_040_888_963_407);
        self.state / 8_589_934_592
    }

    /// The next number below the limit.
    fn below(&mut self, limit: u64) -> u64 {
        self.next() % limit.max(1)
    }

    /// A number from minus the limit to the limit.
    fn about(&mut self, limit: u64) -> Number {
        let number = self.below(limit.saturating_add(1)).min(1 << 40) as Number;
        if self.below(2) == 0 { number } else { -number }
    }

    /// A literal of the variables 1 to `vars`.
    fn literal(&mut self, rt: &impl Abort, vars: u64) -> Lit {
        let var = self.below(vars).min(1 << 20) as u32 + 1;
        let positive = self.below(2) == 0;
        Lit::new(var, positive).expect(rt, "a variable")
    }

    /// A sum of `count` terms with coefficients of either sign, up to the limit times the unit.
    fn terms(
        &mut self,
        rt: &impl Abort,
        alloc: Global,
        vars: u64,
        count: u64,
        size: Size,
    ) -> Vec<Term> {
        let mut terms = Vec::new(alloc);
        for _ in 0..count {
            let coef = self.about(size.limit).saturating_mul(size.unit);
            let lit = self.literal(rt, vars);
            terms.push(Term { coef, lit }).expect(rt, "memory");
        }
        terms
    }
}

/// How great the numbers of a drawn instance are: multiples of the unit, from minus the limit to the limit.
#[derive(Clone, Copy)]
struct Size {
    limit: u64,
    unit: Number,
}

const RELATIONS: [Relation; 3] = [Relation::AtLeast, Relation::AtMost, Relation::Equal];

/// Adds a constraint over the variables 1 to `vars`.
fn add_drawn_row(
    rt: &impl Abort,
    alloc: Global,
    draws: &mut Draws,
    builder: &mut InstanceBuilder,
    vars: u64,
    size: Size,
) {
    let count = draws.below(4).saturating_add(1);
    let row = draws.terms(rt, alloc, vars, count, size);
    let relation = RELATIONS.get(draws.below(3) as usize).copied();
    let relation = relation.expect(rt, "one of three");
    let bound = draws.about(size.limit).saturating_mul(size.unit);
    builder
        .add(&row, relation, bound)
        .expect(rt, "a constraint");
}

/// An instance over `vars` variables with an objective and as many constraints.
fn drawn_instance(
    rt: &impl Abort,
    alloc: Global,
    draws: &mut Draws,
    vars: u64,
    size: Size,
) -> Instance {
    let mut builder = InstanceBuilder::new(alloc);
    let objective = draws.terms(rt, alloc, vars, vars, size);
    builder.set_objective(&objective).expect(rt, "an objective");
    for _ in 0..vars {
        add_drawn_row(rt, alloc, draws, &mut builder, vars, size);
    }
    finished(rt, builder, vars.min(64) as u32)
}

/// Whether the bits make the literal true. The lowest one is that of variable 1.
fn makes_true(bits: u64, lit: Lit) -> bool {
    let bit = bits.wrapping_shr(lit.var().wrapping_sub(1)) % 2;
    (bit == 1) == lit.positive()
}

/// The sum of the terms under the bits.
fn value_of<C: Coefficient>(terms: &[FormTerm<C>], bits: u64) -> Magnitude {
    let mut sum: Magnitude = 0;
    for term in terms {
        if makes_true(bits, term.lit()) {
            sum = sum.saturating_add(term.coef().number());
        }
    }
    sum
}

/// Whether the bits meet all rows.
fn meets<C: Coefficient>(form: &Form<C>, bits: u64) -> bool {
    for row in 0..form.len() {
        if value_of(form.terms(row), bits) < form.degree(row).number() {
            return false;
        }
    }
    true
}

/// Whether the bits make all literals true.
fn extends(bits: u64, lits: &[Lit]) -> bool {
    for lit in lits {
        if !makes_true(bits, *lit) {
            return false;
        }
    }
    true
}

/// The least cost above the base of those that meet all rows and make the literals true; the greatest number where there is
/// none.
fn least_above<C: Coefficient>(form: &Form<C>, lits: &[Lit], vars: u32) -> Magnitude {
    let mut least = Magnitude::MAX;
    for bits in 0..1_u64.wrapping_shl(vars) {
        if extends(bits, lits) && meets(form, bits) {
            least = least.min(value_of(form.objective(), bits));
        }
    }
    least
}

/// By how much the bound is above the base.
fn above<C: Coefficient>(form: &Form<C>, bound: Number) -> Magnitude {
    bound.saturating_sub(form.base()).max(0).unsigned_abs()
}

/// Whether the bounds are at most the costs that the listing finds, with the literal and without it.
fn holds<C: Coefficient>(
    form: &Form<C>,
    multipliers: &Multipliers<C>,
    lits: &mut Vec<Lit>,
    lit: Lit,
) -> bool {
    let vars = form.vars();
    if above(form, multipliers.bound()) > least_above(form, lits, vars) {
        return false;
    }
    if !multipliers.is_free(lit) || lits.len() >= lits.capacity() {
        return true;
    }
    let bound = multipliers.bound_with(lit);
    lits.push_reserved(lit);
    let holds = above(form, bound) <= least_above(form, lits, vars);
    lits.pop();
    holds
}

/// Makes a drawn change: a shift, a literal that joins or leaves the trail, changes that are taken back, or rows that are
/// saturated by the trail as it is.
fn change<C: Coefficient>(
    draws: &mut Draws,
    multipliers: &mut Multipliers<C>,
    lits: &mut Vec<Lit>,
    lit: Lit,
    limit: u64,
) {
    match draws.below(8) {
        0 if multipliers.is_free(lit) && lits.len() < lits.capacity() => {
            multipliers.assign(lit);
            lits.push_reserved(lit);
        }
        1 => {
            let length = lits.len() / 2;
            multipliers.unassign_to(length);
            lits.truncate(length);
        }
        2 => {
            let count = multipliers.changes() / 2;
            multipliers.take_back_to(count);
        }
        3 => multipliers.saturate(),
        _ => {
            let row = draws.below(16) as usize;
            let amount = draws.about(limit);
            if row < multipliers.form().len() && multipliers.has_room() {
                multipliers.shift(row, Signed::nearest(amount));
            }
        }
    }
}

/// Draws an instance and changes of multipliers. Answers whether every bound on the way is valid.
fn bounds_hold<C: Coefficient>(rt: &impl Abort, alloc: Global, seed: u64, size: Size) -> bool {
    let mut draws = Draws { state: seed };
    let vars = 5;
    let instance = drawn_instance(rt, alloc, &mut draws, vars, size);
    let form = form_of::<C>(alloc, &instance).expect(rt, "a form");
    changes_hold(rt, alloc, &form, &mut draws, size.limit)
}

/// Draws changes of multipliers. Answers whether every bound on the way is valid.
fn changes_hold<C: Coefficient>(
    rt: &impl Abort,
    alloc: Global,
    form: &Form<C>,
    draws: &mut Draws,
    limit: u64,
) -> bool {
    let mut multipliers = multipliers(rt, alloc, form, 20);
    let mut lits = Vec::with_capacity(alloc, 5).expect(rt, "memory");
    for _ in 0..30 {
        let lit = draws.literal(rt, form.vars() as u64);
        let reach = limit.saturating_mul(40_000);
        change(draws, &mut multipliers, &mut lits, lit, reach);
        let other = draws.literal(rt, form.vars() as u64);
        if !holds(form, &multipliers, &mut lits, other) {
            return false;
        }
    }
    true
}

/// No multipliers, whatever they are, give a bound over the cost of a completion: with small coefficients, and with
/// coefficients so great that the clamp acts.
#[test]
fn blind_multipliers(rt: HostRuntime) {
    let alloc = rt.alloc();
    for seed in 0..150 {
        for limit in [9, 1_000_000_000] {
            let size = Size { limit, unit: 1 };
            assert!(rt; bounds_hold::<u64>(&rt, alloc, seed, size));
        }
    }
}

/// The bounds hold with numbers of 128 bits too; where these are greatest no scale but 1 fits.
#[test]
fn blind_multipliers_of_wide_forms(rt: HostRuntime) {
    let alloc = rt.alloc();
    for seed in 0..150 {
        for limit in [9, 1_000_000_000] {
            let size = Size {
                limit,
                unit: 1 << 70,
            };
            assert!(rt; bounds_hold::<u128>(&rt, alloc, seed, size));
        }
    }
}

/// A form over five variables, of which all but the first cost 1. Two rows ask for two of three literals each, the first
/// variable in both.
fn shared_form(rt: &impl Abort, alloc: Global) -> Form<u64> {
    let costs: Terms<'_> = &[(1, 2), (1, 3), (1, 4), (1, 5)];
    let rows: &[(Terms<'_>, Number)] = &[
        (&[(3, 1), (3, 2), (3, 3)], 4),
        (&[(3, 1), (3, 4), (3, 5)], 4),
    ];
    form(rt, alloc, 5, costs, rows)
}

/// Shifts the multiplier of the row by the amount.
fn shift<C: Coefficient>(
    rt: &impl Abort,
    multipliers: &mut Multipliers<C>,
    row: usize,
    amount: Signed<C>,
) {
    assert!(rt; row < multipliers.form().len());
    assert!(rt; multipliers.has_room());
    multipliers.shift(row, amount);
}

/// Once a literal is on the trail only what is left of a degree counts: multipliers of 1 then give a bound of 2, and of 1
/// before. Once it is off the trail its rows count as they are, and such multipliers take off more than all costs.
#[test]
fn rows_are_saturated_while_the_trail_stands(rt: HostRuntime) {
    let alloc = rt.alloc();
    let form = shared_form(&rt, alloc);
    let mut multipliers = multipliers(&rt, alloc, &form, 8);
    let lit = Lit::new(1, true).expect(&rt, "a variable");
    assert!(rt; multipliers.is_free(lit));
    multipliers.assign(lit);
    multipliers.saturate();
    let one = Signed::of(multipliers.scale());
    shift(&rt, &mut multipliers, 0, one);
    shift(&rt, &mut multipliers, 1, one);
    assert!(rt; multipliers.bound() == 2);
    multipliers.unassign_to(0);
    assert!(rt; multipliers.bound() == 0);
}

/// A form over one variable, which costs `cost`.
fn costly_form(rt: &impl Abort, alloc: Global, cost: Number) -> Form<u128> {
    form(rt, alloc, 1, &[(cost, 1)], &[(&[(1, 1)], 1)])
}

/// Where costs leave no room for reduced costs even at a scale of 1, there are no multipliers.
#[test]
fn no_scale_fits(rt: HostRuntime) {
    let alloc = rt.alloc();
    let form = costly_form(&rt, alloc, 1 << 106);
    let made = Multipliers::new(alloc, &form, 1).expect(&rt, "memory");
    assert!(rt; made.is_none());
}

/// The greatest costs for which there are multipliers. One row raises the bound to 2^105 at most, however great its multiplier.
#[test]
fn the_greatest_scaled_costs(rt: HostRuntime) {
    let alloc = rt.alloc();
    let cost: Number = (1 << 106) - 1;
    let form = costly_form(&rt, alloc, cost);
    let mut multipliers = multipliers(&rt, alloc, &form, 1);
    assert!(rt; multipliers.bound() == 0);
    shift(&rt, &mut multipliers, 0, Signed::nearest(cost));
    assert!(rt; multipliers.bound() == 1 << 105);
}

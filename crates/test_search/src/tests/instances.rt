//! Instances of costs, and of pairs of literals of which one has to be true.

use pb_inst::{Instance, InstanceBuilder, Lit, Number, Term};
use std::alloc::Global;
use std::process::Abort;

/// How many variables there are, costs with their literals, and pairs of literals of which one is true.
#[derive(Clone, Copy)]
pub struct Cover<'a> {
    pub vars: u32,
    pub costs: &'a [(Number, i32)],
    pub pairs: &'a [(i32, i32)],
}

/// The literal of the variable, negated where the number is negative.
pub fn lit(rt: &impl Abort, number: i32) -> Lit {
    Lit::new(number.unsigned_abs(), number > 0).expect(rt, "a variable")
}

/// The terms of these coefficients and literals.
pub fn terms(rt: &impl Abort, alloc: Global, numbers: &[(Number, i32)]) -> Vec<Term> {
    let mut terms = Vec::new(alloc);
    for (coef, number) in numbers {
        let lit = lit(rt, *number);
        terms.push(Term { coef: *coef, lit }).expect(rt, "memory");
    }
    terms
}

/// What begins an instance of these costs, where there are any.
pub fn costing(rt: &impl Abort, alloc: Global, costs: &[(Number, i32)]) -> InstanceBuilder {
    let mut builder = InstanceBuilder::new(alloc);
    if !costs.is_empty() {
        let costs = terms(rt, alloc, costs);
        builder.set_objective(&costs).expect(rt, "an objective");
    }
    builder
}

/// The instance that was built.
pub fn finished(rt: &impl Abort, builder: InstanceBuilder, vars: u32) -> Instance {
    builder.finish(vars).ok().expect(rt, "an instance")
}

/// The cover as an instance.
pub fn instance(rt: &impl Abort, alloc: Global, cover: Cover<'_>) -> Instance {
    let mut builder = costing(rt, alloc, cover.costs);
    for (one, other) in cover.pairs {
        let pair = [lit(rt, *one), lit(rt, *other)];
        builder.add_clause(&pair).expect(rt, "a constraint");
    }
    finished(rt, builder, cover.vars)
}

/// A ring of `size` variables. The cost of each is its place times the factor, modulo 11, plus 1.
#[derive(Clone, Copy)]
pub struct Ring<'a> {
    pub size: i32,
    pub factor: i32,
    /// Two variables are a pair where one of these numbers of steps leads from one to the other.
    pub steps: &'a [i32],
    /// Pairs that begin at this place or behind it are there twice.
    pub doubled: i32,
}

/// The costs of a ring's variables.
fn ring_costs(rt: &impl Abort, alloc: Global, ring: Ring<'_>) -> Vec<(Number, i32)> {
    let mut costs = Vec::new(alloc);
    for place in 0..ring.size {
        let cost = Number::from(place.wrapping_mul(ring.factor) % 11 + 1);
        costs.push((cost, place + 1)).expect(rt, "memory");
    }
    costs
}

/// Adds the pairs of a ring that begin at this place or behind it.
fn add_pairs(rt: &impl Abort, pairs: &mut Vec<(i32, i32)>, ring: Ring<'_>, first: i32) {
    for place in first..ring.size {
        for step in ring.steps {
            let other = place.wrapping_add(*step).checked_rem(ring.size);
            let other = other.expect(rt, "variables").wrapping_add(1);
            pairs
                .push((place.wrapping_add(1), other))
                .expect(rt, "memory");
        }
    }
}

/// One of each pair on the ring is chosen, at least cost. The more steps there are, the weaker is the relaxation.
pub fn ring_cover(rt: &impl Abort, alloc: Global, ring: Ring<'_>) -> Instance {
    let costs = ring_costs(rt, alloc, ring);
    let mut pairs = Vec::new(alloc);
    add_pairs(rt, &mut pairs, ring, 0);
    add_pairs(rt, &mut pairs, ring, ring.doubled);
    let cover = Cover {
        vars: ring.size.unsigned_abs(),
        costs: &costs,
        pairs: &pairs,
    };
    instance(rt, alloc, cover)
}

//! Instances and cubes in the form that tables use: whether one is as written, and how one is built.

use pb_inst::{
    Constraint, Cube, InstFault, Instance, InstanceBuilder, Lit, Number, Relation, SUM_BOUND, Term,
    Terms,
};
use std::alloc::{AllocError, Global};
use std::process::Abort;

/// Variables, each negative where its literal is negated.
pub type Literals = &'static [i32];

/// Coefficients and literals.
pub type Sum = &'static [(Number, i32)];

/// A sum, and how it stands to its bound.
pub type Inequality = (Sum, Relation, Number);

/// An instance: its constraints are the sums and then the clauses.
#[derive(Clone, Copy)]
pub struct Written {
    pub vars: u32,
    pub objective: Option<Sum>,
    pub sums: &'static [Inequality],
    pub clauses: &'static [Literals],
}

/// The bound on sums, as a coefficient.
pub const MOST: Number = SUM_BOUND as Number;

/// The greatest number of 64 bits with a sign.
pub const MOST_OF_64_BITS: Number = 9_223_372_036_854_775_807;

/// Whether this is the literal.
pub fn is_literal(lit: Lit, literal: i32) -> bool {
    lit.var() == literal.unsigned_abs() && lit.positive() == (literal > 0)
}

/// Whether these are the terms.
fn is_sum(terms: &Terms<'_>, sum: &[(Number, i32)]) -> bool {
    if terms.len() != sum.len() {
        return false;
    }
    for i in 0..terms.len() {
        let (coef, literal) = sum[i];
        let term = terms.get(i);
        if term.coef != coef || !is_literal(term.lit, literal) {
            return false;
        }
    }
    true
}

/// Whether the terms are these literals, each with the coefficient 1.
fn is_disjunction(terms: &Terms<'_>, clause: &[i32]) -> bool {
    if terms.len() != clause.len() {
        return false;
    }
    for i in 0..terms.len() {
        let term = terms.get(i);
        if term.coef != 1 || !is_literal(term.lit, clause[i]) {
            return false;
        }
    }
    true
}

/// Whether the constraint is the i-th that is written.
fn is_constraint(constraint: &Constraint<'_>, written: &Written, i: usize) -> bool {
    if i < written.sums.len() {
        let (sum, relation, bound) = written.sums[i];
        return constraint.relation == relation
            && constraint.bound == bound
            && is_sum(&constraint.terms, sum);
    }
    match written.clauses.get(i - written.sums.len()) {
        Some(clause) => {
            constraint.relation == Relation::AtLeast
                && constraint.bound == 1
                && is_disjunction(&constraint.terms, clause)
        }
        None => false,
    }
}

fn has_objective(instance: &Instance, objective: Option<Sum>) -> bool {
    match (instance.objective(), objective) {
        (Some(terms), Some(sum)) => instance.has_objective() && is_sum(&terms, sum),
        (terms, sum) => !instance.has_objective() && terms.is_none() && sum.is_none(),
    }
}

/// Whether the instance is as it is written.
pub fn is_written(instance: &Instance, written: &Written) -> bool {
    for i in 0..instance.len() {
        if !is_constraint(&instance.constraint(i), written, i) {
            return false;
        }
    }
    instance.vars() == written.vars
        && instance.len() == written.sums.len() + written.clauses.len()
        && has_objective(instance, written.objective)
}

/// Whether the cube has these literals.
pub fn is_cube(cube: &Cube, literals: &[i32]) -> bool {
    let lits = cube.lits();
    if lits.len() != literals.len() {
        return false;
    }
    for i in 0..lits.len() {
        if !is_literal(lits[i], literals[i]) {
            return false;
        }
    }
    true
}

/// Whether these are the cubes.
pub fn are_cubes(cubes: &[Cube], written: &[Literals]) -> bool {
    if cubes.len() != written.len() {
        return false;
    }
    for i in 0..cubes.len() {
        if !is_cube(&cubes[i], written[i]) {
            return false;
        }
    }
    true
}

fn lit(rt: &impl Abort, literal: i32) -> Lit {
    Lit::new(literal.unsigned_abs(), literal > 0).expect(rt, "a variable")
}

fn terms_once(
    rt: &impl Abort,
    alloc: Global,
    sum: &[(Number, i32)],
) -> Result<Vec<Term>, AllocError> {
    let mut terms = Vec::with_capacity(alloc, sum.len())?;
    for (coef, literal) in sum {
        terms.push(Term {
            coef: *coef,
            lit: lit(rt, *literal),
        })?;
    }
    Ok(terms)
}

/// The terms, also where one allocation is refused.
pub fn terms_of(rt: &impl Abort, alloc: Global, sum: &[(Number, i32)]) -> Vec<Term> {
    match terms_once(rt, alloc, sum) {
        Ok(terms) => terms,
        Err(_) => terms_once(rt, alloc, sum).expect(rt, "memory"),
    }
}

fn lits_once(rt: &impl Abort, alloc: Global, literals: &[i32]) -> Result<Vec<Lit>, AllocError> {
    let mut lits = Vec::with_capacity(alloc, literals.len())?;
    for literal in literals {
        lits.push(lit(rt, *literal))?;
    }
    Ok(lits)
}

/// The literals, also where one allocation is refused.
pub fn lits_of(rt: &impl Abort, alloc: Global, literals: &[i32]) -> Vec<Lit> {
    match lits_once(rt, alloc, literals) {
        Ok(lits) => lits,
        Err(_) => lits_once(rt, alloc, literals).expect(rt, "memory"),
    }
}

/// The cube, also where one allocation is refused.
pub fn cube_of(rt: &impl Abort, alloc: Global, literals: &[i32]) -> Cube {
    let lits = lits_of(rt, alloc, literals);
    match Cube::new(alloc, &lits) {
        Ok(cube) => cube,
        Err(_) => Cube::new(alloc, &lits).expect(rt, "a cube"),
    }
}

/// Whether memory was refused, which is the only fault that there may be.
fn is_to_be_repeated(rt: &impl Abort, told: Result<(), InstFault>) -> bool {
    match told {
        Ok(()) => false,
        Err(InstFault::Memory) => true,
        Err(_) => panic!(rt; "a statement was refused"),
    }
}

fn set_objective(rt: &impl Abort, builder: &mut InstanceBuilder, terms: &[Term]) {
    if is_to_be_repeated(rt, builder.set_objective(terms)) {
        builder.set_objective(terms).expect(rt, "an objective");
    }
}

fn add(
    rt: &impl Abort,
    builder: &mut InstanceBuilder,
    terms: &[Term],
    relation: Relation,
    bound: Number,
) {
    if is_to_be_repeated(rt, builder.add(terms, relation, bound)) {
        builder
            .add(terms, relation, bound)
            .expect(rt, "a constraint");
    }
}

fn add_clause(rt: &impl Abort, builder: &mut InstanceBuilder, lits: &[Lit]) {
    if is_to_be_repeated(rt, builder.add_clause(lits)) {
        builder.add_clause(lits).expect(rt, "a clause");
    }
}

fn add_sums(rt: &impl Abort, alloc: Global, builder: &mut InstanceBuilder, sums: &[Inequality]) {
    for (sum, relation, bound) in sums {
        let terms = terms_of(rt, alloc, sum);
        add(rt, builder, &terms, *relation, *bound);
    }
}

fn add_clauses(
    rt: &impl Abort,
    alloc: Global,
    builder: &mut InstanceBuilder,
    clauses: &[Literals],
) {
    for clause in clauses {
        let lits = lits_of(rt, alloc, clause);
        add_clause(rt, builder, &lits);
    }
}

/// A builder that was told all that is written.
pub fn builder_of(rt: &impl Abort, alloc: Global, written: &Written) -> InstanceBuilder {
    let mut builder = InstanceBuilder::new(alloc);
    if let Some(sum) = written.objective {
        let terms = terms_of(rt, alloc, sum);
        set_objective(rt, &mut builder, &terms);
    }
    add_sums(rt, alloc, &mut builder, written.sums);
    add_clauses(rt, alloc, &mut builder, written.clauses);
    builder
}

/// The instance, built statement by statement.
pub fn built(rt: &impl Abort, alloc: Global, written: &Written) -> Instance {
    let builder = builder_of(rt, alloc, written);
    builder.finish(written.vars).ok().expect(rt, "an instance")
}

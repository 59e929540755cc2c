//! Literals, forms, multipliers and cubes, from numbers.

ghost use Rattle.std.specs.Prelude.{◌≡◌, ◌≤◌, true, All};

use pb_count::Coefficient;
use pb_dual::Multipliers;
use pb_engine::Step;
use pb_inst::{Cube, Instance, InstanceBuilder, Lit, Number, Relation, Term};
use pb_normal::{Form, Normal, form_of, normalise};
use std::alloc::Global;
use std::process::Abort;

/// Coefficients and literals.
pub type Terms<'c> = &'c [(Number, i32)];

/// The literal of the variable of this number, negated where it is below 0.
pub fn lit(rt: &impl Abort, number: i32) -> Lit {
    Lit::new(number.unsigned_abs(), number > 0).expect(rt, "a variable")
}

/// Whether a step ended without a conflict.
pub fn is_fixed(step: Step) -> bool {
    matches!(step, Step::Fixed)
}

/// Whether the literal has this number.
pub fn is_lit(lit: Lit, number: i32) -> bool {
    lit.var() == number.unsigned_abs() && lit.positive() == (number > 0)
}

fn terms_of(rt: &impl Abort, alloc: Global, terms: Terms<'_>) -> Vec<Term> {
    let mut made = Vec::new(alloc);
    for (coef, number) in terms {
        let term = Term {
            coef: *coef,
            lit: lit(rt, *number),
        };
        made.push(term).expect(rt, "memory");
    }
    made
}

/// The instance of an objective and constraints of `>=`, each a list of coefficients and literals and a bound.
fn instance(
    rt: &impl Abort,
    alloc: Global,
    vars: u32,
    objective: Terms<'_>,
    rows: &[(Terms<'_>, Number)],
) -> Instance {
    let mut builder = InstanceBuilder::new(alloc);
    builder
        .set_objective(&terms_of(rt, alloc, objective))
        .expect(rt, "an objective");
    for (row, bound) in rows {
        builder
            .add(&terms_of(rt, alloc, row), Relation::AtLeast, *bound)
            .expect(rt, "a constraint");
    }
    finished(rt, builder, vars)
}

/// The instance of `vars` variables that the builder makes.
pub fn finished(rt: &impl Abort, builder: InstanceBuilder, vars: u32) -> Instance {
    builder.finish(vars).ok().expect(rt, "an instance")
}

/// The normal form of such an instance, at this width.
pub fn form<C: Coefficient>(
    rt: &impl Abort,
    alloc: Global,
    vars: u32,
    objective: Terms<'_>,
    rows: &[(Terms<'_>, Number)],
) -> Form<C> {
    let instance = instance(rt, alloc, vars, objective, rows);
    form_of(alloc, &instance).expect(rt, "memory")
}

/// The normal form of such an instance, at the width that it needs.
pub fn normal(
    rt: &impl Abort,
    alloc: Global,
    vars: u32,
    objective: Terms<'_>,
    rows: &[(Terms<'_>, Number)],
) -> Normal {
    let instance = instance(rt, alloc, vars, objective, rows);
    normalise(alloc, &instance).expect(rt, "memory")
}

/// Multipliers of the form, with room for `room` changes.
pub fn multipliers<C: Coefficient>(
    rt: &impl Abort,
    alloc: Global,
    form: &Form<C>,
    room: usize,
) -> Multipliers<C> {
    Multipliers::new(alloc, form, room)
        .expect(rt, "memory")
        .expect(rt, "a scale")
}

/// The cubes of these literals.
pub fn cubes(rt: &impl Abort, alloc: Global, cubes: &[&[i32]]) -> Vec<Cube> {
    let mut made = Vec::new(alloc);
    for cube in cubes {
        made.push(cube_of(rt, alloc, cube)).expect(rt, "memory");
    }
    made
}

fn cube_of(rt: &impl Abort, alloc: Global, numbers: &[i32]) -> Cube {
    let mut lits = Vec::new(alloc);
    for number in numbers {
        lits.push(lit(rt, *number)).expect(rt, "memory");
    }
    Cube::new(alloc, &lits).expect(rt, "memory")
}

/// Whether the literals are of the variables 1 to `vars`.
fn is_within(lits: &[Lit], vars: u32) -> bool
    ensures { result ≡ true → All (λ l. l.var ≤ vars) lits.now }
{
    for lit in lits {
        if lit.var() > vars {
            return false;
        }
    }
    true
}

/// Whether the literals of all cubes are of the variables 1 to `vars`.
pub fn are_within(cubes: &[Cube], vars: u32) -> bool
    ensures { result ≡ true → All (λ cube. All (λ l. l.var ≤ vars) cube) cubes.now }
{
    for cube in cubes {
        if !is_within(cube.lits(), vars) {
            return false;
        }
    }
    true
}

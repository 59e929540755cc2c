//! Instances that are built, sums at both ends of their range, and what is found with its cost.

ghost use Rattle.std.specs.Prelude.{◌≡◌, length};

use super::written::{
    Inequality, MOST, MOST_OF_64_BITS, Sum, Written, builder_of, built, is_written, terms_of,
};
use pb_inst::{
    Assignment, Best, InstFault, Instance, InstanceBuilder, Number, Relation, Terms, precedes,
};
use std::alloc::Global;
use std::process::Abort;

const WORKED: Written = Written {
    vars: 3,
    objective: Some(&[(2, 1), (3, 2), (1, 3)]),
    sums: &[
        (&[(1, 1), (1, 2)], Relation::AtLeast, 1),
        (&[(1, 2), (1, 3)], Relation::AtLeast, 1),
    ],
    clauses: &[&[1, -3, 2]],
};

/// Coefficients at both ends of 64 bits, the number after each end, and small ones.
const OF_BOTH_WIDTHS: Written = Written {
    vars: 2,
    objective: None,
    sums: &[
        (
            &[(MOST_OF_64_BITS, 1), (-MOST_OF_64_BITS - 1, 2)],
            Relation::AtLeast,
            0,
        ),
        (&[(MOST_OF_64_BITS + 1, 1), (7, 2)], Relation::AtMost, 0),
        (&[(2, 1), (3, 2)], Relation::Equal, 0),
    ],
    clauses: &[&[-2]],
};

const HALVES: Sum = &[(MOST - 1, 1), (1, 1)];

const NEGATIVE: Sum = &[(-MOST, 1)];

const LOWEST: Sum = &[(Number::MIN, 1)];

/// Sums at both ends of their range.
const AT_THE_ENDS: Written = Written {
    vars: 3,
    objective: Some(HALVES),
    sums: &[
        (HALVES, Relation::AtLeast, 0),
        (&[(1 - MOST, 1)], Relation::AtMost, -1),
        (NEGATIVE, Relation::AtMost, 0),
    ],
    clauses: &[],
};

const BEYOND_THE_ENDS: &[Inequality] = &[
    (HALVES, Relation::AtLeast, 1),
    (NEGATIVE, Relation::Equal, 1),
    (LOWEST, Relation::AtLeast, 0),
    (&[], Relation::AtLeast, Number::MIN),
];

/// The absolute coefficients of the second one add up to 2^128, which is 0 in 128 bits.
const OBJECTIVES_BEYOND_THE_ENDS: &[Sum] = &[LOWEST, &[(Number::MIN, 1), (Number::MIN, 1)]];

/// No constraints: the cost is that of the first variable.
const GREATEST_COST: Written = Written {
    vars: 3,
    objective: Some(&[(MOST, 1)]),
    sums: &[],
    clauses: &[],
};

const LEAST_COST: Written = Written {
    vars: 3,
    objective: Some(NEGATIVE),
    sums: &[],
    clauses: &[],
};

/// Instances, values of their three variables, and what these values cost where they are feasible.
const CHECKED: &[(Written, [bool; 3], Option<Number>)] = &[
    (WORKED, [true, false, true], Some(3)),
    (WORKED, [false, true, false], Some(3)),
    (WORKED, [false, false, false], None),
    (AT_THE_ENDS, [false, false, false], None),
    (AT_THE_ENDS, [true, false, false], Some(MOST)),
    (GREATEST_COST, [false, true, true], Some(0)),
    (GREATEST_COST, [true, false, false], Some(MOST)),
    (LEAST_COST, [false, true, true], Some(0)),
    (LEAST_COST, [true, false, false], Some(-MOST)),
];

/// Whether the terms are copied as they are lent, in place of what the list held.
fn are_copied(rt: &impl Abort, alloc: Global, terms: &Terms<'_>) -> bool {
    let mut list = terms_of(rt, alloc, HALVES);
    if terms.copy_into(&mut list).is_err() {
        terms.copy_into(&mut list).expect(rt, "a list");
    }
    for i in 0..terms.len() {
        if list.get(i) != Some(&terms.get(i)) {
            return false;
        }
    }
    list.len() == terms.len()
}

/// Whether the terms of all constraints are copied as they are lent.
fn all_are_copied(rt: &impl Abort, alloc: Global, instance: &Instance) -> bool {
    for i in 0..instance.len() {
        if !are_copied(rt, alloc, &instance.constraint(i).terms) {
            return false;
        }
    }
    true
}

/// Whether what is built is as written, and its terms are copied as they are lent.
fn is_built(rt: &impl Abort, alloc: Global, written: &Written) -> bool {
    let instance = built(rt, alloc, written);
    is_written(&instance, written) && all_are_copied(rt, alloc, &instance)
}

#[test]
fn what_was_added_is_built(rt: HostRuntime) {
    assert!(rt; is_built(&rt, rt.alloc(), &WORKED));
    assert!(rt; is_built(&rt, rt.alloc(), &OF_BOTH_WIDTHS));
}

/// The instance of `vars` variables that the builder makes.
fn finished(rt: &impl Abort, builder: InstanceBuilder, vars: u32) -> Instance {
    builder.finish(vars).ok().expect(rt, "an instance")
}

#[test]
fn what_is_reopened_is_as_it_was(rt: HostRuntime) {
    let instance = built(&rt, rt.alloc(), &WORKED);
    let builder = InstanceBuilder::reopen(rt.alloc(), instance);
    let instance = finished(&rt, builder, 3);
    assert!(rt; is_written(&instance, &WORKED));
}

/// What the builder says against a constraint.
fn refusal(
    rt: &impl Abort,
    alloc: Global,
    builder: &mut InstanceBuilder,
    (sum, relation, bound): Inequality,
) -> Option<InstFault> {
    let terms = terms_of(rt, alloc, sum);
    builder.add(&terms, relation, bound).err()
}

/// What the builder says against an objective.
fn objective_refusal(
    rt: &impl Abort,
    alloc: Global,
    builder: &mut InstanceBuilder,
    sum: Sum,
) -> Option<InstFault> {
    let terms = terms_of(rt, alloc, sum);
    builder.set_objective(&terms).err()
}

/// Whether all that lies beyond the ends is too large for the builder.
fn refuses_all(rt: &impl Abort, alloc: Global, builder: &mut InstanceBuilder) -> bool {
    for inequality in BEYOND_THE_ENDS {
        let told = refusal(rt, alloc, builder, *inequality);
        if !matches!(told, Some(InstFault::TooLarge)) {
            return false;
        }
    }
    true
}

/// Whether all objectives that lie beyond the ends are too large for the builder.
fn refuses_all_objectives(rt: &impl Abort, alloc: Global, builder: &mut InstanceBuilder) -> bool {
    for sum in OBJECTIVES_BEYOND_THE_ENDS {
        let told = objective_refusal(rt, alloc, builder, sum);
        if !matches!(told, Some(InstFault::TooLarge)) {
            return false;
        }
    }
    true
}

#[test]
fn refusals_change_nothing(rt: HostRuntime) {
    let alloc = rt.alloc();
    let mut builder = builder_of(&rt, alloc, &AT_THE_ENDS);
    assert!(rt; refuses_all(&rt, alloc, &mut builder));
    assert!(rt; refuses_all_objectives(&rt, alloc, &mut builder));
    let small = builder.finish(0).err().expect(&rt, "a variable over 0");
    assert!(rt; matches!(small.fault, InstFault::BadVariable));
    let instance = finished(&rt, small.builder, 3);
    assert!(rt; is_written(&instance, &AT_THE_ENDS));
}

fn assignment(rt: &impl Abort, alloc: Global, values: [bool; 3]) -> Assignment
    ensures { length result ≡ 3 }
{
    let mut assignment = zeros(rt, alloc, 3);
    assignment.set(1, values[0]);
    assignment.set(2, values[1]);
    assignment.set(3, values[2]);
    assignment
}

/// The assignment that makes no variable true.
pub fn zeros(rt: &impl Abort, alloc: Global, n: u32) -> Assignment
    ensures { length result ≡ n }
{
    match Assignment::new(alloc, n) {
        Ok(assignment) => assignment,
        Err(_) => Assignment::new(alloc, n).expect(rt, "an assignment"),
    }
}

/// What the values cost in the instance, where they are feasible.
fn cost(rt: &impl Abort, alloc: Global, written: &Written, values: [bool; 3]) -> Option<Number> {
    let instance = built(rt, alloc, written);
    assert!(rt; instance.vars() == 3);
    instance.check(&assignment(rt, alloc, values))
}

#[test]
fn checks_and_their_costs(rt: HostRuntime) {
    for (i, (written, values, expected)) in CHECKED.iter().enumerate() {
        assert!(rt;
            cost(&rt, rt.alloc(), written, *values) == *expected,
            "row {i}"
        );
    }
}

fn nothing_yet<'i>(rt: &impl Abort, alloc: Global, instance: &'i Instance) -> Best<'i>
    ensures { result.problem ≡ instance.now }
{
    if let Ok(best) = Best::none(alloc, instance) {
        return best;
    }
    Best::none(alloc, instance).expect(rt, "a place for the best")
}

/// How many leading zeros the values that are held have, where these values are taken.
fn taken(best: &mut Best<'_>, values: &Assignment) -> Option<u32>
    requires { length values.now ≡ best.old.problem.vars }
    ensures { best.new.problem ≡ best.old.problem }
{
    if best.take(values) {
        return Some(best.leading_zeros());
    }
    None
}

/// Whether the later of two assignments with the same cost is taken, then the earlier one, and after that neither the later one
/// again nor an infeasible one.
fn are_taken_in_turn(rt: &impl Abort, alloc: Global, best: &mut Best<'_>) -> bool
    requires { best.old.problem.vars ≡ 3 }
{
    let later = assignment(rt, alloc, [true, false, true]);
    let first = assignment(rt, alloc, [false, true, false]);
    let none = assignment(rt, alloc, [false, false, false]);
    let (one, two) = (taken(best, &later), taken(best, &first));
    let (three, four) = (taken(best, &later), taken(best, &none));
    matches!((one, two), (Some(0), Some(1))) && three.is_none() && four.is_none()
}

#[test]
fn what_comes_before_is_taken(rt: HostRuntime) {
    let instance = built(&rt, rt.alloc(), &WORKED);
    assert!(rt; instance.vars() == 3);
    let mut best = nothing_yet(&rt, rt.alloc(), &instance);
    assert!(rt; best.assignment().is_none());
    assert!(rt; are_taken_in_turn(&rt, rt.alloc(), &mut best));
    assert!(rt; best.cost() == Some(3));
}

#[test]
fn of_equal_costs_the_order_decides(rt: HostRuntime) {
    let later = assignment(&rt, rt.alloc(), [true, false, true]);
    let first = assignment(&rt, rt.alloc(), [false, true, false]);
    assert!(rt; precedes(3, &first, 3, &later));
}

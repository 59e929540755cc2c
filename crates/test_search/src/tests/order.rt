//! The order of decisions: which variable comes first, what is put back, and what gains do to it.

use super::instances::{costing, finished, lit, terms};
use pb_inst::{Number, Relation};
use pb_normal::form_of;
use pb_order::{Gain, Order};
use std::alloc::Global;
use std::process::Abort;

/// What is done with an order, or what it is to tell.
#[derive(Clone, Copy)]
enum Step<'a> {
    /// These variables come in this order and are passed over; then this number of variables are left.
    Passes(u32, &'a [u32]),
    /// This literal comes first.
    First(i32),
    /// Nothing comes first, and nothing is left once that is passed over.
    Empty,
    Bump(i32),
    /// What was passed over is put back, until this number of variables are left.
    Return(u32),
    /// Decisions for these literals in turn raised the bound by these gains, this number of times.
    Learn(&'a [(i32, Gain)], u32),
    LeadByGains,
}

/// The weights that variables add to the one row, their costs, and the steps. Before any conflict, variables that cost the same
/// are ordered by their weights.
type Case<'a> = (&'a [(Number, i32)], &'a [(Number, i32)], &'a [Step<'a>]);

/// The greatest activity comes first.
const BY_ACTIVITY: Case<'_> = (
    &[
        (3, 1),
        (5, 2),
        (5, 3),
        (1, 4),
        (9, 5),
        (5, 6),
        (0, 7),
        (8, 8),
    ],
    &[
        (0, 1),
        (0, 2),
        (0, 3),
        (0, 4),
        (0, 5),
        (0, 6),
        (0, 7),
        (0, 8),
    ],
    &[Step::Passes(0, &[5, 8, 2, 3, 6, 1, 4, 7]), Step::Empty],
);

/// What is put back comes by its new activity.
const PUT_BACK: Case<'_> = (
    &[(3, 1), (5, 2), (4, 3), (4, 4), (9, 5)],
    &[(0, 1), (0, 2), (0, 3), (0, 4), (0, 5)],
    &[
        Step::Passes(2, &[5, 2, 3]),
        Step::Bump(4),
        Step::First(4),
        Step::Bump(-3),
        Step::First(4),
        Step::Return(4),
        Step::Passes(0, &[3, 4, 2, 1]),
        Step::Return(5),
        Step::Passes(0, &[3, 4, 5, 2, 1]),
    ],
);

/// A variable that is not there has no activity.
const NOT_THERE: Case<'_> = (
    &[(1, 1), (2, 2)],
    &[(0, 1), (0, 2)],
    &[Step::Bump(3), Step::Passes(0, &[2, 1])],
);

/// What two variables gained counts beside their activities once gains lead, in both directions.
const GAINS: Case<'_> = (
    &[(3, 1), (5, 2), (4, 3), (4, 4)],
    &[(1, 1), (1, 2), (1, 3), (1, 4)],
    &[
        Step::Learn(&[(1, 900), (2, 1)], 9),
        Step::First(-2),
        Step::LeadByGains,
        Step::Passes(0, &[1, 3, 4, 2]),
        Step::Return(4),
        Step::Learn(&[(1, 1)], 99),
        Step::Passes(0, &[3, 4, 1, 2]),
    ],
);

/// The order of the variables of these weights and costs.
fn order_of(
    rt: &impl Abort,
    alloc: Global,
    weights: &[(Number, i32)],
    costs: &[(Number, i32)],
) -> Order {
    let mut builder = costing(rt, alloc, costs);
    let row = terms(rt, alloc, weights);
    builder
        .add(&row, Relation::AtLeast, 10)
        .expect(rt, "a constraint");
    let vars = u32::try_from(weights.len()).unwrap_or(0);
    let instance = finished(rt, builder, vars);
    let form = form_of::<u64>(alloc, &instance).ok().expect(rt, "a form");
    Order::new(alloc, &form, &[]).expect(rt, "memory")
}

/// Passes over these variables. Answers whether they came first, in this order, and `left` variables are left then.
fn passes(order: &mut Order, left: u32, vars: &[u32]) -> bool {
    let mut is_right = true;
    for var in vars {
        is_right &= match order.first() {
            Some(lit) => lit.var() == *var,
            None => false,
        };
        order.pass();
    }
    is_right && order.left() == left
}

/// Decisions for these literals in turn raised the bound by these gains, `times` times.
fn learn(rt: &impl Abort, order: &mut Order, gains: &[(i32, Gain)], times: u32) {
    for _ in 0..times {
        for (number, gain) in gains {
            order.learn(lit(rt, *number), *gain);
        }
    }
}

/// Does the step, and says whether the order tells what it is to tell.
fn is_right(rt: &impl Abort, order: &mut Order, step: Step<'_>) -> bool {
    match step {
        Step::Passes(left, vars) => return passes(order, left, vars),
        Step::First(number) => return order.first() == Some(lit(rt, number)),
        Step::Empty => {
            let is_empty = order.first().is_none();
            order.pass();
            return is_empty && order.left() == 0;
        }
        Step::Bump(number) => order.bump(lit(rt, number)),
        Step::Return(left) => order.return_to(left),
        Step::Learn(gains, times) => learn(rt, order, gains, times),
        Step::LeadByGains => order.lead_by_gains(true),
    }
    true
}

/// Whether the order of the case tells in each step what it is to tell.
fn goes_as_told(rt: &impl Abort, alloc: Global, case: Case<'_>) -> bool {
    let (weights, costs, steps) = case;
    let mut order = order_of(rt, alloc, weights, costs);
    let mut is_told = true;
    for step in steps {
        is_told &= is_right(rt, &mut order, *step);
    }
    is_told
}

#[test]
fn steps_with_an_order(rt: HostRuntime) {
    let alloc = rt.alloc();
    assert!(rt; goes_as_told(&rt, alloc, BY_ACTIVITY));
    assert!(rt; goes_as_told(&rt, alloc, PUT_BACK));
    assert!(rt; goes_as_told(&rt, alloc, NOT_THERE));
    assert!(rt; goes_as_told(&rt, alloc, GAINS));
}

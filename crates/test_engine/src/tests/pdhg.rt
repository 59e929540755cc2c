//! Multipliers and a point of a first-order method, beside worked rows.

use super::forms::{Terms, form, is_lit, lit, multipliers};
use pb_count::Coefficient;
use pb_inst::{Magnitude, Number};
use pb_normal::Form;
use pb_saddle::Pdhg;
use std::alloc::Global;
use std::process::Abort;

/// Of each two of three variables one is needed, and each costs 2 units. The least cost of the relaxation is 3 units, at a half
/// of each.
fn triangle<C: Coefficient>(rt: &impl Abort, alloc: Global, unit: Number) -> Form<C> {
    let cost = unit.saturating_mul(2);
    let objective: Terms<'_> = &[(cost, 1), (cost, 2), (cost, 3)];
    let rows: &[(Terms<'_>, Number)] = &[
        (&[(1, 1), (1, 2)], 1),
        (&[(1, 2), (1, 3)], 1),
        (&[(1, 1), (1, 3)], 1),
    ];
    form(rt, alloc, 3, objective, rows)
}

/// Checks that the bound rises to 3 units, less a sixteenth of a unit at most.
fn rises<C: Coefficient>(rt: &impl Abort, alloc: Global, unit: Number) {
    let form: Form<C> = triangle(rt, alloc, unit);
    let mut multipliers = multipliers(rt, alloc, &form, 8);
    let mut pdhg = Pdhg::new(alloc, &form).expect(rt, "memory");
    let numbers = pdhg.improve(&mut multipliers, 200, Number::MAX);
    assert!(rt; numbers > 0);
    let least = unit.saturating_mul(3);
    assert!(rt; multipliers.bound() <= least);
    assert!(rt; multipliers.bound() >= least.saturating_sub(unit / 16));
}

#[test]
fn the_bound_comes_to_that_of_the_relaxation(rt: HostRuntime) {
    rises::<u64>(&rt, rt.alloc(), 1);
    rises::<u64>(&rt, rt.alloc(), 1_000);
    rises::<Magnitude>(&rt, rt.alloc(), 1 << 90);
}

/// Where one variable is true only one row of the two others is left, which costs 2 more.
#[test]
fn met_rows_are_left_out(rt: HostRuntime) {
    let alloc = rt.alloc();
    let form: Form<u64> = triangle(&rt, alloc, 1);
    let mut multipliers = multipliers(&rt, alloc, &form, 8);
    let first = lit(&rt, 1);
    if multipliers.is_free(first) {
        multipliers.assign(first);
    }
    let mut pdhg = Pdhg::new(alloc, &form).expect(&rt, "memory");
    pdhg.improve(&mut multipliers, 200, Number::MAX);
    assert!(rt; multipliers.bound() == 4);
    pdhg.approach(&multipliers, 200);
    assert!(rt; pdhg.planned(1).is_some());
    assert!(rt; pdhg.planned(2).is_none());
}

/// A point of whole values plans each of them, and first those that would cost most to leave.
#[test]
fn a_point_is_planned_by_what_it_leaves_open(rt: HostRuntime) {
    let alloc = rt.alloc();
    let objective: Terms<'_> = &[(1, 1), (9, 2), (3, 3)];
    let rows: &[(Terms<'_>, Number)] = &[(&[(1, 1), (1, 2)], 1)];
    let form: Form<u64> = form(&rt, alloc, 3, objective, rows);
    let multipliers = multipliers(&rt, alloc, &form, 8);
    let mut pdhg = Pdhg::new(alloc, &form).expect(&rt, "memory");
    pdhg.approach(&multipliers, 300);
    assert!(rt; pdhg.value(1) > 0.9);
    assert!(rt; pdhg.value(2) < 0.1);
    assert!(rt; pdhg.value(4) == 0.0);
    for (place, number) in [1, -2, -3].iter().enumerate() {
        let planned = pdhg.planned(place).expect(&rt, "a literal");
        assert!(rt; is_lit(planned, *number));
    }
}

/// Whether multipliers refute that of three variables at least `some` are true, and at least `others` are false.
fn is_refuted(rt: &impl Abort, alloc: Global, some: Number, others: Number) -> bool {
    let rows: &[(Terms<'_>, Number)] = &[
        (&[(1, 1), (1, 2), (1, 3)], some),
        (&[(1, -1), (1, -2), (1, -3)], others),
    ];
    let form: Form<u64> = form(rt, alloc, 3, &[], rows);
    let mut multipliers = multipliers(rt, alloc, &form, 8);
    let mut pdhg = Pdhg::new(alloc, &form).expect(rt, "memory");
    pdhg.refute(&mut multipliers, 25);
    multipliers.refutes()
}

#[test]
fn what_nothing_meets_is_refuted(rt: HostRuntime) {
    assert!(rt; is_refuted(&rt, rt.alloc(), 2, 2));
    assert!(rt; !is_refuted(&rt, rt.alloc(), 2, 1));
}

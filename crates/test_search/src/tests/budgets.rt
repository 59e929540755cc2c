//! A search that runs again after it was cut. `tests/runs/budgets.py` has worked instances with budgets of decisions.

ghost use Rattle.std.specs.Prelude.{◌≡◌};

use super::instances::{Cover, instance};
use super::lenders::Lender;
use super::searches::{Run, WHOLE, search_each};
use super::values::{holding, told};

/// No pair of values is left of two variables.
const NO_PAIR: Cover<'_> = Cover {
    vars: 2,
    costs: &[],
    pairs: &[(1, 2), (1, -2), (-1, 2), (-1, -2)],
};

/// A first value and a second one are a decision each. A run without a budget leaves the count as it was.
const RUNS: &[&[Run]] = &[
    &[WHOLE],
    &[(Some(1), true, 1), (Some(1), true, 1), (None, false, 1)],
    &[(Some(1), true, 1), (Some(3), false, 2)],
];

#[test]
fn decisions_are_counted_anew_in_each_run(rt: HostRuntime) {
    let alloc = rt.alloc();
    let instance = instance(&rt, alloc, NO_PAIR);
    for runs in RUNS {
        let mut best = holding(&rt, alloc, &instance, None);
        let mut share = Lender::new(&[], false);
        assert!(rt; search_each(&rt, alloc, &instance, runs, &mut best, &mut share));
        assert!(rt; told(&best).is_none());
    }
}

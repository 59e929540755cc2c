//! Which literals an engine fixes. No answer rests on it: what is fixed saves decisions.

use super::forms::form;
use pb_engine::{EngineAt, Fixed};
use pb_inst::Number;
use pb_normal::Form;
use std::alloc::Global;
use std::process::Abort;

const LIMIT: Number = 5;

/// The variable and the value.
fn shown(fixed: Option<Fixed>) -> Option<(u32, bool)> {
    let fixed = fixed?;
    Some((fixed.lit.var(), fixed.lit.positive()))
}

/// What the first two calls fix at the first node, where the last of many variables alone costs more than the limit leaves room
/// for.
fn first_fixed(rt: &impl Abort, alloc: Global) -> [Option<(u32, bool)>; 2] {
    let costs = &[(1, 1), (1, 2), (10, 600)];
    let form: Form<u64> = form(rt, alloc, 600, costs, &[(&[(1, 1), (1, 2)], 1)]);
    let mut engine = EngineAt::new(alloc, &form, &[]).expect(rt, "memory");
    let bound = engine.bound();
    engine.relaxed_bound(bound, Number::MAX);
    let first = shown(engine.fixed_literal(LIMIT));
    [first, shown(engine.fixed_literal(LIMIT))]
}

// At the root one call looks among all variables. Nothing is assumed between the two, so the second one finds the same.
#[test]
fn literals_of_late_variables_are_fixed(rt: HostRuntime) {
    assert!(rt; first_fixed(&rt, rt.alloc()) == [Some((600, false)), Some((600, false))]);
}

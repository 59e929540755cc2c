//! Values of up to 128 variables, in words as an assignment has them.

ghost use Rattle.std.specs.Prelude.{◌≡◌, length};

use pb_inst::{Assignment, Best, Instance, Number};
use std::alloc::Global;
use std::process::Abort;

/// The first 64 variables, the first one lowest, and the others.
pub type Values = (u64, u64);

/// Gives the variables these values.
pub fn set(assignment: &mut Assignment, values: Values)
    ensures { length assignment.new ≡ length assignment.old }
{
    if assignment.len() > 0 {
        assignment.set_word(0, values.0);
    }
    if assignment.len() > 64 {
        assignment.set_word(1, values.1);
    }
}

/// Holds these values, or nothing where none are given.
pub fn holding<'i>(
    rt: &impl Abort,
    alloc: Global,
    instance: &'i Instance,
    held: Option<Values>,
) -> Best<'i>
    ensures { result.problem ≡ instance.now }
{
    let mut best = Best::none(alloc, instance).expect(rt, "memory");
    if let Some(values) = held {
        let mut assignment = Assignment::new(alloc, instance.vars()).expect(rt, "memory");
        set(&mut assignment, values);
        assert!(rt; best.take(&assignment));
    }
    best
}

/// The cost and the values that are held, if any are.
pub fn told(best: &Best<'_>) -> Option<(Number, u64, u64)> {
    let (Some(cost), Some(held)) = (best.cost(), best.assignment()) else {
        return None;
    };
    let first = if held.len() > 0 { held.word(0) } else { 0 };
    let other = if held.len() > 64 { held.word(1) } else { 0 };
    Some((cost, first, other))
}

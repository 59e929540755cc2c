//! Engines over normal forms, at the width that each needs.

use super::forms::{Terms, are_within, cubes, is_fixed, lit, normal};
use pb_engine::{Engine, Step};
use pb_inst::{Cube, Number};
use pb_normal::{Normal, Width};
use std::alloc::Global;
use std::process::Abort;

/// What an engine says: the values of its three variables, its level, whether a conflict stands, and its bound.
type Look = ([Option<bool>; 3], u32, bool, Number);

/// What x3 costs, and the row `3 x1 2 x2 1 x3 >= 4`.
const COSTS: Terms<'static> = &[(1, 3)];

const ROWS: &[(Terms<'static>, Number)] = &[(&[(3, 1), (2, 2), (1, 3)], 4)];

/// A factor so great that 64 bits do not hold what is multiplied by it.
const TIMES: Number = 1 << 62;

const WIDE_COSTS: Terms<'static> = &[(TIMES, 3)];

const WIDE_ROWS: &[(Terms<'static>, Number)] = &[(
    &[(3 * TIMES, 1), (2 * TIMES, 2), (TIMES, 3)],
    4 * TIMES,
)];

fn is_wide(normal: &Normal) -> bool {
    match normal.form() {
        Width::Narrow(_) => false,
        Width::Wide(_) => true,
    }
}

fn engine(rt: &impl Abort, alloc: Global, normal: &Normal, negated: &[Cube]) -> Engine {
    assert!(rt; are_within(negated, normal.vars()));
    Engine::new(alloc, normal, negated).expect(rt, "memory")
}

fn propagate(rt: &impl Abort, engine: &mut Engine) -> Step {
    assert!(rt; !engine.conflict());
    engine.propagate()
}

fn assume(rt: &impl Abort, engine: &mut Engine, number: i32) -> Step {
    let lit = lit(rt, number);
    assert!(rt; lit.var() <= engine.vars());
    assert!(rt; engine.value(lit.var()).is_none());
    assert!(rt; !engine.conflict());
    engine.assume(lit)
}

fn undo_to(rt: &impl Abort, engine: &mut Engine, level: u32) {
    assert!(rt; level <= engine.level());
    engine.undo_to(level);
}

fn look(engine: &mut Engine) -> Look {
    let values = [engine.value(1), engine.value(2), engine.value(3)];
    (values, engine.level(), engine.conflict(), engine.bound())
}

/// Decides x2 against the row, and takes it back.
fn decide_and_undo(rt: &impl Abort, alloc: Global, normal: &Normal, cost: Number) {
    let mut engine = engine(rt, alloc, normal, &[]);
    assert!(rt; is_fixed(propagate(rt, &mut engine)));
    assert!(rt; look(&mut engine) == ([Some(true), None, None], 0, false, 0));
    assert!(rt; is_fixed(assume(rt, &mut engine, -2)));
    assert!(rt; is_fixed(propagate(rt, &mut engine)));
    let decided = [Some(true), Some(false), Some(true)];
    assert!(rt; look(&mut engine) == (decided, 1, false, cost));
    undo_to(rt, &mut engine, 0);
    assert!(rt; look(&mut engine) == ([Some(true), None, None], 0, false, 0));
}

/// Not both x1 and x3: with the row this leaves one solution.
fn negate_a_cube(rt: &impl Abort, alloc: Global, normal: &Normal) {
    let negated = cubes(rt, alloc, &[&[1, 3]]);
    let mut engine = engine(rt, alloc, normal, &negated);
    assert!(rt; is_fixed(propagate(rt, &mut engine)));
    let forced = [Some(true), Some(true), Some(false)];
    assert!(rt; look(&mut engine) == (forced, 0, false, 0));
}

/// Not x1, without which the row cannot be met.
fn conflict_and_undo(rt: &impl Abort, alloc: Global, normal: &Normal) {
    let negated = cubes(rt, alloc, &[&[1]]);
    let mut engine = engine(rt, alloc, normal, &negated);
    assert!(rt; !is_fixed(propagate(rt, &mut engine)));
    assert!(rt; engine.conflict());
    undo_to(rt, &mut engine, 0);
    assert!(rt; !engine.conflict());
}

#[test]
fn an_engine_of_either_width(rt: HostRuntime) {
    let alloc = rt.alloc();
    let narrow = normal(&rt, alloc, 3, COSTS, ROWS);
    assert!(rt; !is_wide(&narrow));
    decide_and_undo(&rt, alloc, &narrow, 1);
    let wide = normal(&rt, alloc, 3, WIDE_COSTS, WIDE_ROWS);
    assert!(rt; is_wide(&wide));
    decide_and_undo(&rt, alloc, &wide, TIMES);
}

#[test]
fn cubes_are_negated_at_either_width(rt: HostRuntime) {
    let alloc = rt.alloc();
    let narrow = normal(&rt, alloc, 3, COSTS, ROWS);
    negate_a_cube(&rt, alloc, &narrow);
    conflict_and_undo(&rt, alloc, &narrow);
    let wide = normal(&rt, alloc, 3, WIDE_COSTS, WIDE_ROWS);
    negate_a_cube(&rt, alloc, &wide);
    conflict_and_undo(&rt, alloc, &wide);
}

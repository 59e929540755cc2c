//! Clauses of cubes, and a row of a million literals.

use super::courses::{Course, Move};
use super::forms::{form, is_fixed};
use super::player::Player;
use pb_engine::Step;
use pb_inst::Number;
use std::alloc::Global;
use std::process::Abort;

const OF_CUBES: [Course<'static>; 4] = [
    // a cube that is nearly true forces a literal
    Course {
        vars: 3,
        costs: &[],
        rows: &[],
        cubes: &[&[1, -2, 3]],
        moves: &[
            Move::Propagate(Step::Fixed),
            Move::Assume(3),
            Move::Propagate(Step::Fixed),
            Move::Value(2, None),
            Move::Assume(1),
            Move::Propagate(Step::Fixed),
            Move::Value(2, Some(true)),
            Move::UndoTo(1),
            Move::Value(2, None),
            Move::Assume(-2),
            Move::Propagate(Step::Fixed),
            Move::Value(1, Some(false)),
        ],
    },
    // repeats in a cube count once
    Course {
        vars: 3,
        costs: &[],
        rows: &[],
        cubes: &[&[2, 1, 2, 1, 2]],
        moves: &[
            Move::Slack(0, Some(1)),
            Move::Propagate(Step::Fixed),
            Move::Assume(2),
            Move::Slack(0, Some(0)),
            Move::Propagate(Step::Fixed),
            Move::Value(1, Some(false)),
        ],
    },
    // a cube that contradicts itself gives no clause
    Course {
        vars: 3,
        costs: &[],
        rows: &[],
        cubes: &[&[1, 3, -1], &[2]],
        moves: &[
            Move::Rows(1),
            Move::Propagate(Step::Fixed),
            Move::Value(1, None),
            Move::Value(2, Some(false)),
            Move::Value(3, None),
        ],
    },
    // the empty cube conflicts at once
    Course {
        vars: 3,
        costs: &[],
        rows: &[],
        cubes: &[&[]],
        moves: &[
            Move::Propagate(Step::Conflict),
            Move::UndoTo(0),
            Move::Propagate(Step::Conflict),
        ],
    },
];

#[test]
fn cubes_are_clauses(rt: HostRuntime) {
    for (row, course) in OF_CUBES.iter().enumerate() {
        assert!(rt; course.comes_out(&rt, rt.alloc()), "course {row}");
    }
}

/// Makes the variables before `last` false one by one. Answers whether each time `last` has no value until the rows are
/// propagated.
fn refute_all_before(rt: &impl Abort, player: &mut Player, last: i32) -> bool {
    for number in 1..last {
        let fixed = is_fixed(player.assume(rt, number.wrapping_neg()));
        let open = player.value(rt, last.unsigned_abs()).is_none();
        if !fixed || !open || !is_fixed(player.propagate(rt)) {
            return false;
        }
    }
    true
}

/// What `refute_all_before` answers, and whether `last` is true at the end, and has no value once the last assumption is
/// undone.
fn last_is_forced(rt: &impl Abort, player: &mut Player, last: i32) -> bool {
    let refuted = refute_all_before(rt, player, last);
    let forced = matches!(player.value(rt, last.unsigned_abs()), Some(true));
    let level = player.level(rt).saturating_sub(1);
    player.undo_to(rt, level);
    refuted && forced && player.value(rt, last.unsigned_abs()).is_none()
}

/// The sum of a million variables.
fn a_million_literals(rt: &impl Abort, alloc: Global) -> Vec<(Number, i32)> {
    let mut row = Vec::new(alloc);
    for number in 1..=1_000_000 {
        row.push((1, number)).expect(rt, "memory");
    }
    row
}

#[test]
fn the_last_of_a_million_literals_is_forced(rt: HostRuntime) {
    let row = a_million_literals(&rt, rt.alloc());
    let form = form(&rt, rt.alloc(), 1_000_000, &[], &[(&row, 1)]);
    let mut player = Player::new(&rt, rt.alloc(), &form, &[]);
    assert!(rt; last_is_forced(&rt, &mut player, 1_000_000));
}

//! Worked rows: slacks, what is propagated, conflicts and bounds.

use super::courses::{Course, Move};
use super::forms::Terms;
use pb_engine::Step;
use pb_inst::Number;

/// `3 x1 2 x2 1 x3 >= 4`
const THREE: (Terms<'static>, Number) = (&[(3, 1), (2, 2), (1, 3)], 4);

const WORKED: [Course<'static>; 13] = [
    // forces what is greater than the slack
    Course {
        vars: 3,
        costs: &[],
        rows: &[THREE],
        cubes: &[],
        moves: &[
            Move::Slack(0, Some(2)),
            Move::Propagate(Step::Fixed),
            Move::Value(1, Some(true)),
            Move::Value(2, None),
            Move::Assume(-2),
            Move::Slack(0, Some(0)),
            Move::Propagate(Step::Fixed),
            Move::Value(3, Some(true)),
            Move::Level(1),
            Move::UndoTo(0),
            Move::Slack(0, Some(2)),
            Move::Value(1, Some(true)),
            Move::Value(2, None),
            Move::Value(3, None),
            Move::Value(0, None),
            Move::Value(4, None),
        ],
    },
    // puts a slack back after undo
    Course {
        vars: 3,
        costs: &[],
        rows: &[THREE],
        cubes: &[],
        moves: &[
            Move::Propagate(Step::Fixed),
            Move::Assume(2),
            Move::Propagate(Step::Fixed),
            Move::Slack(0, Some(2)),
            Move::Value(3, None),
            Move::UndoTo(0),
            Move::Assume(-3),
            Move::Propagate(Step::Fixed),
            Move::Slack(0, Some(1)),
            Move::Value(2, Some(true)),
        ],
    },
    // a conflict leaves no slack behind
    Course {
        vars: 2,
        costs: &[],
        rows: &[(&[(1, 1), (1, 2)], 1), (&[(1, 1), (1, -2)], 1)],
        cubes: &[],
        moves: &[
            Move::Propagate(Step::Fixed),
            Move::Assume(-1),
            Move::Propagate(Step::Conflict),
            Move::Conflict(true),
            Move::UndoTo(0),
            Move::Conflict(false),
            Move::Slack(0, Some(1)),
            Move::Slack(1, Some(1)),
            Move::Assume(1),
            Move::Propagate(Step::Fixed),
            Move::Value(2, None),
        ],
    },
    // rows that cannot be met are conflicts
    Course {
        vars: 2,
        costs: &[],
        rows: &[(&[(2, 1), (2, 2)], 3), (&[(-2, 1), (-2, 2)], -3)],
        cubes: &[],
        moves: &[Move::Propagate(Step::Conflict)],
    },
    // a row without terms is a conflict
    Course {
        vars: 1,
        costs: &[],
        rows: &[(&[(0, 1)], 1)],
        cubes: &[],
        moves: &[Move::Propagate(Step::Conflict)],
    },
    // bounds by what is paid
    Course {
        vars: 2,
        costs: &[(-2, 1), (3, 2)],
        rows: &[(&[(1, 1), (1, 2)], 1)],
        cubes: &[],
        moves: &[
            Move::Bound(-2),
            Move::Assume(-1),
            Move::Propagate(Step::Fixed),
            Move::Bound(3),
        ],
    },
    // counts only one of two rows that share a variable
    Course {
        vars: 3,
        costs: &[(2, 1), (3, 2), (1, 3)],
        rows: &[(&[(1, 1), (1, 2)], 1), (&[(1, 2), (1, 3)], 1)],
        cubes: &[],
        moves: &[
            Move::Bound(2),
            Move::Assume(1),
            Move::Bound(3),
            Move::UndoTo(0),
            Move::Bound(2),
            Move::Assume(-2),
            Move::Propagate(Step::Fixed),
            Move::Bound(3),
            Move::UndoTo(0),
            Move::Bound(2),
        ],
    },
    // adds up rows that share no variable
    Course {
        vars: 4,
        costs: &[(2, 1), (3, 2), (4, 3), (5, 4)],
        rows: &[(&[(1, 1), (1, 2)], 1), (&[(1, 3), (1, 4)], 1)],
        cubes: &[],
        moves: &[Move::Bound(6), Move::Bound(6)],
    },
    // counts as many literals as the need takes
    Course {
        vars: 3,
        costs: &[(1, 1), (2, 2), (4, 3)],
        rows: &[(&[(1, 1), (1, 2), (1, 3)], 2)],
        cubes: &[],
        moves: &[Move::Bound(2)],
    },
    // bounds by great costs
    Course {
        vars: 2,
        costs: &[(4611686018427387903, 1), (4611686018427387904, 2)],
        rows: &[(&[(1, 1), (1, 2)], 2)],
        cubes: &[],
        moves: &[Move::Bound(9223372036854775806)],
    },
    // tells the row of a conflict
    Course {
        vars: 3,
        costs: &[],
        rows: &[(&[(1, 1), (1, 2)], 1), (&[(1, 1), (1, 3)], 1)],
        cubes: &[&[2, 3]],
        moves: &[
            Move::Assume(-1),
            Move::ConflictRow(None),
            Move::Propagate(Step::Conflict),
            Move::ConflictRow(Some(2)),
            Move::ConflictLits(&[-2, -3]),
            Move::UndoTo(0),
            Move::ConflictRow(None),
        ],
    },
    // lends the terms of rows
    Course {
        vars: 3,
        costs: &[],
        rows: &[(&[(1, 1), (1, 2)], 1), (&[(1, 1), (1, 3)], 1)],
        cubes: &[&[2, 3]],
        moves: &[Move::Lits(2, &[-2, -3]), Move::Lits(1, &[1, 3])],
    },
    // the trail is read by place
    Course {
        vars: 3,
        costs: &[],
        rows: &[],
        cubes: &[],
        moves: &[
            Move::Assume(2),
            Move::Assume(-1),
            Move::TrailLen(2),
            Move::Literal(1, -1),
        ],
    },
];

#[test]
fn worked_rows(rt: HostRuntime) {
    for (row, course) in WORKED.iter().enumerate() {
        assert!(rt; course.comes_out(&rt, rt.alloc()), "course {row}");
    }
}

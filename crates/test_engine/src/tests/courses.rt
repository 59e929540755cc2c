//! What tests do with engines, and what the engines must say then, as tables.

use super::forms::{Terms, cubes, form, is_fixed, is_lit};
use super::player::Player;
use pb_engine::Step;
use pb_inst::{Magnitude, Number};
use std::alloc::Global;
use std::process::Abort;

/// A form, cubes that are to be false, and what is done with an engine over them. A test that is such a table is proved in far
/// less time than one that calls the engine itself, since it holds no engine that it would have to drop.
#[derive(Clone, Copy)]
pub struct Course<'c> {
    pub vars: u32,
    pub costs: Terms<'c>,
    pub rows: &'c [(Terms<'c>, Number)],
    pub cubes: &'c [&'c [i32]],
    pub moves: &'c [Move<'c>],
}

/// What a test does with an engine, or what the engine must say then.
#[derive(Clone, Copy)]
pub enum Move<'c> {
    Assume(i32),
    Propagate(Step),
    UndoTo(u32),
    Rows(usize),
    Slack(usize, Option<Magnitude>),
    Value(u32, Option<bool>),
    Bound(Number),
    Level(u32),
    TrailLen(usize),
    Literal(usize, i32),
    Conflict(bool),
    ConflictRow(Option<usize>),
    ConflictLits(&'c [i32]),
    Lits(usize, &'c [i32]),
}

impl<'c> Course<'c> {
    /// Whether all moves come out as they must.
    pub fn comes_out(&self, rt: &impl Abort, alloc: Global) -> bool {
        let form = form(rt, alloc, self.vars, self.costs, self.rows);
        let cubes = cubes(rt, alloc, self.cubes);
        let mut player = Player::new(rt, alloc, &form, &cubes);
        all_come_out(rt, &mut player, self.moves)
    }
}

/// Makes the moves. Answers whether each comes out as it must.
fn all_come_out(rt: &impl Abort, player: &mut Player, moves: &[Move<'_>]) -> bool {
    for made in moves {
        if !comes_out(rt, player, *made) {
            return false;
        }
    }
    true
}

/// Makes the move. Answers whether it comes out as it must.
fn comes_out(rt: &impl Abort, player: &mut Player, made: Move<'_>) -> bool {
    match made {
        Move::Assume(number) => is_fixed(player.assume(rt, number)),
        Move::Propagate(step) => is_fixed(player.propagate(rt)) == is_fixed(step),
        Move::UndoTo(level) => {
            player.undo_to(rt, level);
            true
        }
        Move::Rows(expected) => player.rows() == expected,
        Move::Slack(row, expected) => player.slack(rt, row) == expected,
        Move::Value(var, expected) => player.value(rt, var) == expected,
        Move::Bound(expected) => player.bound() == expected,
        Move::Level(expected) => player.level(rt) == expected,
        Move::TrailLen(expected) => player.trail_len(rt) == expected,
        Move::Literal(place, expected) => is_lit(player.literal(rt, place), expected),
        Move::Conflict(expected) => player.conflict(rt) == expected,
        Move::ConflictRow(expected) => player.conflict_row(rt) == expected,
        Move::ConflictLits(expected) => player.conflict_has_lits(expected),
        Move::Lits(row, expected) => player.row_has_lits(rt, row, expected),
    }
}

//! The right with which a worker steps on a board.

ghost use Rattle.std.specs.Prelude.{◌≡◌, ◌<◌, ◌≤◌, [], length};
ghost use Rattle.pb_inst.specs.declared.limits.TheConstants.{MAX_WORKERS};
ghost use Rattle.pb_board.specs.Seats.{SeatView};

use crate::view::View;
use std::marker::Model;

/// A worker's right to step on one board. Contracts see which board it is, how many parts of the board the seat has, the
/// numbers that it claimed and the keys that it offered, in order, and the least key that it has seen.
///
/// A board begins with one seat that has all parts, as many as there are workers. [`Board::split`](crate::Board::split)
/// and [`Board::join`](crate::Board::join) pass parts on, so a seat with all parts is the only one.
#[derive(Drop)]
pub struct Seat {
    pub(crate) token: atomic_table::Seat<(), View>,
    pub(crate) parts: u32,
    pub(crate) claims: u64,
}

impl Model for Seat {
    ghost Value = { SeatView };

    ghost view = { λ s. record { board = s.token.table_id; parts = s.token.me.0.parts; claimed = s.token.me.0.claimed; offered = s.token.me.0.offered; seen = s.token.me.0.seen } };

    ghost invariant = { λ s. (s.parts ≡ s.token.me.0.parts) × (s.claims ≡ length s.token.me.0.claimed) × (0 < s.parts) × (s.parts ≤ MAX_WORKERS) × (s.token.me.1 ≡ []) };
}

impl Seat {
    /// How many parts of the board the seat has, at least 1. All seats together have as many as there are workers.
    pub fn parts(&self) -> u32
        ensures number { result ≡ self.now.parts }
        ensures some { 0 < result }
    {
        self.parts
    }

    /// How many numbers the seat has claimed, with those of the seats that were joined into it.
    pub fn claims(&self) -> u64
        ensures { result ≡ length self.now.claimed }
    {
        self.claims
    }
}

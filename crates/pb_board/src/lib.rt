//! The board that workers share: numbers that they claim, the least key that they offered, and a row of words for each
//! worker.
#![tactic(auto)]

mod board;
mod laws;
mod plays;
mod seat;
mod view;

pub use board::{Board, Totals};
pub use laws::rule_laws;
pub use seat::Seat;

//! Lagrangian multipliers for the rows of a normal form, and the lower bound that they give.
//!
//! An assignment that meets a row `sum of a l >= b` also meets each multiple of it by a number of 0 or more. So for
//! multipliers y, the cost of every assignment that meets all rows is at least what the degrees promise, y b, plus the reduced
//! costs of its true literals: what is left of their costs once each row has taken off its coefficients times its multiplier.
//!
//! This crate makes all the promises: that a bound is one, that a fixed literal is forced, and that changes which are taken
//! back leave nothing behind. They hold for any multipliers, so the crates that propose them have nothing of that kind to
//! promise.
//! Source: [G74], [DFJ54], [CJP83]
#![tactic(auto)]

mod changes;
mod multipliers;
mod reduced_costs;
mod saturation;
mod signed;

pub use multipliers::{FIXING_WINDOW, Multipliers};
pub use signed::Signed;

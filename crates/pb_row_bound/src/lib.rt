//! The lower bound by disjoint rows: what the trail pays, and what rows that share no variable without a value add to that.
//!
//! A row asks for its degree. True literals and literals without cost can give a part of it for nothing; the rest, its need,
//! has to come from literals that cost. Rows that share no variable without a value pay for different literals, so the sum of
//! what they add is at most the cost of every completion. The deficits of all rows follow the trail, one literal at a time.
//! Source: [C96], [MM02]
#![tactic(auto)]

mod bound;
mod deficits;
mod row_contributions;

pub use bound::{bound_with, payment};
pub use deficits::Deficits;

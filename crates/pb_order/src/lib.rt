//! The order in which a search decides variables. No answer depends on it, so nothing is promised: the search takes the
//! variable that the order names where that has no value, and else decides another one. So another order changes no proof above.
//!
//! An `Order` is a heap of variables by activity. Before any conflict the activities tell how much a variable costs and how
//! much its rows need it (`initial`), conflicts bump them (`activity`), and where bounds pay, by how much decisions raised the
//! bound counts too (`pseudocosts`).
#![tactic(auto)]

mod activity;
mod conflict_analysis;
mod heap;
mod initial;
mod order;
mod pseudocosts;

pub use order::Order;
pub use pseudocosts::Gain;

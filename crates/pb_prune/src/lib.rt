//! What a bound says of the subtree below a trail: whether it may be left, and which literals have only one side to try there.
//!
//! `classify_node` compares the bounds of the engine with the best cost (`pruning`), and looks for literals whose negation can
//! lead to nothing better: at a tie by the order of assignments, else by reduced costs (`reduced_cost_fixing`). The
//! `agreed_prefix` of trail and best assignment, which settles ties, goes along with the search.
#![tactic(auto)]

mod agreed_prefix;
mod pruning;
mod reduced_cost_fixing;

pub use agreed_prefix::AgreedPrefix;
pub use pruning::is_closed_since;
pub use reduced_cost_fixing::{Verdict, classify_node};

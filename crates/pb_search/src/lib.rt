//! Branch and bound on the pieces of an instance.
//!
//! A `Search` goes through pieces, each by its cube, over tables (`SearchTables`) that many searches can share. A `WholeSearch`
//! searches a whole instance under literals, for questions that come one after the other. Both choose the width of their
//! numbers once, and search below a cube with `search_under` of `pb_subtree`.
#![tactic(auto)]

mod facts;
mod piece_search;
mod piece_tables;
mod search;
mod tables;
mod whole_root;
mod whole_search;
mod whole_search_at;

pub use pb_subtree::{Alone, Goal, Outcome, Share};
pub use search::{FIRST_TURNS, LONG_TURNS, Search};
pub use tables::SearchTables;
pub use whole_search::WholeSearch;

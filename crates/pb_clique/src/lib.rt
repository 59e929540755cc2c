//! Cliques: where each two of some literals stand in a clause of two, one row says that all of them but one are true. Its bound
//! is better than those of the clauses.
//! Source: [ANS00]
#![tactic(auto)]

mod arcs;
mod clauses;
mod cliques;
mod covers;
mod forms;
mod merging;

pub use forms::{form_to_search, normalise_merged};
pub use merging::merge_cliques;

//! A dive: from where a search stands, literals are assumed one after another, down to a full trail. It closes nothing, and whoever
//! dives takes all of it back; what it reaches is an assignment that meets all constraints, and early a good one.
//!
//! A `Round` says which dives are made one after another, and each has a `Course`: by a point of the relaxation or by the order of
//! the search, and perhaps within a limit of cost. `begin_descent` begins a dive, and `descend` goes down step by step (`choice`,
//! `steps`) along a `path`, which holds what is left to flip after a conflict. Each step is a decision, and taken off the budget
//! that the search has. A dive can go on after as many steps as were allowed, so that a search that has to do something else from
//! time to time dives in parts.
#![tactic(auto)]

mod choice;
mod course;
mod dive;
mod path;
mod round;
mod steps;

pub use course::{Course, Way};
pub use dive::{Descent, MAX_DECISIONS, Progress, begin_descent, descend};
pub use path::{DiveBranch, DivePath};
pub use round::{MOST_DIVES, Round};

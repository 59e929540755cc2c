//! Workers that search the pieces of an instance at the same time: what each of them does, what they lend each other, how they
//! are forked, and what all of them found; the tasks among which the pieces are dealt; and one search without any of that.
#![tactic(auto)]

mod alone;
mod facts;
mod fork;
mod gate;
mod gathering;
mod named;
mod names;
mod note_share;
mod part;
mod piece;
mod racing;
mod sharing;
mod solving;
mod task;
mod task_solving;
mod together;
mod worker_set;
mod working;

pub use alone::solve_alone;
pub use gate::{Gate, OpenGate};
pub use gathering::gather;
pub use note_share::{Correspondence, NoNotes, NoteShare, OuterShare};
pub use part::Part;
pub use sharing::BoardShare;
pub use solving::{Answer, SolveFault, solve};
pub use task::Task;
pub use task_solving::{TaskAnswer, solve_task};
pub use working::work;

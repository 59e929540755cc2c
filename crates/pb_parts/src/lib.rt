//! The report of a part: which pieces of an instance a task has searched, and what is claimed of them.
#![tactic(auto)]

mod faults;
mod fitting;
mod parts;
mod proposals;
mod putting;
mod reading;
mod writing;

pub use faults::{PartFault, PartKind};
pub use fitting::is_among;
pub use parts::{Division, Heading, PartReport};
pub use reading::read_part;
pub use writing::report_heading;

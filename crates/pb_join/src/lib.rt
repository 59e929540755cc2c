//! Joins the reports of an instance's pieces, each solved somewhere as an instance of its own, or of its parts, each searched
//! somewhere by a task, into one report.
#![tactic(auto)]

mod faults;
mod gathering;
mod joining;
mod parts;
mod reports;
mod states;
mod writing;

pub use faults::{JoinFault, Rejection};
pub use joining::{Joined, join};
pub use parts::faults::{PartRejection, PartsFault};
pub use parts::joining::{JoinedParts, join_parts};
pub use parts::states::{ReportState, TaskState};
pub use reports::PieceReport;
pub use states::PieceState;

//! Reads an instance and its pieces from files (`dividing`), writes pieces to files, with an index (`pieces`), and reads the
//! reports of pieces (`reports`) and of tasks (`parts`) from files.
#![tactic(auto)]

mod clue;
mod counting;
mod dividing;
mod dividing_fault;
mod files;
mod folders;
mod hints;
mod index;
mod lines;
mod listing;
mod parts;
mod piece_names;
mod pieces;
mod pieces_fault;
mod prepared;
mod quote;
mod refusals;
mod reports;
mod reports_fault;
mod system;
mod whole;

pub use clue::Clue;
pub use counting::count_pieces;
pub use dividing::prepare;
pub use dividing_fault::DivisionFault;
pub use files::Files;
pub use folders::Folders;
pub use listing::{Named, named_files};
pub use parts::{PartReports, TaskReports, all_refuse_text, read_tasks};
pub use pieces::write_pieces;
pub use pieces_fault::PiecesFault;
pub use prepared::Prepared;
pub use quote::Quote;
pub use reports::{Reports, read_instance, read_reports};
pub use reports_fault::{IndexFault, Refusal, ReportsFault};
pub use system::SystemFiles;
pub use whole::Whole;

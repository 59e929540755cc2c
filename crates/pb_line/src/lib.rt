//! The command lines of the programs: for each its one command and what the words ask for, and what all of them share.
#![tactic(auto)]

pub mod dividing;
mod failures;
mod faults;
mod formats;
mod help;
pub mod joining;
mod last_fault;
pub mod matched;
mod options;
pub mod parse;
mod program;
mod ranges;
pub mod tasks;
mod version;
mod words;

pub use failures::{end_at_no_text, tell_failure, tell_hint, tell_of_one_piece};
pub use faults::{Untold, end_at_line, tell_fault};
pub use formats::format_of;
pub use help::{FORMAT_HELP, NODES_HELP};
pub use last_fault::{LastFault, Noting};
pub use options::{
    MAX_NODES, cubes_option, file_operand, format_option, named, nodes_option, split_option,
    workers_option,
};
pub use program::{Program, main_with};
pub use ranges::tell_range;
pub use version::VERSION;
pub use words::{texts_of, words_of};

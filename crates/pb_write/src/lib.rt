//! Writes instances, and the pieces into which cubes divide them, as texts.
#![tactic(auto)]

mod clauses;
mod counts;
mod fault;
mod formats;
mod forms;
mod laws;
mod opb;
mod put;
mod writing;

pub use fault::WriteFault;
pub use formats::written_format;
pub use laws::{piece_laws, written_laws};
pub use writing::{write_instance, write_piece};

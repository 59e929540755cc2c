//! The command line of `pbcube_join`.

mod args;
mod command;
mod help;
mod parse;

pub use args::Line;
pub use parse::line;
pub use pb_inst::MAX_PIECES;

//! The command line of `pbcube_pieces`.

mod args;
mod command;
mod help;
mod parse;

pub use args::Line;
pub use parse::line;

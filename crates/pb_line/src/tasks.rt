//! The command line of `pbcube_task`.

mod args;
mod command;
mod help;
mod parse;

pub use args::{Line, MAX_TASKS};
pub use parse::line;

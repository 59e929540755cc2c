//! The program `pbcube`, over any files and any outputs: what its words ask for, and the run on the files that they name.
#![tactic(auto)]

mod args;
mod command;
mod diagnose;
mod faults;
mod files;
mod help;
mod parse;
mod run;

pub use args::Line;
pub use files::{Files, Rewind};
pub use parse::line;
pub use run::{out_of_memory, program};

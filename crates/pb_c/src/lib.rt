//! The solver for callers from C. Each export takes a `Solver` that lies in C's memory, and calls the session that it owns.
//! `bindings/c/include/pbcube.h` documents the calls, and `bindings/c/pbcube.c` checks pointers before it makes them. No thread
//! is started.
#![tactic(auto)]

mod answers;
mod building;
mod codes;
mod copying;
mod handle;
mod hints;
mod lifetime;
mod literals;
mod questions;
mod raw_box;
mod solver;
mod telling;
mod texts;

pub use codes::{
    BAD_ARGUMENT, BAD_LENGTH, BAD_VARIABLE, CORE, EMPTY, FOUND, MEMORY, NO_ANSWER, OK, OPTIMUM,
    OUT_OF_RANGE, SATISFIABLE, TOO_LARGE, TOO_MANY, UNENDED, UNKNOWN, UNSATISFIABLE, UNSUPPORTED,
};
pub use handle::Handle;
pub use solver::Solver;

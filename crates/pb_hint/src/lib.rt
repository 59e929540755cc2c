//! Hints for the author of a text that was refused. No answer rests on them: a wrong or missing hint changes none.
#![tactic(auto)]

mod advice;
mod beginnings;
mod dimacs;
mod hints;
mod lines;
mod opb;
mod places;
mod products;
mod rules;
mod spelling;
mod variables;

pub use advice::Advice;
pub use beginnings::{Beginning, foreign_bytes, has_control_bytes};
pub use hints::{Hint, hint_on, hint_on_cubes, hint_on_name};
pub use lines::HintLine;
pub use places::Place;
pub use rules::Rule;

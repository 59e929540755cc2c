//! A trail over the rows of a normal form, what follows from it, and a lower bound on the cost of its completions.
#![tactic(auto)]

mod engine;
mod engine_at;
mod free;
mod laws;

pub use engine::Engine;
pub use engine_at::EngineAt;
pub use free::{is_free, lowest_free, settled_from};
pub use laws::clause_laws;
pub use pb_count::Coefficient;
pub use pb_lagrange::Fixed;
pub use pb_rows::{Clauses, MAX_CLAUSES, RowTerms, Rows, TablesSource, shared_in};
pub use pb_trail::Step;

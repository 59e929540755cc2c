//! The rows of a normal form and the clauses of negated cubes, with the rows in which each literal occurs.
#![tactic(auto)]

mod clauses;
mod costs;
mod index;
mod literal_lists;
mod negated;
mod occurrences;
mod rows;
mod tables;
mod tables_source;
mod weighs;

pub use clauses::Clauses;
pub use literal_lists::LiteralLists;
pub use occurrences::{Occurrence, Occurs, UnitOccurrence, place_of};
pub use pb_count::{Coefficient, Counter};
use pb_inst::MAX_CONSTRAINTS;
pub use rows::{Limits, Rows};
pub use tables::{RowTerms, Tables};
pub use tables_source::{TablesSource, shared_in};
pub use weighs::Weighs;

/// The most clauses of cubes that there may be beside the rows of a normal form.
pub const MAX_CLAUSES: usize = 2_147_483_648;

// Rows and clauses are numbered in 32 bits.
const _: () = prove!(2 * MAX_CONSTRAINTS + MAX_CLAUSES <= 1 << 32);

//! Sets of places that are visited in order, and marks that are all removed in one step.
#![tactic(auto)]

mod bits;
mod flags;
mod marks;
mod row_set;
mod summary;

pub use marks::Marks;
pub use row_set::RowSet;

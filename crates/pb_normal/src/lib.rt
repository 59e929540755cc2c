//! The normal form of an instance: rows of positive terms, and the cost as a base and positive terms.
#![tactic(auto)]

mod forms;
mod laws;
mod merging;
mod positive_terms;
mod rows;
mod terms;
mod unbuilt;
mod widths;

pub use forms::{Form, form_of};
pub use laws::normal_form_laws;
use pb_inst::MAX_TERMS;
pub use positive_terms::PositiveTerms;
pub use terms::{FormTerm, PositiveTerm, total_of};
pub use unbuilt::Unbuilt;
pub use widths::{Normal, Width, normalise};

/// The most terms that all rows may have together: an equality gives two rows.
pub const MAX_ROW_TERMS: usize = 2 * MAX_TERMS;

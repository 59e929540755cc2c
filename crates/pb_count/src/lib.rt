//! The numbers in which engines count: of 64 bits where the sums of a normal form fit, else of 128.
#![tactic(auto)]

mod coefficient;
mod counter;

pub use coefficient::Coefficient;
pub use counter::Counter;

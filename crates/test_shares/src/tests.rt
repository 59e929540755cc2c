//! One module for each crate that is tested.

mod boards;
mod joining;
mod row_sets;
mod sessions;
mod shares;

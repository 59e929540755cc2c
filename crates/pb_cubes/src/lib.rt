//! Cubes that divide a search: the pieces that a list of cubes makes, and the split that makes such a list.
#![tactic(auto)]

mod faults;
mod occurrences;
mod pieces;
mod splits;

pub use faults::CubeFault;
pub use pb_inst::{MAX_CUBES, MAX_SPLIT};
pub use pieces::{Piece, Pieces};
pub use splits::split;

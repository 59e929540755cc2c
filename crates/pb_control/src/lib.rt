//! What a search keeps beside its trail and steers itself by. Of all this a search promises only what its `goal` is, and that
//! decisions are taken off its `budget`.
//!
//! A `branch` is a decision that stands on the trail. `root_work` says when literals are tried at the root (`probing`), when the
//! search dives from there or steps back, be it for the work there or since `ties` alone are left, and when it asks its share for
//! what another search found (`looks`). A node's `hints` tell where its scans go on, and its `pruning` what a bound said of it.
#![tactic(auto)]

mod branch;
mod budget;
mod goal;
mod hints;
mod looks;
mod probing;
mod pruning;
mod root_work;
mod ties;

pub use branch::{Branch, one_sided};
pub use budget::count_down;
pub use goal::Goal;
pub use hints::Hints;
pub use pruning::Pruning;
pub use root_work::RootWork;

//! A trail with assumptions, the slack that it leaves each row, and what follows from it by single rows.
#![tactic(auto)]

mod propagation;
mod propagator;
mod reasons;
mod slack_cache;
mod trail;
mod trail_view;

pub use propagation::Step;
pub use propagator::Propagator;
pub use trail_view::TrailView;

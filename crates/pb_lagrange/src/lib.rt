//! Multipliers that follow a search: which rows are shifted, when, and how far.
//!
//! `pb_dual` promises what follows from any multipliers; this crate proposes them. It promises that form and trail stay, and
//! hands on what `Multipliers` tells: that a raised bound is still a lower bound (`Relaxation::raise`), that a fixed literal is
//! forced (`Relaxation::fixed_literal`), and that nothing completes a trail of which `Relaxation::improve_multipliers` says so.
//! Nothing else in the crate carries a promise, so another recipe changes no proof above.
//! Source: [G74], [HK71]
#![tactic(auto)]

mod effort;
mod relaxation;

pub use effort::Effort;
pub use relaxation::{Fixed, Relaxation};

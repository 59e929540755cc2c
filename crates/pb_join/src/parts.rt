//! Reports of parts, of which each is what one task has searched.

pub mod faults;
pub mod finishing;
pub mod gathering;
pub mod joining;
pub mod naming;
pub mod states;

//! The tests by what they are of.

mod blind_multipliers;
mod clauses;
mod courses;
mod effort;
mod engines;
mod fixing;
mod forms;
mod pdhg;
mod player;
mod widths;
mod worked_rows;

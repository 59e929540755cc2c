//! Pseudo-Boolean instances: literals, linear constraints, assignments, their meaning and their order.
#![tactic(auto)]

mod assignments;
mod builders;
mod constraints;
mod cubes;
mod faults;
mod flat_terms;
mod incumbents;
mod instances;
mod limits;
mod literals;
mod numbers;
mod order;
mod sums;
mod workers;

pub use assignments::Assignment;
pub use builders::{FinishFault, InstanceBuilder};
pub use constraints::{Constraint, Relation, Term};
pub use cubes::Cube;
pub use faults::{InstFault, Memory};
pub use flat_terms::Terms;
pub use incumbents::Best;
pub use instances::Instance;
pub use limits::{
    MAX_CONSTRAINTS, MAX_CUBES, MAX_PIECES, MAX_SPLIT, MAX_TERMS, MAX_VARS, MAX_WORKERS, SUM_BOUND,
};
pub use literals::Lit;
pub use order::{order_laws, precedes};
pub use sums::sum_laws;
pub use workers::{BadWorkers, Workers, next_in_turn, next_other};

/// A coefficient, a bound or a cost.
pub type Number = i128;

/// The absolute value of a `Number`.
pub type Magnitude = u128;

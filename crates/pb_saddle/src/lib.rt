//! Multipliers and a point for the linear relaxation of what a trail leaves, proposed by PDHG, the primal-dual hybrid gradient.
//!
//! The rows that the trail does not meet and the variables that it gives no value form a linear program: each variable may
//! have any value from 0 to 1, and the cost is to be least. PDHG for linear programs approaches a saddle point of its
//! Lagrangian, with scaled rows and columns, restarts and a primal weight, and with the reflected Halpern iteration in place
//! of means.
//!
//! The crate computes in floats, by basic operations in a fixed order, so that each machine finds the same. What it finds is
//! rounded, and no more than a proposal: `pb_dual` tells what follows from any multipliers, and no answer depends on which
//! they are. So the only promise is that form and trail stay. No problem has more variables, rows or terms than its form, so
//! room for them is made once.
//!
//! Sizes, costs and multipliers are in the units of the form: a multiplier is a cost for each 1 of a row's degree.
//! Source: [CP11], [PC11], [R01], [A21], [LY23], [LY24]
#![tactic(auto)]

mod floats;
mod iterate;
mod pdhg;
mod plan;
mod problem;
mod restart;
mod scaling;
mod shifting;
mod sparse;
mod step;

pub use pdhg::Pdhg;

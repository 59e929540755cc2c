//! The texts of instances: OPB, CNF, iCNF and cube files.
#![tactic(auto)]

mod digits;
mod dimacs;
mod fault;
mod format;
mod laws;
mod line;
mod opb;

pub use dimacs::{read_cnf, read_cubes, read_icnf};
pub use fault::{ReadFault, ReadKind};
pub use format::{Format, read};
pub use laws::{one_reading_of_cnf, one_reading_of_cubes, one_reading_of_icnf, one_reading_of_opb};
pub use opb::read_opb;

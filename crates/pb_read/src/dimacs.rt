//! Reading the formats that write clauses and cubes word by word: DIMACS CNF, iCNF and cube files.
//! Source: [DIMACS], [ICNF]

mod clause_reader;
mod cnf;
mod content_lines;
mod cube_files;
mod cube_lines;
mod icnf;
mod scan;
mod word;

pub use cnf::read_cnf;
pub use cube_files::read_cubes;
pub use icnf::read_icnf;

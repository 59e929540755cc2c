//! Rules that texts keep to.
use thiserror::Error;

/// The rule that a refused text does not keep to.
#[derive(Clone, Copy, Debug, PartialEq, Eq, Error)]
pub enum Rule {
    /// OPB ends statements.
    #[error("end each statement with ;")]
    EndStatements,
    /// A formula ends clauses, and cubes.
    #[error("end each clause and each cube with 0")]
    EndClauses,
    /// The numbers of a statement have a greatest sum.
    #[error("the numbers of a statement, without their signs, add up to at most 2^126 - 1: take smaller units")]
    SmallSums,
    /// What there may be at most.
    #[error("there are at most 1048576 variables, 4194304 constraints, 1048575 cubes and 16777216 terms")]
    Limits,
    /// The objective comes first.
    #[error("put the one objective in front of all constraints")]
    ObjectiveFirst,
    /// A formula has a header.
    #[error("write p cnf VARIABLES CLAUSES before all clauses")]
    CnfHeader,
    /// So does iCNF.
    #[error("write p inccnf before all clauses")]
    IcnfHeader,
    /// The header tells the first of these numbers of clauses, and the text has the second, which is greater.
    #[error("the header says that the number of clauses is {0}, but it is {1}: write {1} there")]
    MoreClauses(u64, u64),
    /// The second number is less.
    #[error("the header says that the number of clauses is {0}, but it is {1}: write {1} there, unless a clause lacks its 0")]
    FewerClauses(u64, u64),
    /// Clauses come before cubes.
    #[error("put all clauses before the first cube")]
    ClausesFirst,
    /// A file of cubes has lines of one shape.
    #[error("a cube is a line of its own: a, its literals and 0")]
    CubeLine,
}

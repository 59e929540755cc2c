//! What a report claims.
//! Source: [OPB]
ghost use Rattle.std.specs.Prelude.{◌≡◌};
ghost use Rattle.std.specs.Option.{option_copied};
ghost use Rattle.pb_report.specs.Claims.{witness_of, is_final};

use pb_inst::{Assignment, Number};

/// An assignment, and the cost that the report gives it, if it gives one. Neither is checked against an instance.
#[derive(Drop)]
pub struct Witness {
    /// The number of the last `o` line.
    pub cost: Option<Number>,
    /// The values of the `v` lines.
    pub values: Assignment,
}

/// What a report claims of its instance, by its `s` line.
#[derive(Drop)]
pub enum Claim {
    /// `s OPTIMUM FOUND`: the assignment is least.
    Optimum(Witness),
    /// `s SATISFIABLE`: the assignment is feasible, and the first one where there is no objective.
    Satisfiable(Witness),
    /// `s UNSATISFIABLE`: nothing is feasible.
    Unsatisfiable,
    /// `s UNKNOWN`: nothing is said.
    Unknown,
    /// `s UNSUPPORTED`: the instance was not solved.
    Unsupported,
}

impl Claim {
    /// The assignment that is claimed, if one is.
    pub fn witness(&self) -> Option<&Witness>
        ensures { option_copied result ≡ witness_of self.now }
    {
        match self {
            Claim::Optimum(witness) | Claim::Satisfiable(witness) => Some(witness),
            Claim::Unsatisfiable | Claim::Unknown | Claim::Unsupported => None,
        }
    }

    /// Whether the claim is the answer on an instance with an objective, or on one without: that an assignment is least, or
    /// the first one, or that nothing is feasible.
    pub fn is_final(&self, has_objective: bool) -> bool
        ensures { result ≡ is_final has_objective self.now }
    {
        match self {
            Claim::Optimum(_) | Claim::Unsatisfiable => true,
            Claim::Satisfiable(_) => !has_objective,
            Claim::Unknown | Claim::Unsupported => false,
        }
    }
}

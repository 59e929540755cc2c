//! A finished instance.

ghost use Rattle.std.specs.Prelude.{◌≡◌, ◌↔◌, ◌<◌, ◌≤◌, Some, length, IsTrue, slice_get};
ghost use Rattle.std.specs.Option.{is_some, SomeIff};
ghost use Rattle.pb_inst.specs.Constraints.{linear};
ghost use Rattle.pb_inst.specs.Limits.{IsProper};
ghost use Rattle.pb_inst.specs.Meaning.{IsFeasible, cost};

use crate::constraints::ConstraintList;
use crate::flat_terms::TermList;
use crate::sums::{is_met, sum_value};
use crate::{Assignment, Constraint, Number, Terms};
use std::marker::Model;

/// Variables, an objective or none, and constraints, within all limits. Contracts see them as a `Problem`.
#[derive(Drop)]
pub struct Instance {
    vars: u32,
    objective: Option<TermList>,
    constraints: ConstraintList,
}

impl Model for Instance {
    ghost use Rattle.pb_inst.specs.Problem.{Problem};

    ghost Value = { Problem };

    ghost use Rattle.pb_inst.specs.Limits.{IsProper};

    ghost view = { λ i. record { vars = i.vars; objective = i.objective; constraints = i.constraints } };

    ghost invariant = { λ i. IsProper (record { vars = i.vars; objective = i.objective; constraints = i.constraints }) };
}

impl Instance {
    /// The instance of these parts, which keep all limits.
    pub(crate) fn of_parts(
        vars: u32,
        objective: Option<TermList>,
        constraints: ConstraintList,
    ) -> Instance
        requires { IsProper (record { vars = vars; objective = objective; constraints = constraints }) }
        ensures { result ≡ record { vars = vars; objective = objective; constraints = constraints } }
    {
        Instance {
            vars,
            objective,
            constraints,
        }
    }

    /// The objective and the constraints.
    pub(crate) fn into_parts(self) -> (Option<TermList>, ConstraintList)
        ensures objective { result.0 ≡ self.objective }
        ensures constraints { result.1 ≡ self.constraints }
        ensures proper { IsProper self }
    {
        (self.objective, self.constraints)
    }

    /// The number of variables.
    pub fn vars(&self) -> u32
        ensures value { result ≡ self.now.vars }
        ensures proper { IsProper self.now }
    {
        self.vars
    }

    /// Whether there is an objective. One without terms is an objective too.
    pub fn has_objective(&self) -> bool
        ensures { result ≡ is_some self.now.objective }
    {
        self.objective.is_some()
    }

    /// The terms of the objective as they were set, if there is one.
    pub fn objective(&self) -> Option<Terms<'_>>
        ensures value { result ≡ self.now.objective }
        ensures proper { IsProper self.now }
    {
        match &self.objective {
            Some(terms) => Some(terms.as_terms()),
            None => None,
        }
    }

    /// The number of constraints.
    pub fn len(&self) -> usize
        ensures value { result ≡ length self.now.constraints }
        ensures proper { IsProper self.now }
    {
        self.constraints.len()
    }

    /// The constraint that was added as the i-th, from 0.
    pub fn constraint(&self, i: usize) -> Constraint<'_>
        requires { i < length self.now.constraints }
        ensures value { slice_get self.now.constraints i ≡ Some (linear result) }
        ensures proper { IsProper self.now }
    {
        self.constraints.get(i)
    }

    /// The cost of an assignment to as many variables, 0 without an objective, exactly where it meets every constraint;
    /// else none. Takes no memory.
    pub fn check(&self, assignment: &Assignment) -> Option<Number>
        requires { length assignment.now ≡ self.now.vars }
        ensures { SomeIff result (IsFeasible self.now assignment.now) (cost self.now assignment.now) }
    {
        for i in 0..self.constraints.len() {
            if !is_met(&self.constraints.get(i), assignment) {
                return None;
            }
        }
        match &self.objective {
            Some(terms) => Some(sum_value(&terms.as_terms(), assignment)),
            None => Some(0),
        }
    }
}

//! Building an instance statement by statement.

ghost use Rattle.std.specs.Prelude.{◌≡◌, ◌≢◌, ◌↔◌, ◌+◌, ◌<◌, ◌≤◌, ◌++◌, [], ◌∷◌, None, Some, length, unsigned_abs, IsTrue, OnOk, OnErr, IfOk, IfErr, IsErrOf, IsOk};
ghost use Rattle.std.specs.Option.{ForSome};
ghost use Rattle.pb_inst.specs.Constraints.{clause_constraint};
ghost use Rattle.pb_inst.specs.Limits.{constraint_terms, total_magnitude, HasRoom, HasVariablesWithin};

use crate::constraints::ConstraintList;
use crate::flat_terms::TermList;
use crate::sums::{has_variables_within, is_within_bound};
use crate::{
    InstFault, Instance, Lit, MAX_CONSTRAINTS, MAX_TERMS, MAX_VARS, Number, Relation, SUM_BOUND,
    Term,
};
use std::alloc::Global;
use std::marker::Model;

/// The statements of an instance so far, within all limits on sums and counts. Contracts see the objective, if one was
/// set, and the constraints in order.
#[derive(Drop)]
pub struct InstanceBuilder {
    alloc: Global,
    objective: Option<TermList>,
    constraints: ConstraintList,
}

impl Model for InstanceBuilder {
    ghost use Rattle.pb_inst.specs.Problem.{Statements};

    ghost Value = { Statements };

    ghost use Rattle.pb_inst.specs.Limits.{IsWithinLimits};

    ghost view = { λ b. record { objective = b.objective; constraints = b.constraints } };

    ghost invariant = { λ b. IsWithinLimits (record { objective = b.objective; constraints = b.constraints }) };
}

/// Why an instance was not finished, and the builder as it was.
#[derive(Drop)]
pub struct FinishFault {
    /// `BadVariable` or `TooMany`.
    pub fault: InstFault,
    /// The builder, unchanged.
    pub builder: InstanceBuilder,
}

impl InstanceBuilder {
    /// A builder without an objective or constraints. Takes no memory.
    pub fn new(alloc: Global) -> InstanceBuilder
        ensures { result ≡ record { objective = None; constraints = [] } }
    {
        InstanceBuilder {
            alloc,
            objective: None,
            constraints: ConstraintList::new(alloc),
        }
    }

    /// A builder that starts with the statements of a finished instance. Takes no memory.
    pub fn reopen(alloc: Global, instance: Instance) -> InstanceBuilder
        ensures { result ≡ record { objective = instance.objective; constraints = instance.constraints } }
    {
        let (objective, constraints) = instance.into_parts();
        InstanceBuilder {
            alloc,
            objective,
            constraints,
        }
    }

    /// Sets the objective, in place of one that was set before. Fails, and leaves the builder unchanged, with `TooLarge`
    /// where the absolute coefficients add up to more than `SUM_BOUND`, else with `TooMany` where these terms and those of
    /// all constraints are more than `MAX_TERMS`, and with `Memory` where memory is refused.
    pub fn set_objective(&mut self, terms: &[Term]) -> Result<(), InstFault>
        ensures set { OnOk result (self.new ≡ record self.old { objective = Some terms.now }) }
        ensures unchanged { OnErr result (self.new ≡ self.old) }
        ensures too_large { IsErrOf result InstFault.TooLarge ↔ (SUM_BOUND < total_magnitude terms.now) }
        ensures too_many { IsErrOf result InstFault.TooMany
            ↔ ((total_magnitude terms.now ≤ SUM_BOUND) × (MAX_TERMS < length terms.now + constraint_terms self.old.constraints)) }
        ensures other { IfErr result (λ fault. fault ≢ InstFault.BadVariable) }
    {
        if !is_within_bound(terms, 0) {
            return Err(InstFault::TooLarge);
        }
        if terms.len() > MAX_TERMS - self.constraints.term_count() {
            return Err(InstFault::TooMany);
        }
        self.objective = Some(TermList::from_slice(self.alloc, terms)?);
        Ok(())
    }

    /// Adds a constraint at the end. Fails, and leaves the builder unchanged, with `TooLarge` where the absolute
    /// coefficients and the absolute bound add up to more than `SUM_BOUND`, else with `TooMany` where there would be more
    /// than `MAX_CONSTRAINTS` constraints or `MAX_TERMS` terms, and with `Memory` where memory is refused.
    pub fn add(
        &mut self,
        terms: &[Term],
        relation: Relation,
        bound: Number,
    ) -> Result<(), InstFault>
        ensures added { OnOk result
            (self.new ≡ record self.old { constraints = self.old.constraints ++ record { terms = terms.now; relation = relation; bound = bound } ∷ [] }) }
        ensures unchanged { OnErr result (self.new ≡ self.old) }
        ensures too_large { IsErrOf result InstFault.TooLarge ↔ (SUM_BOUND < total_magnitude terms.now + unsigned_abs bound) }
        ensures too_many { IsErrOf result InstFault.TooMany
            ↔ ((total_magnitude terms.now + unsigned_abs bound ≤ SUM_BOUND) × ¬ HasRoom self.old (length terms.now)) }
        ensures other { IfErr result (λ fault. fault ≢ InstFault.BadVariable) }
    {
        if !is_within_bound(terms, bound) {
            return Err(InstFault::TooLarge);
        }
        if !self.has_room(terms.len()) {
            return Err(InstFault::TooMany);
        }
        self.constraints.push(terms, relation, bound)?;
        Ok(())
    }

    /// Adds at the end the clause of the literals: their values, repeats included, add up to at least 1. Fails, and leaves
    /// the builder unchanged, with `TooMany` where there would be more than `MAX_CONSTRAINTS` constraints or `MAX_TERMS`
    /// terms, and with `Memory` where memory is refused.
    pub fn add_clause(&mut self, lits: &[Lit]) -> Result<(), InstFault>
        ensures added { OnOk result
            (self.new ≡ record self.old { constraints = self.old.constraints ++ clause_constraint lits.now ∷ [] }) }
        ensures unchanged { OnErr result (self.new ≡ self.old) }
        ensures too_many { IsErrOf result InstFault.TooMany ↔ (¬ HasRoom self.old (length lits.now)) }
        ensures other { IfErr result (λ fault. (fault ≢ InstFault.BadVariable) × (fault ≢ InstFault.TooLarge)) }
    {
        if !self.has_room(lits.len()) {
            return Err(InstFault::TooMany);
        }
        self.constraints.push_clause(lits)?;
        Ok(())
    }

    /// The instance of the variables 1 to n with these statements. Fails, and hands the builder back, with `TooMany` where
    /// n is over `MAX_VARS`, else with `BadVariable` where the variable of a literal is over n. Takes no memory.
    pub fn finish(self, n: u32) -> Result<Instance, FinishFault>
        ensures finished { IfOk result
            (λ instance. instance ≡ record { vars = n; objective = self.objective; constraints = self.constraints }) }
        ensures returned { IfErr result (λ failed. failed.builder ≡ self) }
        ensures accepts { IsOk result ↔ ((n ≤ MAX_VARS) × HasVariablesWithin n self) }
        ensures too_many { IfErr result (λ failed. MAX_VARS < n → failed.fault ≡ InstFault.TooMany) }
        ensures bad_variable { IfErr result (λ failed. n ≤ MAX_VARS → failed.fault ≡ InstFault.BadVariable) }
    {
        if n > MAX_VARS {
            return Err(FinishFault {
                fault: InstFault::TooMany,
                builder: self,
            });
        }
        if !self.has_variables_within(n) {
            return Err(FinishFault {
                fault: InstFault::BadVariable,
                builder: self,
            });
        }
        Ok(Instance::of_parts(n, self.objective, self.constraints))
    }

    /// Whether all variables of the objective and the constraints are at most n.
    fn has_variables_within(&self, n: u32) -> bool
        ensures { IsTrue result ↔ HasVariablesWithin n self.now }
    {
        if let Some(terms) = &self.objective
            && !has_variables_within(&terms.as_terms(), n)
        {
            return false;
        }
        for i in 0..self.constraints.len() {
            if !has_variables_within(&self.constraints.get(i).terms, n) {
                return false;
            }
        }
        true
    }

    /// Whether one more constraint with `terms` terms keeps the limits on counts.
    fn has_room(&self, terms: usize) -> bool
        ensures { IsTrue result ↔ HasRoom self.now terms }
    {
        let objective_terms = match &self.objective {
            Some(terms) => terms.len(),
            None => 0,
        };
        let count = objective_terms + self.constraints.term_count();
        self.constraints.len() < MAX_CONSTRAINTS && terms <= MAX_TERMS - count
    }
}

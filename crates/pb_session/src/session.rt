//! Sessions, from the first term to the answer.

ghost use Rattle.std.specs.Prelude.{◌≡◌, ◌≢◌, ◌↔◌, ◌⊎◌, ◌+◌, ◌-◌, ◌<◌, ◌≤◌, ◌++◌, [], ◌∷◌, true, false, None, Some, length, unsigned_abs, IfOk, IfErr, IfSome, IfNone, IsErrOf, IsTrue, OnOk, OnErr, slice_index_or};
ghost use Rattle.std.specs.Option.{option_map};
ghost use Rattle.pb_inst.specs.declared.limits.TheConstants.{MAX_TERMS, SUM_BOUND};
ghost use Rattle.pb_inst.specs.Limits.{constraint_terms, total_magnitude, HasRoom};
ghost use Rattle.pb_inst.specs.Problem.{statements};
ghost use Rattle.pb_read.specs.Terms.{greatest_index};
ghost use Rattle.pb_report.specs.Written.{memory_report};
ghost use Rattle.pb_solve.specs.Run.{Reports, ReportsFound};
ghost use Rattle.pb_session.specs.Asked.{IsRefusal};
ghost use Rattle.pb_session.specs.Told.{nothing_told, problem_of, with_constraint, with_objective};

use crate::faults::SessionFault;
use crate::found::Found;
use crate::ready::Ready;
use pb_inst::{
    Assignment, FinishFault, InstFault, Instance, InstanceBuilder, Lit, Number, Relation, Term,
};
use pb_solve::{Device, Format, Ran, Status, run_without_threads};
use std::alloc::Global;
use std::marker::Model;
use std::mem::replace;

/// Statements that are told one by one, as sums whose terms come one at a time, and what was found of them. Variables are
/// numbered from 1, and there are as many as the greatest one that a statement names. Questions may be asked of the statements
/// so far at any time. The first question makes the instance and its search, which are kept for further ones until another
/// statement is told. Contracts see what it was `Told`.
#[derive(Drop)]
pub struct Session {
    pub(crate) alloc: Global,
    vars: u32,
    terms: Vec<Term>,
    /// The statements, while nothing is ready.
    builder: InstanceBuilder,
    /// The instance of the statements and its search, from a question to the next statement. They do not outlive that, since an
    /// instance never changes, and a search has tables of all its rows.
    pub(crate) ready: Option<Ready>,
    pub(crate) suggestion: Option<Assignment>,
    /// Assignments that are no longer needed, as room for those that are found next.
    pub(crate) rooms: Vec<Assignment>,
    /// Room for the literals of a question.
    pub(crate) literals: Vec<Lit>,
    pub(crate) found: Option<Found>,
    report: Vec<u8>,
}

impl Model for Session {
    ghost use Rattle.pb_session.specs.Told.{Told};

    ghost Value = { Told };

    ghost use Rattle.std.specs.Option.{option_map};
    ghost use Rattle.pb_session.specs.Found.{solution};
    ghost use Rattle.pb_session.specs.Told.{problem_of};

    ghost view = { λ s. record {
      problem = problem_of s.vars s.builder s.ready;
      terms = s.terms.items;
      found = option_map solution s.found;
      report = s.report.items;
    } };
}

impl Session {
    /// Nothing told. Takes no memory.
    pub fn new(alloc: Global) -> Session
        ensures { result ≡ nothing_told }
    {
        Session {
            alloc,
            vars: 0,
            terms: Vec::new(alloc),
            builder: InstanceBuilder::new(alloc),
            ready: None,
            suggestion: None,
            rooms: Vec::new(alloc),
            literals: Vec::new(alloc),
            found: None,
            report: Vec::new(alloc),
        }
    }

    /// Adds a term to the sum that is not ended. Fails, and changes nothing, with `Memory` where memory is refused.
    pub fn term(&mut self, coef: Number, lit: Lit) -> Result<(), SessionFault>
        ensures added { OnOk result (self.new ≡ record self.old { terms = self.old.terms ++ record { coef = coef; lit = lit } ∷ [] }) }
        ensures unchanged { OnErr result (self.new ≡ self.old) }
        ensures other { IfErr result (λ fault. fault ≡ SessionFault.Statement InstFault.Memory) }
    {
        if self.terms.push(Term { coef, lit }).is_err() {
            return Err(SessionFault::Statement(InstFault::Memory));
        }
        Ok(())
    }

    /// Ends the sum: it becomes the left side of a constraint. Fails, and changes nothing, with `TooLarge` where the absolute
    /// coefficients and the absolute bound add up to more than `SUM_BOUND`, else with `TooMany` where there would be more than
    /// `MAX_CONSTRAINTS` constraints or `MAX_TERMS` terms, and with `Memory` where memory is refused.
    pub fn end(&mut self, relation: Relation, bound: Number) -> Result<(), SessionFault>
        ensures added { OnOk result (self.new ≡ record self.old {
          problem = with_constraint self.old.problem (record { terms = self.old.terms; relation = relation; bound = bound });
          terms = [];
        }) }
        ensures unchanged { OnErr result (self.new ≡ self.old) }
        ensures too_large { IsErrOf result (SessionFault.Statement InstFault.TooLarge)
            ↔ (SUM_BOUND < total_magnitude self.old.terms + unsigned_abs bound) }
        ensures too_many { IsErrOf result (SessionFault.Statement InstFault.TooMany)
            ↔ ((total_magnitude self.old.terms + unsigned_abs bound ≤ SUM_BOUND)
            × ¬ HasRoom (statements self.old.problem) (length self.old.terms)) }
        ensures other { IfErr result (λ fault. (fault ≢ SessionFault.Statement InstFault.BadVariable) × (fault ≢ SessionFault.Unended) × (fault ≢ SessionFault.Length)) }
    {
        let greatest = greatest_index(&self.terms);
        let (vars, mut builder) = self.take_statements();
        match builder.add(&self.terms, relation, bound) {
            Ok(()) => {
                self.keep_statements(vars.max(greatest), builder);
                self.terms.clear();
                Ok(())
            }
            Err(fault) => {
                self.keep_statements(vars, builder);
                Err(SessionFault::Statement(fault))
            }
        }
    }

    /// Ends the sum: it becomes the objective, in place of one that was told before. Fails, and changes nothing, as `end` does,
    /// except that no constraint is added and no bound is counted.
    pub fn end_objective(&mut self) -> Result<(), SessionFault>
        ensures set { OnOk result (self.new ≡ record self.old { problem = with_objective self.old.problem self.old.terms; terms = [] }) }
        ensures unchanged { OnErr result (self.new ≡ self.old) }
        ensures too_large { IsErrOf result (SessionFault.Statement InstFault.TooLarge)
            ↔ (SUM_BOUND < total_magnitude self.old.terms) }
        ensures too_many { IsErrOf result (SessionFault.Statement InstFault.TooMany)
            ↔ ((total_magnitude self.old.terms ≤ SUM_BOUND)
            × (MAX_TERMS < length self.old.terms + constraint_terms self.old.problem.constraints)) }
        ensures other { IfErr result (λ fault. (fault ≢ SessionFault.Statement InstFault.BadVariable) × (fault ≢ SessionFault.Unended) × (fault ≢ SessionFault.Length)) }
    {
        let greatest = greatest_index(&self.terms);
        let (vars, mut builder) = self.take_statements();
        match builder.set_objective(&self.terms) {
            Ok(()) => {
                self.keep_statements(vars.max(greatest), builder);
                self.terms.clear();
                Ok(())
            }
            Err(fault) => {
                self.keep_statements(vars, builder);
                Err(SessionFault::Statement(fault))
            }
        }
    }

    /// Takes out the statements and how many variables they name: `keep_statements` puts them, or others, back. What was made
    /// of them is dropped.
    fn take_statements(&mut self) -> (u32, InstanceBuilder)
        ensures vars { result.0 ≡ self.old.problem.vars }
        ensures statements { result.1 ≡ statements self.old.problem }
        ensures rest { self.new ≡ record self.old { problem = self.new.problem } }
    {
        match self.ready.take() {
            Some(ready) => {
                let instance = ready.into_instance();
                let vars = instance.vars();
                (vars, InstanceBuilder::reopen(self.alloc, instance))
            }
            None => (
                self.vars,
                replace(&mut self.builder, InstanceBuilder::new(self.alloc)),
            ),
        }
    }

    /// Puts statements that name `vars` variables in place of all that were told.
    fn keep_statements(&mut self, vars: u32, builder: InstanceBuilder)
        ensures { self.new ≡ record self.old { problem = problem_of vars builder None } }
    {
        self.vars = vars;
        self.builder = builder;
        self.ready = None;
    }

    /// Takes out the instance of the statements and its search, and makes them first where they are not made: `keep_ready` puts
    /// them back. So a question owns them while it lasts, and nothing holds a reference into the session. Fails as `make_ready`
    /// does.
    pub(crate) fn take_ready(&mut self) -> Result<Ready, SessionFault>
        ensures ready { IfOk result (λ ready. ready ≡ self.old.problem) }
        ensures rest { OnOk result (self.new ≡ record self.old { problem = self.new.problem }) }
        ensures unchanged { OnErr result (self.new ≡ self.old) }
        ensures unended { IsErrOf result SessionFault.Unended ↔ (self.old.terms ≢ []) }
        ensures refused { IfErr result (IsRefusal self.old) }
    {
        self.make_ready()?;
        match self.ready.take() {
            Some(ready) => Ok(ready),
            None => Err(SessionFault::Statement(InstFault::Memory)),
        }
    }

    /// Puts an instance and its search in place of all statements.
    pub(crate) fn keep_ready(&mut self, ready: Ready)
        ensures { self.new ≡ record self.old { problem = ready } }
    {
        self.ready = Some(ready);
    }

    /// Makes the instance of the statements and its search, where they are not made. Fails, and changes nothing that contracts
    /// see, with `Unended` where a sum is not ended, with `Memory` where memory is refused, and with `BadVariable` or `TooMany`
    /// only where some variable of the statements is no variable of an instance.
    fn make_ready(&mut self) -> Result<(), SessionFault>
        ensures unchanged { self.new ≡ self.old }
        ensures unended { IsErrOf result SessionFault.Unended ↔ (self.old.terms ≢ []) }
        ensures refused { IfErr result (IsRefusal self.old) }
    {
        if self.has_terms() {
            return Err(SessionFault::Unended);
        }
        let None = &self.ready else {
            return Ok(());
        };
        let (vars, told) = self.take_statements();
        match told.finish(vars) {
            Ok(instance) => self.make_search(instance),
            Err(FinishFault { fault, builder }) => {
                self.keep_statements(vars, builder);
                Err(SessionFault::Statement(fault))
            }
        }
    }

    /// Makes the search of an instance, which takes the place of all statements. Fails where memory is refused; then the
    /// statements are told again, without an instance.
    fn make_search(&mut self, instance: Instance) -> Result<(), SessionFault>
        ensures told { self.new ≡ record self.old { problem = instance } }
        ensures refused { IfErr result (λ fault. fault ≡ SessionFault.Statement InstFault.Memory) }
    {
        match Ready::new(self.alloc, instance) {
            Ok(mut ready) => {
                if let Some(values) = &self.suggestion {
                    ready.suggest(values);
                }
                self.keep_ready(ready);
                self.make_rooms();
                Ok(())
            }
            Err(instance) => {
                let vars = instance.vars();
                self.keep_statements(vars, InstanceBuilder::reopen(self.alloc, instance));
                Err(SessionFault::Statement(InstFault::Memory))
            }
        }
    }

    /// Whether there are terms of a sum that is not ended.
    pub fn has_terms(&self) -> bool
        ensures { IsTrue result ↔ (self.now.terms ≢ []) }
    {
        !self.terms.is_empty()
    }

    /// Forgets the terms of a sum that is not ended.
    pub fn discard(&mut self)
        ensures { self.new ≡ record self.old { terms = [] } }
    {
        self.terms.truncate(0);
    }

    /// The cost of what was found, if anything was: 0 without an objective.
    pub fn cost(&self) -> Option<Number>
        ensures { result ≡ option_map (λ s. s.cost) self.now.found }
    {
        match &self.found {
            Some(found) => Some(found.cost),
            None => None,
        }
    }

    /// The value of a variable in what was found. None where nothing was found, or the variable is not one of the instance's.
    pub fn value(&self, var: u32) -> Option<bool>
        ensures some { IfSome result (λ value. IfSome self.now.found (λ s. (1 ≤ var) × (var ≤ length s.assignment) × (value ≡ slice_index_or s.assignment (var - 1) false))) }
        ensures none { IfNone result (IfSome self.now.found (λ s. (var ≡ 0) ⊎ (length s.assignment < var))) }
        ensures nothing { self.now.found ≡ None → result ≡ None }
    {
        let Some(found) = &self.found else {
            return None;
        };
        if var == 0 || found.values.len() < var {
            return None;
        }
        Some(found.values.get(var))
    }

    /// How many variables the statements name: the greatest one's number.
    pub fn vars(&self) -> u32
        ensures { result ≡ self.now.problem.vars }
    {
        match &self.ready {
            Some(ready) => ready.instance.vars(),
            None => self.vars,
        }
    }

    /// Solves a text by itself, apart from all that the session was told, and keeps the report in place of the last one. The
    /// report is that of `run` with one worker. Fails, and changes nothing, with `Memory` where no memory is left for it.
    pub fn run_text(
        &mut self,
        format: Format,
        text: &[u8],
        nodes: Option<u64>,
    ) -> Result<Ran, SessionFault>
        ensures headline { IfOk result (λ ran. ran.cut ≡ false → ran.status ≢ Status.Unknown
            → Reports format (Some text.now) None 0 (Some []) (Some self.new.report) ran.status) }
        ensures budgeted { IfOk result (λ ran. ran.cut ≡ true
            → ReportsFound format (Some text.now) None 0 (Some []) (Some self.new.report) ran.status) }
        ensures no_budget { IfNone nodes (IfOk result (λ ran. ran.cut ≡ false)) }
        ensures memory { IfOk result (λ ran. ran.cut ≡ false → ran.status ≡ Status.Unknown → self.new.report ≡ memory_report) }
        ensures apart { OnOk result (record self.new { report = self.old.report } ≡ self.old) }
        ensures unchanged { OnErr result (self.new ≡ self.old) }
        ensures fault { IfErr result (λ fault. fault ≡ SessionFault.Statement InstFault.Memory) }
    {
        let mut input = Device::new(text);
        let mut out = Device::new(Vec::new(self.alloc));
        match run_without_threads(self.alloc, &mut input, format, nodes, &mut out) {
            Ok(ran) => {
                self.report = out.into_inner();
                Ok(ran)
            }
            Err(_) => Err(SessionFault::Statement(InstFault::Memory)),
        }
    }

    /// The report of the last text that was run, and nothing before any was.
    pub fn report(&self) -> &[u8]
        ensures { result.now ≡ self.now.report }
    {
        &self.report
    }
}

/// The greatest variable of the terms, and 0 where there are none.
fn greatest_index(terms: &[Term]) -> u32
    ensures { result ≡ greatest_index terms.now }
{
    terms
        .iter()
        .fold(0, |greatest, term| greatest.max(term.lit.var()))
}

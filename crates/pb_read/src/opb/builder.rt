//! Building an instance from statements of OPB.
ghost use Rattle.std.specs.Prelude.{◌≡◌, ◌++◌, ◌∷◌, ◌⊎◌, [], List, true, length, IfOk, IfErr, OnOk, ◌+◌, ◌||◌, nat_lt, unsigned_abs, Some, None};
ghost use Rattle.std.specs.List.{list_any};
ghost use Rattle.pb_read.specs.Opb as opb;
ghost use Rattle.pb_read.specs.Terms.{greatest_index};
ghost use Rattle.pb_read.specs.Refusal.{first_kind, first_fault};
ghost use Rattle.pb_inst.specs.Limits.{total_magnitude, term_count, constraint_terms};
ghost use Rattle.pb_inst.specs.declared.limits.TheConstants.{SUM_BOUND, MAX_CONSTRAINTS, MAX_TERMS};
ghost use Rattle.pb_read.specs.Failure.{StatementFails};
ghost use Rattle.pb_read.specs.Drafts.{gathered, blank_draft};
ghost use Rattle.pb_read.specs.Reading.{Holds, IsMemory};
ghost use Rattle.pb_read.specs.Text.{items};
ghost use Rattle.pb_read.specs.Building.{HasBuilt, amount_kind, statement_error};

use crate::fault::{ReadFault, ReadKind};
use crate::opb::draft::Draft;
use crate::opb::sink::{TokenSink, take_text};
use crate::opb::token::Token;
use pb_inst::{InstFault, InstanceBuilder, Term};
use std::alloc::Global;

/// Why a statement was not taken.
#[derive(Clone, Copy, Debug, PartialEq, Eq)]
pub(crate) enum StatementError {
    Memory,
    Fault(ReadKind),
}

/// The statements so far, the greatest index in them, and the statement that has begun, with the line of its first token.
pub(crate) struct OpbBuilder {
    pub(crate) instance: InstanceBuilder,
    pub(crate) greatest: u32,
    pub(crate) is_empty: bool,
    pub(crate) draft: Draft,
    pub(crate) line: u64,
}

/// The greatest index in the terms.
fn greatest_index(terms: &[Term]) -> u32
    ensures { result ≡ greatest_index terms.now }
{
    terms
        .iter()
        .fold(0, |greatest, term| greatest.max(term.lit.var()))
}

/// The error of a statement that the builder refused.
fn statement_error(fault: InstFault) -> StatementError
    ensures { result ≡ statement_error fault }
{
    match fault {
        InstFault::BadVariable => StatementError::Fault(ReadKind::BadVariable),
        InstFault::TooLarge => StatementError::Fault(ReadKind::TooLarge),
        InstFault::TooMany => StatementError::Fault(ReadKind::TooMany),
        InstFault::Memory => StatementError::Memory,
    }
}

impl Drop for OpbBuilder {
    fn drop(self) {
        let OpbBuilder {
            instance: _,
            greatest: _,
            is_empty: _,
            draft: _,
            line: _,
        } = self;
    }
}

impl OpbBuilder {
    pub(crate) fn new(alloc: Global) -> OpbBuilder
        ensures built { HasBuilt result.instance result.greatest result.is_empty [] }
        ensures draft { result.draft ≡ blank_draft }
    {
        OpbBuilder {
            instance: InstanceBuilder::new(alloc),
            greatest: 0,
            is_empty: true,
            draft: Draft::new(alloc),
            line: 0,
        }
    }

    /// The builder of the statements so far.
    pub(crate) fn into_instance(self) -> InstanceBuilder
        ensures { result ≡ self.instance }
    {
        let OpbBuilder {
            instance,
            greatest: _,
            is_empty: _,
            draft: _,
            line: _,
        } = self;
        instance
    }

    /// Takes the terms of the draft as an objective.
    fn set_objective(&mut self) -> Result<(), StatementError>
        ensures set { OnOk result ((amount_kind (nat_lt SUM_BOUND (total_magnitude self.old.draft.terms)) (nat_lt MAX_TERMS (length self.old.draft.terms + constraint_terms self.old.instance.constraints)) ≡ None)
            × (self.new.instance ≡ record self.old.instance { objective = Some self.old.draft.terms }) × (self.new.greatest ≡ self.old.greatest) × (self.new.draft ≡ self.old.draft)) }
        ensures err { IfErr result (λ e. StatementFails e (amount_kind (nat_lt SUM_BOUND (total_magnitude self.old.draft.terms)) (nat_lt MAX_TERMS (length self.old.draft.terms + constraint_terms self.old.instance.constraints)))) }
    {
        match self.instance.set_objective(self.draft.terms()) {
            Ok(()) => Ok(()),
            Err(fault) => Err(statement_error(fault)),
        }
    }

    /// Takes the draft as a constraint.
    fn add(&mut self) -> Result<(), StatementError>
        ensures added { OnOk result ((amount_kind (nat_lt SUM_BOUND (total_magnitude self.old.draft.terms + unsigned_abs self.old.draft.number)) (nat_lt MAX_CONSTRAINTS (length self.old.instance.constraints + 1) || nat_lt MAX_TERMS (term_count self.old.instance + length self.old.draft.terms)) ≡ None)
            × (self.new.instance ≡ record self.old.instance { constraints = self.old.instance.constraints ++ record { terms = self.old.draft.terms; relation = self.old.draft.relation; bound = self.old.draft.number } ∷ [] }) × (self.new.greatest ≡ self.old.greatest) × (self.new.draft ≡ self.old.draft)) }
        ensures err { IfErr result (λ e. StatementFails e (amount_kind (nat_lt SUM_BOUND (total_magnitude self.old.draft.terms + unsigned_abs self.old.draft.number)) (nat_lt MAX_CONSTRAINTS (length self.old.instance.constraints + 1) || nat_lt MAX_TERMS (term_count self.old.instance + length self.old.draft.terms)))) }
    {
        let (relation, bound) = (self.draft.relation(), self.draft.number());
        match self.instance.add(self.draft.terms(), relation, bound) {
            Ok(()) => Ok(()),
            Err(fault) => Err(statement_error(fault)),
        }
    }

    /// Takes the draft as the next statement, and starts a new draft.
    fn finish(&mut self) -> Result<(), StatementError>
        ensures ok { (earlier : List (List opb.Token)) (s : List opb.Token) → HasBuilt self.old.instance self.old.greatest self.old.is_empty earlier → self.old.draft ≡ gathered s → list_any opb.is_end s ≡ true
            → OnOk result ((first_kind (opb.statement_faults earlier s) ≡ None) × HasBuilt self.new.instance self.new.greatest self.new.is_empty (earlier ++ s ∷ [])) }
        ensures fresh { OnOk result (self.new.draft ≡ blank_draft) }
        ensures err { (earlier : List (List opb.Token)) (s : List opb.Token) → HasBuilt self.old.instance self.old.greatest self.old.is_empty earlier → self.old.draft ≡ gathered s → list_any opb.is_end s ≡ true
            → IfErr result (λ e. StatementFails e (first_kind (opb.statement_faults earlier s))) }
    {
        if let Some(kind) = self.draft.form_fault(self.is_empty) {
            return Err(StatementError::Fault(kind));
        }
        if self.draft.is_too_large() {
            return Err(StatementError::Fault(ReadKind::TooLarge));
        }
        if self.draft.is_objective() {
            self.set_objective()?;
        } else {
            self.add()?;
        }
        self.greatest = self.greatest.max(greatest_index(self.draft.terms()));
        self.is_empty = false;
        self.draft.clear();
        Ok(())
    }
}

impl TokenSink for OpbBuilder {
    ghost has_taken = { λ b taken. Holds (HasBuilt b.instance b.greatest b.is_empty) b.draft b.line taken };

    fn take(&mut self, token: Token, line: u64) -> Result<(), ReadFault> {
        let first_line = if self.draft.is_new() { line } else { self.line };
        self.line = first_line;
        if self.draft.take(token).is_err() {
            return Err(ReadFault::MEMORY);
        }
        let Token::End = token else {
            return Ok(());
        };
        match self.finish() {
            Ok(()) => Ok(()),
            Err(StatementError::Memory) => Err(ReadFault::MEMORY),
            Err(StatementError::Fault(kind)) => Err(ReadFault {
                kind,
                line: first_line,
            }),
        }
    }
}

/// The builder that took all statements of a text.
pub(crate) fn read_statements(alloc: Global, text: &[u8]) -> Result<OpbBuilder, ReadFault>
    ensures ok { IfOk result (λ b. (first_fault opb.statement_faults [] (opb.statements text.now) ≡ None) × HasBuilt b.instance b.greatest b.is_empty (items (opb.statements text.now))) }
    ensures err { IfErr result (λ f. IsMemory f ⊎ (first_fault opb.statement_faults [] (opb.statements text.now) ≡ Some f)) }
{
    let mut builder = OpbBuilder::new(alloc);
    take_text(&mut builder, text)?;
    if !builder.draft.is_new() {
        return Err(ReadFault {
            kind: ReadKind::Unfinished,
            line: builder.line,
        });
    }
    Ok(builder)
}

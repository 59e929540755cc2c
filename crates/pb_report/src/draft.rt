//! What the lines of a report have said so far.
ghost use Rattle.std.specs.Prelude.{◌≡◌, ◌≢◌, ◌∷◌, ◌++◌, [], ℕ, ℤ, List, length, IfOk, IsOk, OnOk, None, Ok, Some};
ghost use Rattle.pb_report.specs.Claims.{status_words};
ghost use Rattle.pb_report.specs.Draft.{Follow, IsDraft, fresh_draft};
ghost use Rattle.pb_report.specs.Lines.{words, rows, said, is_values};
ghost use Rattle.pb_report.specs.Numbers.{Fits128};
ghost use Rattle.pb_report.specs.Report.{AreValuesOf, Claims, IsCost};
ghost use Rattle.pb_report.specs.Values.{Complete};
ghost use Rattle.pb_report.specs.declared.statuses.Status.{Status};

use crate::claims::{Claim, Witness};
use crate::faults::{ReportFault, ReportKind};
use crate::keys::{Key, key_of};
use crate::numbers::number_of;
use crate::statuses::{Status, status_of};
use crate::values::Values;
use bstr::{ByteSlice, Fields};
use pb_inst::{Memory, Number};
use pb_read::Format;
use std::alloc::Global;

/// What the lines of a report have said so far.
#[derive(Drop)]
pub(crate) struct Draft {
    pub(crate) status: Option<Status>,
    pub(crate) cost: Option<Number>,
    pub(crate) values: Values,
    /// The number of the last `v` line, if there was one.
    pub(crate) last_values: Option<u64>,
    /// The number of the `s` line.
    pub(crate) status_line: u64,
}

impl Draft {
    /// A draft that has read no line.
    pub(crate) fn new(alloc: Global, format: Format, vars: u32) -> Result<Draft, Memory>
        ensures same_length { IfOk result (λ draft. length draft.values.given ≡ length draft.values.seen) }
        ensures format { IfOk result (λ draft. draft.values.format ≡ format) }
        ensures drafted { IfOk result (λ draft. IsDraft vars [] draft) }
        ensures fresh { IfOk result (λ draft. draft ≡ fresh_draft format vars) }
    {
        let values = Values::new(alloc, format, vars)?;
        Ok(Draft {
            status: None,
            cost: None,
            values,
            last_values: None,
            status_line: 0,
        })
    }

    /// Takes the line of this number.
    pub(crate) fn take_line(&mut self, line: &[u8], number: u64) -> Result<(), ReportKind>
        requires { length self.old.values.given ≡ length self.old.values.seen }
        ensures same_length { length self.new.values.given ≡ length self.new.values.seen }
        ensures same_format { self.new.values.format ≡ self.old.values.format }
        ensures drafted { (vars : ℕ) (lines : List (List (List ℕ))) → IsDraft vars lines self.old → OnOk result (IsDraft vars (lines ++ words line.now ∷ []) self.new) }
        ensures accepted { (status : Status) (more : List (List (List ℕ))) → Follow status (words line.now ∷ more) self.old → IsOk result × Follow status more self.new }
    {
        let mut words = line.fields();
        let Some(first) = words.next() else {
            return Ok(());
        };
        match key_of(first) {
            Key::Cost => self.cost = Some(cost_of(words)?),
            Key::Status => {
                self.status = Some(first_status(self.status, words)?);
                self.status_line = number;
            }
            Key::Values => {
                self.values.take_words(words)?;
                self.last_values = Some(number);
            }
            Key::Comment => {}
            Key::Other => return Err(ReportKind::Syntax),
        }
        Ok(())
    }

    /// What the whole report claims; `last` is the number of its last line.
    pub(crate) fn finish(self, last: u64) -> Result<Claim, ReportFault>
        ensures claimed { (vars : ℕ) (text : List ℕ) → IsDraft vars (rows text) self → IfOk result (λ claim. Claims self.values.format vars text claim) }
        ensures accepted { (status : Status) → Follow status [] self → IsOk result }
    {
        let Some(status) = self.status else {
            return Err(fault(ReportKind::NoStatus, last));
        };
        match status {
            Status::Optimum => Ok(Claim::Optimum(self.witness()?)),
            Status::Satisfiable => Ok(Claim::Satisfiable(self.witness()?)),
            Status::Unsatisfiable => self.without_values(Claim::Unsatisfiable),
            Status::Unknown => self.without_values(Claim::Unknown),
            Status::Unsupported => self.without_values(Claim::Unsupported),
        }
    }

    /// The claim, which is refused where there is a `v` line beside it.
    fn without_values(&self, claim: Claim) -> Result<Claim, ReportFault>
        ensures claim { IfOk result (λ kept. kept ≡ claim) }
        ensures none { OnOk result (self.now.last_values ≡ None) }
        ensures accepted { self.now.last_values ≡ None → IsOk result }
    {
        if self.last_values.is_some() {
            return Err(fault(ReportKind::Unclaimed, self.status_line));
        }
        Ok(claim)
    }

    /// The assignment and the last cost.
    fn witness(self) -> Result<Witness, ReportFault>
        ensures cost { IfOk result (λ witness. witness.cost ≡ self.cost) }
        ensures values { (vars : ℕ) (lines : List (List (List ℕ))) → IsDraft vars lines self
            → IfOk result (λ witness. AreValuesOf self.values.format vars (said is_values lines) (Some witness)) }
        ensures accepted { self.last_values ≢ None → Complete [] self.values → IsOk result }
    {
        let Some(last) = self.last_values else {
            return Err(fault(ReportKind::NoValues, self.status_line));
        };
        match self.values.finish() {
            Ok(values) => Ok(Witness {
                cost: self.cost,
                values,
            }),
            Err(kind) => Err(fault(kind, last)),
        }
    }
}

/// The status that the words spell, where there was none before.
fn first_status(before: Option<Status>, words: Fields<'_>) -> Result<Status, ReportKind>
    ensures first { OnOk result (before ≡ None) }
    ensures status { IfOk result (λ status. words.entry ≡ status_words status) }
    ensures accepted { (status : Status) → before ≡ None → words.entry ≡ status_words status → result ≡ Ok status }
{
    if before.is_some() {
        return Err(ReportKind::SecondStatus);
    }
    status_of(words).ok_or(ReportKind::Syntax)
}

/// The number that is the only word of an `o` line.
fn cost_of(words: Fields<'_>) -> Result<Number, ReportKind>
    ensures cost { IfOk result (λ z. IsCost words.entry z) }
    ensures accepted { (z : ℤ) → IsCost words.entry z → Fits128 z → IsOk result }
{
    let mut words = words;
    let (Some(word), None) = (words.next(), words.next()) else {
        return Err(ReportKind::Syntax);
    };
    number_of(word).ok_or(ReportKind::Syntax)
}

fn fault(kind: ReportKind, line: u64) -> ReportFault {
    ReportFault { kind, line }
}

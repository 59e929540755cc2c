//! The values of `v` lines.
ghost use Rattle.std.specs.Prelude.{◌≡◌, ◌≤◌, ◌-◌, ◌∷◌, ◌++◌, [], ℕ, List, length, slice_index_or, false, IfOk, IsOk, OnOk};
ghost use Rattle.pb_report.specs.Values.{AreTaken, AreSpelled, Complete, CompleteWords, IsValueWord, after_literal, fresh_values, has_end};

use crate::faults::ReportKind;
use crate::words::{ValueWord, value_word};
use bstr::Fields;
use pb_inst::{Assignment, Memory};
use pb_read::Format;
use std::alloc::Global;

/// The values that the words of `v` lines gave so far.
#[derive(Drop)]
pub(crate) struct Values {
    pub(crate) format: Format,
    pub(crate) given: Assignment,
    /// True for each variable that has a value already.
    pub(crate) seen: Assignment,
    /// The number of variables that have no value yet.
    pub(crate) left: u32,
    pub(crate) ended: bool,
}

impl Values {
    /// Values of which no variable has one yet.
    pub(crate) fn new(alloc: Global, format: Format, vars: u32) -> Result<Values, Memory>
        ensures format { IfOk result (λ values. values.format ≡ format) }
        ensures same_length { IfOk result (λ values. length values.given ≡ length values.seen) }
        ensures taken { IfOk result (λ values. AreTaken vars [] values) }
        ensures fresh { IfOk result (λ values. values ≡ fresh_values format vars) }
    {
        let given = Assignment::new(alloc, vars)?;
        let seen = Assignment::new(alloc, vars)?;
        Ok(Values {
            format,
            given,
            seen,
            left: vars,
            ended: false,
        })
    }

    /// Takes the words of one more line.
    pub(crate) fn take_words(&mut self, words: Fields<'_>) -> Result<(), ReportKind>
        requires { length self.old.given ≡ length self.old.seen }
        ensures same_length { length self.new.given ≡ length self.new.seen }
        ensures same_format { self.new.format ≡ self.old.format }
        ensures taken { (vars : ℕ) (taken : List (List ℕ)) → AreTaken vars taken self.old → OnOk result (AreTaken vars (taken ++ words.entry) self.new) }
        ensures accepted { (more : List (List ℕ)) → CompleteWords (words.entry ++ more) self.old → IsOk result × CompleteWords more self.new }
    {
        for word in words {
            self.take(word)?;
        }
        Ok(())
    }

    fn take(&mut self, word: &[u8]) -> Result<(), ReportKind>
        requires { length self.old.given ≡ length self.old.seen }
        ensures same_length { length self.new.given ≡ length self.new.seen }
        ensures same_format { self.new.format ≡ self.old.format }
        ensures taken { (vars : ℕ) (taken : List (List ℕ)) → AreTaken vars taken self.old → OnOk result (AreTaken vars (taken ++ word.now ∷ []) self.new) }
        ensures accepted { (more : List (List ℕ)) → CompleteWords (word.now ∷ more) self.old → IsOk result × CompleteWords more self.new }
    {
        if self.ended {
            return Err(ReportKind::Syntax);
        }
        match value_word(self.format, word) {
            None => return Err(ReportKind::Syntax),
            Some(ValueWord::End) => self.ended = true,
            Some(ValueWord::Literal { positive, var }) => self.give(positive, var)?,
        }
        Ok(())
    }

    /// Gives a variable its value.
    fn give(&mut self, positive: bool, var: u32) -> Result<(), ReportKind>
        requires { length self.old.given ≡ length self.old.seen }
        ensures same_length { length self.new.given ≡ length self.new.seen }
        ensures same_format { self.new.format ≡ self.old.format }
        ensures taken { (vars : ℕ) (taken : List (List ℕ)) (word : List ℕ) → AreTaken vars taken self.old → self.old.ended ≡ false
            → IsValueWord self.old.format word (ValueWord.Literal positive var) → OnOk result (AreTaken vars (taken ++ word ∷ []) self.new) }
        ensures accepted { 1 ≤ var → var ≤ length self.old.given → slice_index_or self.old.seen (var - 1) false ≡ false → 1 ≤ self.old.left
            → IsOk result × (self.new ≡ after_literal self.old positive var) }
    {
        if var == 0 || var > self.given.len() {
            return Err(ReportKind::BadVariable);
        }
        // Where each variable has a value already, this one is repeated.
        if self.left == 0 || self.seen.get(var) {
            return Err(ReportKind::RepeatedVariable);
        }
        self.seen.set(var, true);
        self.given.set(var, positive);
        self.left -= 1;
        Ok(())
    }

    /// The values of all variables.
    pub(crate) fn finish(self) -> Result<Assignment, ReportKind>
        ensures spelled { (vars : ℕ) (taken : List (List ℕ)) → AreTaken vars taken self → IfOk result (λ values. AreSpelled self.format vars taken values) }
        ensures accepted { Complete [] self → IsOk result }
    {
        if self.left > 0 || self.ended != has_end(self.format) {
            return Err(ReportKind::Unfinished);
        }
        Ok(self.given)
    }
}

/// Whether the format writes a `0` behind its literals.
fn has_end(format: Format) -> bool
    ensures { result ≡ has_end format }
{
    match format {
        Format::Opb => false,
        Format::Cnf | Format::Icnf => true,
    }
}

//! Reading clauses word by word.
//! Source: [DIMACS]
ghost use Rattle.std.specs.Prelude.{◌≡◌, ◌≤◌, ◌<◌, ◌+◌, ◌^◌, length, IfOk, option_map, ◌∷◌, ◌++◌, ◌⊎◌, [], List, ℕ, Option, None, Some, OnOk, IfErr, fold, map, max};
ghost use Rattle.pb_inst.specs.declared.limits.TheConstants.{MAX_VARS};
ghost use Rattle.pb_inst.specs.Literal.{Literal};
ghost use Rattle.pb_read.specs.Text.{Placed, items};
ghost use Rattle.pb_read.specs.Refusal.{first_kind, first_fault};
ghost use Rattle.pb_read.specs.Clauses as clauses;
ghost use Rattle.pb_read.specs.Clauses.{all_there, clause_faults, clauses_in, on_line, placed_words, whole_words};
ghost use Rattle.pb_read.specs.ClauseReading.{capped, content_from, lines_from, Fails, Holds, HasTaken, IsNextLine, IsWhole, IsProperWord};
ghost use Rattle.pb_read.specs.Icnf.{clause_part, cube_part};
ghost use Rattle.pb_read.specs.Reading.{IsMemory};

use crate::dimacs::content_lines::ContentLines;
use crate::dimacs::cube_lines::is_cube_line;
use crate::dimacs::scan::Scan;
use crate::dimacs::word::{Word, next_word, word_of};
use crate::fault::{ReadFault, ReadKind};
use pb_inst::{InstanceBuilder, Lit, MAX_CONSTRAINTS, MAX_TERMS, MAX_VARS};
use std::alloc::Global;

/// The greatest variable of the literals, and 0 where there is none.
pub(crate) fn greatest_var(literals: &[Lit]) -> u32
    ensures { result ≡ fold (λ (n : ℕ) (l : Literal). max n l.var) 0 literals.now }
{
    literals
        .iter()
        .fold(0, |greatest, literal| greatest.max(literal.var()))
}

/// The clauses so far, and the words of one that has begun.
pub(crate) struct ClauseReader {
    pub(crate) builder: InstanceBuilder,
    /// The number of clauses that the text announces, if it announces one.
    pub(crate) announced: Option<usize>,
    pub(crate) count: usize,
    pub(crate) literal_count: usize,
    /// The greatest variable of the clauses so far.
    pub(crate) greatest: u32,
    pub(crate) scan: Scan,
    /// The line of the first word of the clause that has begun.
    pub(crate) begun: Option<u64>,
}

impl Drop for ClauseReader {
    fn drop(self) {
        let ClauseReader {
            builder: _,
            announced: _,
            count: _,
            literal_count: _,
            greatest: _,
            scan: _,
            begun: _,
        } = self;
    }
}

impl ClauseReader {
    /// A reader that has taken no words. Its clauses are over the variables up to the limit.
    pub(crate) fn new(alloc: Global, announced: Option<usize>, limit: u32) -> ClauseReader
        ensures { HasTaken announced limit result [] }
    {
        ClauseReader {
            builder: InstanceBuilder::new(alloc),
            announced,
            count: 0,
            literal_count: 0,
            greatest: 0,
            scan: Scan::new(alloc, limit),
            begun: None,
        }
    }

    /// Whether all announced clauses are there, so that no more may come.
    fn is_all_there(&self) -> bool
        ensures { result ≡ all_there self.now.announced self.now.count }
    {
        match self.announced {
            Some(announced) => self.count >= announced,
            None => false,
        }
    }

    /// The first fault of the clause that has begun, if it ends here.
    fn fault(&self) -> Option<ReadKind>
        ensures { (announced : Option ℕ) (n : ℕ) (earlier : List (List Literal)) (begun : List (Placed clauses.Word)) → Holds announced n self.now earlier begun
            → result ≡ first_kind (clause_faults announced n (map whole_words earlier) (items begun)) }
    {
        if self.is_all_there() {
            return Some(ReadKind::TooManyClauses);
        }
        let count = self.count.saturating_add(1);
        let total = self.literal_count.saturating_add(self.scan.literals.len());
        self.scan
            .fault((count > MAX_CONSTRAINTS) | (total > MAX_TERMS))
    }

    /// Takes the clause that has begun. The last word taken was its end word.
    fn finish_clause(&mut self, line: u64) -> Result<(), ReadFault>
        ensures same_limit { self.new.scan.limit ≡ self.old.scan.limit }
        ensures ok { (announced : Option ℕ) (n : ℕ) (earlier : List (List Literal)) (begun : List (Placed clauses.Word)) → Holds announced n self.old earlier begun
            → OnOk result ((first_kind (clause_faults announced n (map whole_words earlier) (items begun)) ≡ None)
            × (items begun ≡ whole_words self.old.scan.literals.items) × Holds announced n self.new (earlier ++ self.old.scan.literals.items ∷ []) []) }
        ensures err { (announced : Option ℕ) (n : ℕ) (earlier : List (List Literal)) (begun : List (Placed clauses.Word)) → Holds announced n self.old earlier begun
            → IfErr result (λ f. IsMemory f ⊎ ((f.line ≡ line) × (first_kind (clause_faults announced n (map whole_words earlier) (items begun)) ≡ Some f.kind))) }
    {
        if let Some(kind) = self.fault() {
            return Err(ReadFault { kind, line });
        }
        let Ok(()) = self.builder.add_clause(&self.scan.literals) else {
            return Err(ReadFault::MEMORY);
        };
        self.greatest = self.greatest.max(greatest_var(&self.scan.literals));
        self.literal_count = self.literal_count.saturating_add(self.scan.literals.len());
        self.count = self.count.saturating_add(1);
        self.scan.restart();
        self.begun = None;
        Ok(())
    }

    /// Takes the next word, which stands on the line.
    fn take(&mut self, word: Word, line: u64) -> Result<(), ReadFault>
        requires limit { self.old.scan.limit ≤ MAX_VARS }
        requires proper { IsProperWord word }
        ensures same_limit { self.new.scan.limit ≡ self.old.scan.limit }
        ensures ok { (announced : Option ℕ) (n : ℕ) (taken : List (Placed clauses.Word)) (t : clauses.Word) → HasTaken announced n self.old taken → word ≡ capped t
            → OnOk result (HasTaken announced n self.new (taken ++ record { item = t; line = line } ∷ [])) }
        ensures err { (announced : Option ℕ) (n : ℕ) (taken : List (Placed clauses.Word)) (t : clauses.Word) → HasTaken announced n self.old taken → word ≡ capped t
            → IfErr result (λ f. Fails announced n (taken ++ record { item = t; line = line } ∷ []) f) }
    {
        let first_line = self.begun.unwrap_or(line);
        let Ok(()) = self.scan.take(word) else {
            return Err(ReadFault::MEMORY);
        };
        self.begun = Some(first_line);
        if !self.scan.ended {
            return Ok(());
        }
        self.finish_clause(first_line)?;
        Ok(())
    }

    /// Takes the words of a line.
    pub(crate) fn take_line(&mut self, line: &[u8], number: u64) -> Result<(), ReadFault>
        requires limit { self.old.scan.limit ≤ MAX_VARS }
        ensures same_limit { self.new.scan.limit ≡ self.old.scan.limit }
        ensures ok { (announced : Option ℕ) (n : ℕ) (taken : List (Placed clauses.Word)) → HasTaken announced n self.old taken
            → OnOk result (HasTaken announced n self.new (taken ++ on_line (record { item = line.now; line = number }))) }
        ensures err { (announced : Option ℕ) (n : ℕ) (taken : List (Placed clauses.Word)) → HasTaken announced n self.old taken
            → IfErr result (λ f. Fails announced n (taken ++ on_line (record { item = line.now; line = number })) f) }
    {
        let mut rest = line;
        while let Some((word, after)) = next_word(rest) {
            self.take(word_of(word), number)?;
            rest = after;
        }
        Ok(())
    }

    /// Takes the words of the lines that are left.
    pub(crate) fn take_rest(&mut self, lines: &mut ContentLines) -> Result<(), ReadFault>
        requires limit { self.old.scan.limit ≤ MAX_VARS }
        requires counted { lines.old.before + length lines.old.rest < 2 ^ 64 }
        ensures ok { (announced : Option ℕ) (n : ℕ) (taken : List (Placed clauses.Word)) → HasTaken announced n self.old taken
            → OnOk result (HasTaken announced n self.new (taken ++ placed_words (content_from (lines.old.before + 1) lines.old.rest))) }
        ensures err { (announced : Option ℕ) (n : ℕ) (taken : List (Placed clauses.Word)) → HasTaken announced n self.old taken
            → IfErr result (λ f. Fails announced n (taken ++ placed_words (content_from (lines.old.before + 1) lines.old.rest)) f) }
        ensures lines { OnOk result (lines.new.before ≡ lines.old.before + length (lines_from (lines.old.before + 1) lines.old.rest)) }
    {
        while let Some((line, number)) = lines.next() {
            self.take_line(line, number)?;
        }
        Ok(())
    }

    /// Takes the words of the lines up to the first cube line, and gives back that line and its number.
    pub(crate) fn take_clauses<'t>(
        &mut self,
        lines: &mut ContentLines<'t>,
    ) -> Result<Option<(&'t [u8], u64)>, ReadFault>
        requires limit { self.old.scan.limit ≤ MAX_VARS }
        requires counted { lines.old.before + length lines.old.rest < 2 ^ 64 }
        ensures ok { (announced : Option ℕ) (n : ℕ) (taken : List (Placed clauses.Word)) → HasTaken announced n self.old taken
            → OnOk result (HasTaken announced n self.new (taken ++ placed_words (clause_part (content_from (lines.old.before + 1) lines.old.rest)))) }
        ensures err { (announced : Option ℕ) (n : ℕ) (taken : List (Placed clauses.Word)) → HasTaken announced n self.old taken
            → IfErr result (λ f. Fails announced n (taken ++ placed_words (clause_part (content_from (lines.old.before + 1) lines.old.rest))) f) }
        ensures first { IfOk result (λ first. IsNextLine (cube_part (content_from (lines.old.before + 1) lines.old.rest)) (content_from (lines.new.before + 1) lines.new.rest) (option_map (λ r. (r.0.now, r.1)) first)) }
        ensures counted { lines.new.before + length lines.new.rest < 2 ^ 64 }
    {
        while let Some((line, number)) = lines.next() {
            if is_cube_line(line) {
                return Ok(Some((line, number)));
            }
            self.take_line(line, number)?;
        }
        Ok(None)
    }

    /// The builder of the clauses so far.
    pub(crate) fn into_builder(self) -> InstanceBuilder
        ensures { result ≡ self.builder }
    {
        let ClauseReader {
            builder,
            announced: _,
            count: _,
            literal_count: _,
            greatest: _,
            scan: _,
            begun: _,
        } = self;
        builder
    }

    /// Refuses a clause that has begun and has a fault, where no more words come.
    pub(crate) fn end(&self) -> Result<(), ReadFault>
        ensures ok { (announced : Option ℕ) (n : ℕ) (taken : List (Placed clauses.Word)) → HasTaken announced n self.now taken
            → OnOk result (IsWhole announced n self.now taken) }
        ensures err { (announced : Option ℕ) (n : ℕ) (taken : List (Placed clauses.Word)) → HasTaken announced n self.now taken
            → IfErr result (λ f. first_fault (clause_faults announced n) [] (clauses_in taken) ≡ Some f) }
    {
        let Some(line) = self.begun else {
            return Ok(());
        };
        match self.fault() {
            Some(kind) => Err(ReadFault { kind, line }),
            None => Ok(()),
        }
    }
}

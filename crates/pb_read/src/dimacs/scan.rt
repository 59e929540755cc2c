//! The words of a clause or a cube, one by one.
ghost use Rattle.std.specs.Prelude.{◌≡◌, ◌<◌, ◌≤◌, ◌∷◌, ◌++◌, [], List, OnOk, if◌then◌else◌, nat_le, Some, None, map};
ghost use Rattle.pb_inst.specs.declared.limits.TheConstants.{MAX_VARS};
ghost use Rattle.pb_read.specs.Refusal.{first_kind};
ghost use Rattle.pb_read.specs.Clauses as clauses;
ghost use Rattle.pb_read.specs.Text.{words};
ghost use Rattle.pb_read.specs.ClauseReading.{capped, IsProperWord, Scanned};

use crate::dimacs::word::{Word, next_word, word_of};
use crate::fault::ReadKind;
use pb_inst::{Lit, MAX_VARS, Memory};
use std::alloc::Global;
use std::vec::Vec;

/// The literal, where its variable is at most the limit.
fn literal_within(positive: bool, var: u32, limit: u32) -> Option<Lit>
    requires positive { 0 < var }
    requires limit { limit ≤ MAX_VARS }
    ensures { result ≡ (if nat_le var limit then Some (record { var = var; positive = positive }) else None) }
{
    if var > limit {
        return None;
    }
    Lit::new(var, positive).ok()
}

/// What was seen of the words of a clause or a cube. It keeps the literals as long as each variable is at most the limit.
#[derive(Drop)]
pub(crate) struct Scan {
    pub(crate) literals: Vec<Lit>,
    pub(crate) limit: u32,
    pub(crate) ended: bool,
    pub(crate) broken: bool,
    pub(crate) over: bool,
}

impl Scan {
    /// A scan that has seen nothing.
    pub(crate) fn new(alloc: Global, limit: u32) -> Scan
        ensures limit { result.limit ≡ limit }
        ensures scanned { Scanned limit result.literals.items result.ended result.broken result.over [] }
    {
        Scan {
            literals: Vec::new(alloc),
            limit,
            ended: false,
            broken: false,
            over: false,
        }
    }

    /// Takes the next word.
    pub(crate) fn take(&mut self, word: Word) -> Result<(), Memory>
        requires limit { self.old.limit ≤ MAX_VARS }
        requires proper { IsProperWord word }
        ensures same_limit { self.new.limit ≡ self.old.limit }
        ensures scanned { (seen : List clauses.Word) (t : clauses.Word) → Scanned self.old.limit self.old.literals.items self.old.ended self.old.broken self.old.over seen → word ≡ capped t
            → OnOk result (Scanned self.new.limit self.new.literals.items self.new.ended self.new.broken self.new.over (seen ++ t ∷ [])) }
    {
        self.broken = self.broken | self.ended;
        match word {
            Word::Zero => self.ended = true,
            Word::Bad => self.broken = true,
            Word::Literal { positive, var } => match literal_within(positive, var, self.limit) {
                Some(literal) => self.literals.push(literal)?,
                None => self.over = true,
            },
        }
        Ok(())
    }

    /// Takes the words of a line, or of a part of one.
    pub(crate) fn take_words(&mut self, bytes: &[u8]) -> Result<(), Memory>
        requires limit { self.old.limit ≤ MAX_VARS }
        ensures same_limit { self.new.limit ≡ self.old.limit }
        ensures scanned { (seen : List clauses.Word) → Scanned self.old.limit self.old.literals.items self.old.ended self.old.broken self.old.over seen
            → OnOk result (Scanned self.new.limit self.new.literals.items self.new.ended self.new.broken self.new.over (seen ++ map clauses.word_of (words bytes.now))) }
    {
        let mut rest = bytes;
        while let Some((word, after)) = next_word(rest) {
            self.take(word_of(word))?;
            rest = after;
        }
        Ok(())
    }

    /// Starts again, with no words.
    pub(crate) fn restart(&mut self)
        ensures same_limit { self.new.limit ≡ self.old.limit }
        ensures scanned { Scanned self.new.limit self.new.literals.items self.new.ended self.new.broken self.new.over [] }
    {
        self.literals.clear();
        self.ended = false;
        self.broken = false;
        self.over = false;
    }

    /// The first fault of the words, where there is one.
    pub(crate) fn fault(&self, too_many: bool) -> Option<ReadKind>
        ensures { (seen : List clauses.Word) → Scanned self.now.limit self.now.literals.items self.now.ended self.now.broken self.now.over seen
            → result ≡ first_kind (clauses.word_faults self.now.limit seen too_many) }
    {
        if !self.ended {
            Some(ReadKind::Unfinished)
        } else if self.broken {
            Some(ReadKind::Syntax)
        } else if self.over {
            Some(ReadKind::BadVariable)
        } else if too_many {
            Some(ReadKind::TooMany)
        } else {
            None
        }
    }
}

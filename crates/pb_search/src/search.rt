//! Searches of pieces.

ghost use Rattle.std.specs.Prelude.{◌≡◌, ◌⊎◌, ◌≤◌, ℕ, false, length, IfOk, Some, IfSome, IfNone, IsSomeAnd, IsTrue};
ghost use Rattle.pb_normal.specs.NormalForm.{KeepsCost, KeepsFeasible};
ghost use Rattle.pb_cubes.specs.Pieces.{LiesIn};
ghost use Rattle.pb_subtree.specs.Held.{IsNotAfter};

use crate::piece_search::PieceSearch;
use crate::tables::SearchTables;
use pb_cubes::Pieces;
use pb_inst::{Best, Instance, Memory};
use pb_normal::{Normal, Width};
use pb_subtree::{Outcome, Share};
use std::alloc::Global;
use std::marker::Model;

/// How many times the search of the whole is about to flip a decision before a worker turns to the pieces. One worker took a tenth more
/// seconds for a split of 4 with 64, and with 1,024.
pub const FIRST_TURNS: u32 = 256;

/// How many times it is about to flip a decision before the worker that stays with the whole turns to the pieces, too. Chosen by hand: a
/// search that takes more is one of minutes.
pub const LONG_TURNS: u32 = 1 << 20;

/// What the searches of an instance's pieces need: an engine for the cubes and one for the remainder, which all searches
/// use again, and the room for decisions and assignments. They count in numbers of the normal form's width.
pub struct Search<'a> {
    at_width: Width<PieceSearch<'a, u64>, PieceSearch<'a, u128>>,
    decisions: u64,
}

impl<'a> Model for Search<'a> {
    ghost use Rattle.pb_search.specs.Searcher.{Searcher};
    ghost use Rattle.pb_normal.specs.Widths.{either};

    ghost Value = { Searcher };

    ghost view = { λ s. record { division = either s.at_width; decisions = s.decisions } };
}

impl<'a> Drop for Search<'a> {
    fn drop(self) {
        let Search {
            at_width: _,
            decisions: _,
        } = self;
    }
}

impl<'a> Search<'a> {
    ghost use Rattle.pb_cubes.specs.Done.{IsDone};

    /// Makes all that the searches of the pieces need, over a normal form of the instance. Fails where memory is refused.
    pub fn new(
        alloc: Global,
        instance: &'a Instance,
        normal: &'a Normal,
        pieces: &'a Pieces,
    ) -> Result<Search<'a>, Memory>
        requires vars { normal.now.vars ≡ instance.now.vars }
        requires feasible { KeepsFeasible instance.now normal.now }
        requires costs { KeepsCost instance.now normal.now }
        requires pieces { pieces.now.vars ≡ instance.now.vars }
        ensures { IfOk result (λ s. s ≡ record { division = record { problem = instance.now; cubes = pieces.now.cubes }; decisions = 0 }) }
    {
        let at_width = match normal.form() {
            Width::Narrow(form) => {
                Width::Narrow(PieceSearch::new(alloc, instance, form, pieces)?)
            }
            Width::Wide(form) => { Width::Wide(PieceSearch::new(alloc, instance, form, pieces)?) }
        };
        Ok(Search {
            at_width,
            decisions: 0,
        })
    }

    /// Makes all that the searches of the pieces need, over tables that are lent. Fails where memory is refused.
    pub fn over(alloc: Global, tables: &'a SearchTables<'a>) -> Result<Search<'a>, Memory>
        ensures { IfOk result (λ s. s ≡ record { division = tables.now; decisions = 0 }) }
    {
        let at_width = match tables.at_width() {
            Width::Narrow(tables) => Width::Narrow(PieceSearch::over(alloc, tables)?),
            Width::Wide(tables) => Width::Wide(PieceSearch::over(alloc, tables)?),
        };
        Ok(Search {
            at_width,
            decisions: 0,
        })
    }

    /// How many decisions the last run that had a budget made; 0 before any.
    pub fn decisions(&self) -> u64
        ensures { result ≡ self.now.decisions }
    {
        self.decisions
    }

    /// Begins the search of the whole instance, where there is a cube, and keeps what it fixes for good: the pieces are then searched
    /// below that. It goes on until it was about to flip a decision as often as `turns` says, or the share says that it is over. Where
    /// it has begun before, it does nothing, unless the best cost has fallen since: then it adds what this cost fixes at the root. So a
    /// call before each piece does what is due. With a budget for each piece it does nothing at all, since then nothing is searched
    /// outside pieces. The best assignment is not after what it was. The share is asked and told as by `run`. Takes no memory.
    pub fn begin<S: Share>(
        &mut self,
        best: &mut Best<'_>,
        share: &mut S,
        turns: u32,
        nodes: Option<u64>,
    )
        requires { best.old.problem ≡ self.old.division.problem }
        ensures not_after { IsNotAfter self.old.division.problem best.old.held best.new.held }
        ensures kept { S.keeps share.old share.new }
        ensures same_lending { S.lends share.new ≡ S.lends share.old }
        ensures same_instance { best.new.problem ≡ best.old.problem }
        ensures nothing { IfSome nodes (λ _. best.new ≡ best.old) }
        ensures unchanged { self.new ≡ self.old }
    {
        if nodes.is_some() {
            return;
        }
        match &mut self.at_width {
            Width::Narrow(search) => search.begin(best, share, turns),
            Width::Wide(search) => search.begin(best, share, turns),
        }
    }

    /// Whether nothing comes before the best assignment, since `begin` went through the whole: then each piece is done. Without a
    /// cube it is false.
    pub fn is_settled(&mut self, best: &Best<'_>) -> bool
        requires { best.now.problem ≡ self.old.division.problem }
        ensures settled { IsTrue result → (i : ℕ) → IsDone self.old.division i best.now.held }
        ensures unchanged { self.new ≡ self.old }
    {
        match &mut self.at_width {
            Width::Narrow(search) => search.is_settled(best),
            Width::Wide(search) => search.is_settled(best),
        }
    }

    /// Searches a piece as `run` does without a budget, and answers `Cut` where the share says that it is over before all was
    /// searched. Takes no memory.
    pub fn run_beside<S: Share>(
        &mut self,
        piece: u32,
        best: &mut Best<'_>,
        share: &mut S,
    ) -> Outcome
        requires piece { piece ≤ length self.old.division.cubes }
        requires same_instance { best.old.problem ≡ self.old.division.problem }
        ensures done { result ≡ Outcome.Whole → IsDone self.old.division piece best.new.held }
        ensures not_after { IsNotAfter self.old.division.problem best.old.held best.new.held }
        ensures own { S.lends share.old ≡ false → (best.new ≡ best.old) ⊎ IsSomeAnd best.new.held (λ s. LiesIn self.old.division.cubes piece s.assignment) }
        ensures kept { S.keeps share.old share.new }
        ensures same_lending { S.lends share.new ≡ S.lends share.old }
        ensures same_instance { best.new.problem ≡ best.old.problem }
        ensures unchanged { self.new ≡ self.old }
    {
        let mut left = None;
        let turns = Some(u32::MAX);
        match &mut self.at_width {
            Width::Narrow(search) => search.search(piece, best, share, turns, &mut left),
            Width::Wide(search) => search.search(piece, best, share, turns, &mut left),
        }
    }

    /// Searches a piece: that of a cube, or the remainder as the last one. With a budget it makes `nodes` decisions
    /// at most, for first and second values of variables alike; the literals of a cube are no decisions. It answers `Cut`
    /// where it would need one more, and without a budget always `Whole`. After `Whole` no feasible assignment of the piece is
    /// before the best one. In any case the best one is not after what it was, is none only where it was none, and the
    /// search may run again. It asks the share for an assignment at the beginning and after every 256th decision, where
    /// those of probes and dives count too, and tells it of each improvement of its own. Takes no memory.
    pub fn run<S: Share>(
        &mut self,
        piece: u32,
        best: &mut Best<'_>,
        share: &mut S,
        nodes: Option<u64>,
    ) -> Outcome
        requires piece { piece ≤ length self.old.division.cubes }
        requires same_instance { best.old.problem ≡ self.old.division.problem }
        ensures done { result ≡ Outcome.Whole → IsDone self.old.division piece best.new.held }
        ensures within { IfSome nodes (λ budget. self.new.decisions ≤ budget) }
        ensures cut { result ≡ Outcome.Cut → nodes ≡ Some self.new.decisions }
        ensures no_budget { IfNone nodes ((result ≡ Outcome.Whole) × (self.new ≡ self.old)) }
        ensures not_after { IsNotAfter self.old.division.problem best.old.held best.new.held }
        ensures own { S.lends share.old ≡ false → (best.new ≡ best.old) ⊎ IsSomeAnd best.new.held (λ s. LiesIn self.old.division.cubes piece s.assignment) }
        ensures kept { S.keeps share.old share.new }
        ensures same_lending { S.lends share.new ≡ S.lends share.old }
        ensures same_instance { best.new.problem ≡ best.old.problem }
        ensures unchanged { self.new.division ≡ self.old.division }
    {
        let mut left = nodes;
        let outcome = match &mut self.at_width {
            Width::Narrow(search) => search.search(piece, best, share, None, &mut left),
            Width::Wide(search) => search.search(piece, best, share, None, &mut left),
        };
        if let (Some(budget), Some(left)) = (nodes, left) {
            self.decisions = budget - left;
        }
        outcome
    }
}

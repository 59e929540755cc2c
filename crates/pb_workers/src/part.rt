//! What one worker did.
ghost use Rattle.std.specs.Prelude.{◌≡◌, true, IsTrue};
ghost use Rattle.pb_workers.specs.Parts.{AreDone, IsSettled};

use crate::named::Named;
use pb_cubes::Pieces;
use pb_inst::Best;
use std::marker::Model;

/// The numbers of the pieces of a list that a worker got, and the best assignment that it found. A piece is named as done or as
/// cut. No feasible assignment of a done piece comes before the best one. Where there is no best one, no done piece has a
/// feasible assignment. Nothing is said of a cut piece. With a budget the decisions of each search are told.
#[derive(Drop)]
pub struct Part<'i> {
    list: &'i Pieces,
    named: Named,
    best: Best<'i>,
    // whether the worker went through the whole
    is_settled: bool,
}

impl<'i> Model for Part<'i> {
    ghost use Rattle.std.specs.Prelude.{◌≡◌, true};
    ghost use Rattle.pb_workers.specs.Parts.{PartView, AreDone, IsSettled};

    ghost Value = { PartView };

    ghost view = { λ p. record { pieces = p.list.now; named = p.named.done.items; cut = p.named.cut.items; decisions = p.named.decisions.items; cut_decisions = p.named.cut_decisions.items; best = p.best } };

    ghost invariant = { λ p. AreDone (record { pieces = p.list.now; named = p.named.done.items; cut = p.named.cut.items; decisions = p.named.decisions.items; cut_decisions = p.named.cut_decisions.items; best = p.best }) × (p.is_settled ≡ true → IsSettled p.list.now p.best) };
}

impl<'i> Part<'i> {
    /// The part that names these pieces of the list: those that are done, and those that were cut. It is settled where each piece
    /// of the list is done, whoever got it.
    pub(crate) fn new(list: &'i Pieces, named: Named, best: Best<'i>, is_settled: bool) -> Part<'i>
        requires settled { is_settled ≡ true → IsSettled list.now best }
        requires done { AreDone (record { pieces = list.now; named = named.done.items; cut = named.cut.items; decisions = named.decisions.items; cut_decisions = named.cut_decisions.items; best = best }) }
        ensures { result ≡ record { pieces = list.now; named = named.done.items; cut = named.cut.items; decisions = named.decisions.items; cut_decisions = named.cut_decisions.items; best = best.entry } }
    {
        Part {
            list,
            named,
            best,
            is_settled,
        }
    }

    /// Whether each piece of the list is done, whoever got it.
    pub(crate) fn is_settled(&self) -> bool
        ensures { IsTrue result → IsSettled self.now.pieces self.now.best }
    {
        self.is_settled
    }

    /// The numbers of the pieces that are done.
    pub fn pieces(&self) -> &[u32]
        ensures value { result.now ≡ self.now.named }
        ensures done { AreDone self.now }
    {
        &self.named.done
    }

    /// The numbers of the pieces whose search was cut by its budget: none without one.
    pub fn cut(&self) -> &[u32]
        ensures { result.now ≡ self.now.cut }
    {
        &self.named.cut
    }

    /// How many decisions the search of each done piece made, in the order of `pieces`. Without a budget the list is empty.
    pub fn decisions(&self) -> &[u64]
        ensures { result.now ≡ self.now.decisions }
    {
        &self.named.decisions
    }

    /// How many decisions the search of each cut piece made, in the order of `cut`. Without a budget the list is empty.
    pub fn cut_decisions(&self) -> &[u64]
        ensures { result.now ≡ self.now.cut_decisions }
    {
        &self.named.cut_decisions
    }

    /// The best assignment that was found.
    pub fn best(&self) -> &Best<'i>
        ensures value { result.now ≡ self.now.best }
        ensures done { AreDone self.now }
    {
        &self.best
    }
}

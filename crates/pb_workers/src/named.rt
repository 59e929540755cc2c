//! The pieces that a worker was granted, and their numbers by how their searches ended.
ghost use Rattle.std.specs.Prelude.{◌≡◌, ◌<◌, [], true, length, IfNone, IfOk, IfSome, vec_capacity};
ghost use Rattle.pb_workers.specs.Claims.{NamesOneMore};
ghost use Rattle.pb_workers.specs.Dealing.{has_claims};

use crate::note_share::OuterShare;
use crate::sharing::BoardShare;
use crate::task::{Task, claims_pieces};
use pb_inst::Memory;
use pb_search::Outcome;
use std::alloc::Global;

/// A piece that the worker was granted. A grant cannot be let go: it is used up where its piece is named, so each piece that was
/// granted is named.
pub(crate) struct Grant {
    piece: u32,
}

impl Grant {
    /// Asks the share for a piece, where the task claims pieces. Else the worker is granted each piece.
    pub(crate) fn ask<S: OuterShare + Drop>(
        share: &mut BoardShare<'_, S>,
        task: &Option<Task>,
        piece: u32,
    ) -> Option<Grant>
        ensures some { IfSome result (λ grant. grant.piece ≡ piece) }
        ensures none { IfNone result (has_claims task.now ≡ true) }
        ensures unchanged { share.new ≡ share.old }
    {
        if !claims_pieces(task) || share.may_search(piece) {
            Some(Grant { piece })
        } else {
            None
        }
    }

    /// The number of the piece.
    pub(crate) fn piece(&self) -> u32
        ensures { result ≡ self.now.piece }
    {
        self.piece
    }
}

/// The numbers of the pieces that a worker got: those that are done, and those whose search was cut; and with a budget, in the
/// same order, how many decisions each of these searches made.
#[derive(Drop)]
pub(crate) struct Named {
    pub(crate) done: Vec<u32>,
    pub(crate) cut: Vec<u32>,
    pub(crate) decisions: Vec<u64>,
    pub(crate) cut_decisions: Vec<u64>,
}

impl Named {
    /// Names no piece.
    pub(crate) fn new(alloc: Global) -> Named
        ensures pieces { (result.done.items ≡ []) × (result.cut.items ≡ []) }
        ensures decisions { (result.decisions.items ≡ []) × (result.cut_decisions.items ≡ []) }
    {
        Named {
            done: Vec::new(alloc),
            cut: Vec::new(alloc),
            decisions: Vec::new(alloc),
            cut_decisions: Vec::new(alloc),
        }
    }

    /// Makes room for one more number, however the search of its piece ends, and with a budget for the count of its decisions.
    pub(crate) fn reserve(&mut self, nodes: Option<u64>) -> Result<(), Memory>
        ensures same_done { self.new.done.items ≡ self.old.done.items }
        ensures same_cut { self.new.cut.items ≡ self.old.cut.items }
        ensures same_decisions { self.new.decisions.items ≡ self.old.decisions.items }
        ensures same_cut_decisions { self.new.cut_decisions.items ≡ self.old.cut_decisions.items }
        ensures room { IfOk result (λ _. (length self.new.done.items < vec_capacity self.new.done) × (length self.new.cut.items < vec_capacity self.new.cut)) }
        ensures counts { IfOk result (λ _. IfSome nodes (λ _. (length self.new.decisions.items < vec_capacity self.new.decisions) × (length self.new.cut_decisions.items < vec_capacity self.new.cut_decisions))) }
    {
        self.done.reserve(1)?;
        self.cut.reserve(1)?;
        match nodes {
            Some(_) => self.reserve_decisions(),
            None => Ok(()),
        }
    }

    fn reserve_decisions(&mut self) -> Result<(), Memory>
        ensures same_done { self.new.done ≡ self.old.done }
        ensures same_cut { self.new.cut ≡ self.old.cut }
        ensures same_decisions { self.new.decisions.items ≡ self.old.decisions.items }
        ensures same_cut_decisions { self.new.cut_decisions.items ≡ self.old.cut_decisions.items }
        ensures room { IfOk result (λ _. (length self.new.decisions.items < vec_capacity self.new.decisions) × (length self.new.cut_decisions.items < vec_capacity self.new.cut_decisions)) }
    {
        self.decisions.reserve(1)?;
        self.cut_decisions.reserve(1)?;
        Ok(())
    }

    /// Names the piece of a grant as done or as cut, and records its decisions where they are counted.
    pub(crate) fn push_reserved(&mut self, grant: Grant, outcome: Outcome, decisions: Option<u64>)
        requires done { length self.old.done.items < vec_capacity self.old.done }
        requires cut { length self.old.cut.items < vec_capacity self.old.cut }
        requires counts { IfSome decisions (λ _. (length self.old.decisions.items < vec_capacity self.old.decisions) × (length self.old.cut_decisions.items < vec_capacity self.old.cut_decisions)) }
        ensures named { NamesOneMore outcome grant.piece self.old.done.items self.old.cut.items self.new.done.items self.new.cut.items }
        ensures counted { IfSome decisions (λ n. NamesOneMore outcome n self.old.decisions.items self.old.cut_decisions.items self.new.decisions.items self.new.cut_decisions.items) }
    {
        let Grant { piece } = grant;
        self.name(piece, outcome);
        if let Some(decisions) = decisions {
            self.count(outcome, decisions);
        }
    }

    fn name(&mut self, piece: u32, outcome: Outcome)
        requires done { length self.old.done.items < vec_capacity self.old.done }
        requires cut { length self.old.cut.items < vec_capacity self.old.cut }
        ensures named { NamesOneMore outcome piece self.old.done.items self.old.cut.items self.new.done.items self.new.cut.items }
        ensures same_decisions { self.new.decisions ≡ self.old.decisions }
        ensures same_cut_decisions { self.new.cut_decisions ≡ self.old.cut_decisions }
    {
        match outcome {
            Outcome::Whole => self.done.push_reserved(piece),
            Outcome::Cut => self.cut.push_reserved(piece),
        }
    }

    fn count(&mut self, outcome: Outcome, decisions: u64)
        requires done { length self.old.decisions.items < vec_capacity self.old.decisions }
        requires cut { length self.old.cut_decisions.items < vec_capacity self.old.cut_decisions }
        ensures counted { NamesOneMore outcome decisions self.old.decisions.items self.old.cut_decisions.items self.new.decisions.items self.new.cut_decisions.items }
        ensures same_done { self.new.done ≡ self.old.done }
        ensures same_cut { self.new.cut ≡ self.old.cut }
    {
        match outcome {
            Outcome::Whole => self.decisions.push_reserved(decisions),
            Outcome::Cut => self.cut_decisions.push_reserved(decisions),
        }
    }
}

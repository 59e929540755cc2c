//! What the search of the whole fixed for good, so that the pieces are searched below it.

ghost use Rattle.std.specs.Prelude.{◌≡◌, ◌≤◌, [], false, IfOk, None, length, vec_capacity};
ghost use Rattle.pb_subtree.specs.Held.{IsNotAfter, MovesOn};
ghost use Rattle.pb_inst.specs.Incumbent.{IsSound};
ghost use Rattle.pb_search.specs.Layout.{IsCubeState};
ghost use Rattle.pb_search.specs.Root.{IsFixedFor};

use pb_engine::Coefficient;
use pb_inst::{Best, Instance, Lit, Memory, precedes};
use pb_subtree::{Outcome, SearchState, Share, begin_whole};
use std::alloc::Global;
use std::marker::Model;

/// Literals that are fixed for good, the best assignment when they were, and whether the whole was searched then: a feasible assignment
/// that comes before that one makes the literals true, and where the whole was searched there is none.
pub struct WholeRoot<'a> {
    has_begun: bool,
    literals: Vec<Lit>,
    is_closed: bool,
    best: Best<'a>,
}

impl<'a> Model for WholeRoot<'a> {
    ghost use Rattle.pb_search.specs.Root.{Root, IsFixedFor};

    ghost Value = { Root };

    ghost view = { λ r. record { literals = r.literals.items; closed = r.is_closed; best = r.best } };

    ghost invariant = { λ r. IsFixedFor r.best.problem r.literals.items r.is_closed r.best.held };
}

impl<'a> Drop for WholeRoot<'a> {
    fn drop(self) {
        let WholeRoot {
            has_begun: _,
            literals: _,
            is_closed: _,
            best: _,
        } = self;
    }
}

impl<'a> WholeRoot<'a> {
    /// Nothing is fixed. Fails where memory is refused.
    pub fn none(alloc: Global, instance: &'a Instance) -> Result<WholeRoot<'a>, Memory>
        ensures { IfOk result (λ r. r ≡ record { literals = []; closed = false; best = record { problem = instance.now; held = None } }) }
    {
        let literals = Vec::with_capacity(alloc, instance.vars() as usize)?;
        let best = Best::none(alloc, instance)?;
        Ok(WholeRoot {
            has_begun: false,
            literals,
            is_closed: false,
            best,
        })
    }

    /// Begins the search of the whole, for as many turns as are given, and keeps what it fixed. Where it has begun before, it goes no
    /// further than the root, and adds what the best cost fixes there. Asks for literals that serve the best assignment.
    pub fn begin<C: Coefficient, S: Share>(
        &mut self,
        state: &mut SearchState<C>,
        best: &mut Best<'_>,
        share: &mut S,
        turns: u32,
    )
        requires state { IsCubeState best.old.problem state.old }
        requires same_instance { self.old.best.problem ≡ best.old.problem }
        requires fixed { IsFixedFor best.old.problem self.old.literals self.old.closed best.old.held }
        ensures state { IsCubeState best.old.problem state.new }
        ensures same_instance { self.new.best.problem ≡ self.old.best.problem }
        ensures moves_on { MovesOn best.old best.new }
        ensures kept { S.keeps share.old share.new }
        ensures same_lending { S.lends share.new ≡ S.lends share.old }
    {
        let turns = if self.has_begun { 0 } else { turns };
        self.has_begun = true;
        let outcome = begin_whole(state, &mut self.literals, best, share, turns);
        self.is_closed = outcome == Outcome::Whole;
        keep(&mut self.best, best);
    }

    /// Whether the search of the whole is to begin, or the best cost has fallen since it did.
    pub fn is_due(&self, best: &Best<'_>) -> bool {
        let Some(cost) = best.cost() else {
            return !self.has_begun;
        };
        match self.best.cost() {
            Some(before) if self.has_begun => cost < before,
            _ => true,
        }
    }

    /// Forgets what is fixed if the best assignment of that time comes before this one, since then it need not be.
    pub fn serve(&mut self, best: &Best<'_>)
        requires { self.old.best.problem ≡ best.now.problem }
        ensures fixed { IsFixedFor best.now.problem self.new.literals self.new.closed best.now.held }
        ensures same_best { self.new.best ≡ self.old.best }
    {
        if self.is_before(best) {
            self.literals.clear();
            self.is_closed = false;
        }
    }

    /// Whether the best assignment when the literals were fixed comes before this one.
    fn is_before(&self, best: &Best<'_>) -> bool
        requires { self.now.best.problem ≡ best.now.problem }
        ensures { result ≡ false → IsNotAfter best.now.problem self.now.best.held best.now.held }
    {
        let (Some(cost), Some(held)) = (self.best.cost(), self.best.assignment()) else {
            return false;
        };
        let (Some(now), Some(assignment)) = (best.cost(), best.assignment()) else {
            return true;
        };
        precedes(cost, held, now, assignment)
    }

    /// The literals that are fixed.
    pub fn literals(&self) -> &[Lit]
        ensures { result.now ≡ self.now.literals }
    {
        &self.literals
    }

    /// Whether the whole was searched.
    pub fn is_closed(&self) -> bool
        ensures { result ≡ self.now.closed }
    {
        self.is_closed
    }
}

/// Keeps the best assignment, or one that is no later.
fn keep(kept: &mut Best<'_>, best: &Best<'_>)
    requires { kept.old.problem ≡ best.now.problem }
    ensures not_after { IsNotAfter best.now.problem best.now.held kept.new.held }
    ensures same_instance { kept.new.problem ≡ kept.old.problem }
{
    let Some(held) = best.assignment() else {
        return;
    };
    kept.take(held);
}

//! What the incumbent is handed: the assignments of full trails, and those that are borrowed.

ghost use Rattle.std.specs.Prelude.{◌≡◌, false, List, length};
ghost use Rattle.pb_inst.specs.Literal.{Literal};
ghost use Rattle.pb_inst.specs.Incumbent.{IsSound};
ghost use Rattle.pb_prune.specs.Held.{MovesOn};
ghost use Rattle.pb_prune.specs.AgreedPrefix.{KnowsHeldPrefix};
ghost use Rattle.pb_subtree.specs.SearchState.{IsFilledFrom};
ghost use Rattle.pb_prune.specs.Subtree.{IsClosed};
ghost use Rattle.pb_subtree.specs.Nodes.{IsAtLeaf, IsFoundAt, StaysWhileHeld};

use crate::Share;
use crate::improvement::{Origin, tell};
use crate::search_state::SearchState;
use pb_engine::{Coefficient, EngineAt};
use pb_inst::{Assignment, Best, Number, SUM_BOUND};
use pb_prune::AgreedPrefix;

/// Writes the trail into the assignment, with 0 for every other variable.
fn fill<C: Coefficient>(engine: &EngineAt<C>, into: &mut Assignment)
    requires { length into.old ≡ engine.now.vars }
    ensures same_length { length into.new ≡ length into.old }
    ensures filled { IsFilledFrom engine.now.trail into.new }
{
    for place in 0..into.len() {
        let value = engine.value(place + 1);
        into.set(place + 1, value.unwrap_or(false));
    }
}

/// Hands the assignment of a full trail that meets all constraints to the incumbent, and tells all that go by the best one.
/// Answers whether it was an improvement.
pub fn take_leaf<C: Coefficient, S: Share>(
    state: &mut SearchState<C>,
    best: &mut Best<'_>,
    share: &mut S,
    agreed: &mut AgreedPrefix,
    origin: Origin,
) -> bool
    requires { IsAtLeaf best.old.problem state.old.engine (length state.old.candidate) }
    ensures stays { StaysWhileHeld S.keeps S.lends share.old share.new state.old state.new best.old best.new }
    ensures closed { IsClosed best.old.problem state.old.engine best.new.held }
    ensures own { IsFoundAt state.old.engine best.old best.new }
    ensures known { (trail : List Literal) → KnowsHeldPrefix trail best.new.held agreed.new }
{
    let is_better = hand_over(&state.engine, &mut state.candidate, best, share);
    tell(state, best, agreed, origin, is_better);
    is_better
}

/// Hands the assignment of a full trail to the incumbent, and an improvement to the share. Answers whether it was one.
fn hand_over<C: Coefficient, S: Share>(
    engine: &EngineAt<C>,
    candidate: &mut Assignment,
    best: &mut Best<'_>,
    share: &mut S,
) -> bool
    requires { IsAtLeaf best.old.problem engine.now (length candidate.old) }
    ensures same_length { length candidate.new ≡ length candidate.old }
    ensures closed { IsClosed best.old.problem engine.now best.new.held }
    ensures moves_on { MovesOn best.old best.new }
    ensures own { IsFoundAt engine.now best.old best.new }
    ensures kept { S.keeps share.old share.new }
    ensures same_lending { S.lends share.new ≡ S.lends share.old }
{
    fill(engine, candidate);
    let is_better = best.take(candidate);
    let cost = if is_better { best.cost() } else { None };
    offer(share, cost, candidate);
    is_better
}

/// Tells the share of an assignment of this cost, if it is an improvement.
fn offer<S: Share>(share: &mut S, cost: Option<Number>, assignment: &Assignment)
    ensures kept { S.keeps share.old share.new }
    ensures same_lending { S.lends share.new ≡ S.lends share.old }
{
    if let Some(cost) = cost {
        share.offer(cost, assignment);
    }
}

/// Asks the share for an assignment, and takes it over where it is feasible and an improvement. Answers whether it did.
pub fn borrow<S: Share>(scratch: &mut Assignment, best: &mut Best<'_>, share: &mut S) -> bool
    requires room { length scratch.old ≡ best.old.problem.vars }
    ensures same_length { length scratch.new ≡ length scratch.old }
    ensures moves_on { MovesOn best.old best.new }
    ensures sound { IsSound best.new }
    ensures own { S.lends share.old ≡ false → best.new ≡ best.old }
    ensures refused { result ≡ false → best.new.held ≡ best.old.held }
    ensures kept { S.keeps share.old share.new }
    ensures same_lending { S.lends share.new ≡ S.lends share.old }
{
    // What is lent may be torn or not feasible, so `take` checks it, and holds only an improvement.
    let below = best.cost().unwrap_or(SUM_BOUND as Number);
    if !share.borrow(below, scratch) {
        return false;
    }
    best.take(scratch)
}

/// `decisions` decisions were made since the last call: asks the share where that is due by now, and tells all that go by the
/// best assignment. Answers whether that has changed.
pub fn borrow_after<C: Coefficient, S: Share>(
    state: &mut SearchState<C>,
    best: &mut Best<'_>,
    share: &mut S,
    agreed: &mut AgreedPrefix,
    decisions: u64,
    origin: Origin,
) -> bool
    requires room { length state.old.candidate ≡ best.old.problem.vars }
    ensures stays { StaysWhileHeld S.keeps S.lends share.old share.new state.old state.new best.old best.new }
    ensures own { S.lends share.old ≡ false → best.new ≡ best.old }
    ensures refused { result ≡ false → best.new.held ≡ best.old.held }
    ensures known { (trail : List Literal) → KnowsHeldPrefix trail best.old.held agreed.old → KnowsHeldPrefix trail best.new.held agreed.new }
{
    let work = &mut state.root_work;
    work.count(decisions);
    // Seldom, because a look reads what other searches write.
    if !work.is_look_due() {
        return false;
    }
    work.note_look();
    if !borrow(&mut state.candidate, best, share) {
        return false;
    }
    tell(state, best, agreed, origin, true);
    true
}

//! What is done at one node: propagation, the comparison of bounds, work at the root, and the choice of the next decision.

ghost use Rattle.std.specs.Prelude.{◌≡◌, ◌≤◌, false, length, None, IfNone, IfSome};
ghost use Rattle.pb_inst.specs.declared.limits.TheConstants.{MAX_VARS};
ghost use Rattle.pb_engine.specs.Soundness.{IsFull};
ghost use Rattle.pb_engine.specs.Trail.{value_on};
ghost use Rattle.pb_subtree.specs.SearchState.{SameBranchesAndRoom};
ghost use Rattle.pb_subtree.specs.Nodes.{GoesOn, IsAtNode, IsExpanded};

use crate::Share;
use crate::at_root::work_at_root;
use crate::decisions::next_decision;
use crate::feedback::{last_decided, learn, learn_conflict, learn_gap, settle_ties};
use crate::improvement::Origin;
use crate::incumbent::take_leaf;
use crate::run::Run;
use crate::search_state::SearchState;
use pb_control::{Branch, Hints, Pruning, one_sided};
use pb_engine::{Coefficient, Step};
use pb_inst::{Best, Number};
use pb_prune::{Verdict, classify_node};

/// Expands the node where the trail stands: propagates, compares the bound, tries literals at the root, and takes a full
/// trail. Gives the decision to make next, or none where no completion of the trail is before what is held.
pub fn expand_node<C: Coefficient, S: Share>(
    state: &mut SearchState<C>,
    best: &mut Best<'_>,
    share: &mut S,
    run: &mut Run,
) -> Option<Branch>
    requires { IsAtNode best.old.problem state.old best.old.held run.old.agreed }
    ensures expanded { IsExpanded (S.lends share.old) state.old state.new best.old best.new result }
    ensures goes_on { GoesOn S.keeps S.lends share.old share.new state.new.engine.trail best.new.held run.old run.new }
{
    if state.engine.conflict() {
        return None;
    }
    // Before this node is judged, since the engine knows the gap of the last judged node alone.
    let decided = last_decided(state, best);
    let length = state.engine.trail_len();
    let step = state.engine.propagate();
    note_propagated(state, length, step);
    if step == Step::Conflict {
        learn(&mut state.order, decided, Some(0));
        return None;
    }
    // The bound is asked for only after propagation, because it counts what the trail forces, and so that a node that ends in a
    // conflict never pays for it.
    let (is_counted, mut hints) = (run.left.is_some(), state.hints());
    let agreed = &mut run.agreed;
    let Verdict {
        pruning,
        bound,
        fixed,
    } = classify_node(&mut state.engine, best, agreed, is_counted, &mut hints);
    learn_gap(&mut state.order, &state.engine, best, pruning, decided);
    if pruning == Pruning::Closed {
        return None;
    }
    if let Some(lit) = fixed {
        return Some(one_sided(lit, bound, hints));
    }
    // After the bound, or else probes would be made at a node that it closes.
    if let Some(lit) = work_at_root(state, best, pruning, bound, &mut run.left) {
        return Some(one_sided(lit, bound, hints));
    }
    if let Some(branch) = choose(state, best, pruning, bound, hints) {
        return Some(branch);
    }
    take_leaf(state, best, share, &mut run.agreed, Origin::Leaf);
    None
}

/// What follows from the last decision was added to a trail of `length` literals, which pays for work at the root. The order
/// learns from a conflict.
fn note_propagated<C: Coefficient>(state: &mut SearchState<C>, length: usize, step: Step)
    ensures engine { state.new.engine ≡ state.old.engine }
    ensures beside { SameBranchesAndRoom state.old state.new }
{
    let added = state.engine.trail_len().saturating_sub(length);
    state.root_work.note_propagated(added);
    learn_conflict(&mut state.order, &state.engine, step);
}

/// The decision to make next, both of whose values are to be tried; none where the trail is full.
fn choose<C: Coefficient>(
    state: &mut SearchState<C>,
    best: &Best<'_>,
    pruning: Pruning,
    bound: Option<Number>,
    hints: Hints,
) -> Option<Branch>
    requires few { state.old.engine.vars ≤ MAX_VARS }
    requires candidate { length state.old.candidate ≡ state.old.engine.vars }
    ensures free { IfSome result (λ b. (b.lit.var ≤ state.old.engine.vars) × (value_on state.old.engine.trail b.lit.var ≡ None)) }
    ensures fresh { IfSome result (λ b. b.flipped ≡ false) }
    ensures full { IfNone result (IsFull state.old.engine) }
    ensures engine { state.new.engine ≡ state.old.engine }
    ensures beside { SameBranchesAndRoom state.old state.new }
{
    let vars = state.candidate.len();
    // Pseudocosts lead only where multipliers pay, because elsewhere activities alone take fewer decisions.
    state.order.lead_by_gains(state.engine.multipliers_pay());
    settle_ties(&mut state.order, &state.root_work, best);
    let is_calm = state.root_work.is_calm();
    let branch = next_decision(
        &state.engine,
        vars,
        &mut state.order,
        hints,
        pruning,
        bound,
        is_calm,
    )?;
    let decisions = state.branches.len();
    state
        .root_work
        .note_decision(pruning, branch.lit, decisions);
    Some(branch)
}

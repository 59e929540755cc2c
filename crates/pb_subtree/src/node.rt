//! The search of a subtree, node by node.
//! Source: [LD60], [DLL62]

ghost use Rattle.std.specs.Prelude.{◌≡◌, ◌≢◌, false, true, [], None, IfSome};
ghost use Rattle.pb_inst.specs.Incumbent.{IsSound};
ghost use Rattle.pb_engine.specs.Soundness.{assumptions};
ghost use Rattle.pb_subtree.specs.Ended.{IsEnded};
ghost use Rattle.pb_subtree.specs.Nodes.{GoesOn, IsAtNode, IsExpanded, IsFurther, IsOnPath};
ghost use Rattle.pb_subtree.specs.SearchState.{IsBrokenOff, IsOwn, IsSearched, LeavesFewer};

use crate::Share;
use crate::backtrack::backtrack;
use crate::branch::decide;
use crate::diving::{dive_from_root, renew_at_root};
use crate::expansion::expand_node;
use crate::improvement::Origin;
use crate::incumbent::borrow_after;
use crate::outcome::Outcome;
use crate::run::Run;
use crate::search_state::SearchState;
use crate::step_back::step_back;
use pb_control::{Branch, Goal};
use pb_engine::Coefficient;
use pb_inst::Best;

/// How often the share is asked at one node at most, so that the loop ends: more often than a round of probes comes to.
const MOST_LOOKS: u32 = u32::MAX;

/// Expands the node where the trail stands, and where that is the root, dives from there once before a decision is made that has both
/// values to try. What a dive or a look at the share finds has the node expanded again. Gives the decision to make next, or none where
/// no completion of the trail is before what is held.
fn expand<C: Coefficient, S: Share>(
    state: &mut SearchState<C>,
    best: &mut Best<'_>,
    share: &mut S,
    run: &mut Run,
) -> Option<Branch>
    requires { IsAtNode best.old.problem state.old best.old.held run.old.agreed }
    ensures expanded { IsExpanded (S.lends share.old) state.old state.new best.old best.new result }
    ensures goes_on { GoesOn S.keeps S.lends share.old share.new state.new.engine.trail best.new.held run.old run.new }
{
    renew_at_root(state, best);
    let mut may_dive = true;
    for _ in 0..MOST_LOOKS {
        let Some(branch) = expand_node(state, best, share, run) else {
            return None;
        };
        if state.root_work.is_look_due() {
            let has_borrowed = borrow_after(state, best, share, &mut run.agreed, 0, Origin::Lent);
            // A literal that failed stays failed, so its negation is decided unless something better was lent.
            if branch.flipped && !has_borrowed {
                return Some(branch);
            }
            continue;
        }
        if branch.flipped || !may_dive {
            return Some(branch);
        }
        may_dive = false;
        let is_better = dive_from_root(state, best, share, run);
        if !state.root_work.take_borrowed() && !is_better {
            return Some(branch);
        }
    }
    expand_node(state, best, share, run)
}

/// Expands the node where the search stands. Where nothing is left below it the search backtracks, or steps back further and
/// goes on from there. Gives the decision to make next, or none where the search is finished.
fn next_branch<C: Coefficient, S: Share>(
    state: &mut SearchState<C>,
    best: &mut Best<'_>,
    share: &mut S,
    run: &mut Run,
) -> Option<Branch>
    requires { IsOnPath best.old.problem state.old best.old.held run.old.agreed }
    ensures further { IsFurther (S.lends share.old) state.old state.new best.old best.new result }
    ensures fewer { IfSome result (λ b. LeavesFewer best.old.problem state.old state.new b) }
    ensures goes_on { GoesOn S.keeps S.lends share.old share.new state.new.engine.trail best.new.held run.old run.new }
{
    if let Some(branch) = expand(state, best, share, run) {
        return Some(branch);
    }
    // Before anything is taken back, because that ends the conflict.
    let is_conflict = state.engine.conflict();
    match state
        .root_work
        .take_return(&state.branches, is_conflict, best.cost())
    {
        Some(count) => expand_above(state, count, best, share, run),
        None => backtrack(state, best, &mut run.agreed),
    }
}

/// Steps back to `count` decisions, and expands the node there. Gives the decision to make next, or none where the search is
/// finished.
fn expand_above<C: Coefficient, S: Share>(
    state: &mut SearchState<C>,
    count: usize,
    best: &mut Best<'_>,
    share: &mut S,
    run: &mut Run,
) -> Option<Branch>
    requires { IsOnPath best.old.problem state.old best.old.held run.old.agreed }
    ensures further { IsFurther (S.lends share.old) state.old state.new best.old best.new result }
    ensures returns { state.new.root_work ≡ state.old.root_work }
    ensures goes_on { GoesOn S.keeps S.lends share.old share.new state.new.engine.trail best.new.held run.old run.new }
{
    step_back(state, count, best, &mut run.agreed);
    if let Some(branch) = expand(state, best, share, run) {
        return Some(branch);
    }
    backtrack(state, best, &mut run.agreed)
}

/// Searches all solutions below the trail, or stops where it would need one decision more than are left, or a decision where
/// the goal is met. If turns are counted, it also stops where none are left, or where the share says that the search is over. It does
/// not recurse, so that no stack grows with the instance, and it takes no memory.
pub fn search_subtree<C: Coefficient, S: Share>(
    state: &mut SearchState<C>,
    best: &mut Best<'_>,
    share: &mut S,
    goal: Goal,
    turns: Option<u32>,
    run: &mut Run,
) -> Outcome
    requires node { IsAtNode best.old.problem state.old best.old.held run.old.agreed }
    requires no_decisions { state.old.branches.items ≡ [] }
    requires held_sound { IsSound best.old }
    ensures searched { result ≡ Outcome.Whole → IsSearched best.old.problem state.old.engine best.new.held }
    ensures own { S.lends share.old ≡ false → IsOwn state.old.engine best.old best.new }
    ensures broken_off { result ≡ Outcome.Cut → IsBrokenOff best.old.problem state.old.engine (assumptions state.old.engine) state.new best.new.held }
    ensures ended { IsEnded S.keeps S.lends share.old share.new goal turns state.old state.new best.old best.new run.old.left run.new.left result }
{
    state.root_work.begin(goal, run.left, turns);
    while let Some(branch) = next_branch(state, best, share, run) {
        if goal.is_reached(best, run.left) || is_out_of_turns(state, share, turns, branch.flipped) {
            return Outcome::Cut;
        }
        decide(
            &mut state.engine,
            &mut state.branches,
            branch,
            &mut run.left,
        );
        borrow_after(state, best, share, &mut run.agreed, 1, Origin::Lent);
    }
    Outcome::Whole
}

/// Whether turns are counted, and none is left or the share says that the search is over. A decision with a single value to try, which
/// is `forced`, costs no turn: it is still part of what the root fixes.
fn is_out_of_turns<C: Coefficient, S: Share>(
    state: &SearchState<C>,
    share: &S,
    turns: Option<u32>,
    forced: bool,
) -> bool
    ensures { result ≡ true → turns ≢ None }
{
    turns.is_some() && !forced && (state.root_work.has_no_turns() || share.is_over())
}

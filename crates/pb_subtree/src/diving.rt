//! What is done anew at the root as long as its trail grows or the best cost falls: multipliers are improved, and the search
//! dives from there. What a dive reaches is handed to the incumbent, and all of it is taken back.
//! Source: [B06]

ghost use Rattle.std.specs.Prelude.{◌≡◌, ◌⊎◌, List, false, true, length};
ghost use Rattle.pb_inst.specs.Literal.{Literal};
ghost use Rattle.pb_engine.specs.Soundness.{IsFull, IsSolved, IsSoundTrail};
ghost use Rattle.pb_prune.specs.Held.{MovesOn};
ghost use Rattle.pb_prune.specs.AgreedPrefix.{KnowsHeldPrefix};
ghost use Rattle.pb_dive.specs.Dives.{LeadsBack};
ghost use Rattle.pb_control.specs.Budget.{IsPaidFrom};
ghost use Rattle.pb_subtree.specs.Descent.{IsDescentPaid};
ghost use Rattle.pb_subtree.specs.Nodes.{GoesOn, IsAtLeaf, IsAtNode, IsDived, IsFoundAt, IsBackFromDive, StaysWhileHeld};
ghost use Rattle.pb_subtree.specs.SearchState.{IsStateOf, SameBranchesAndRoom, SameBranches};

use crate::Share;
use crate::improvement::{Origin, work_anew};
use crate::incumbent::{borrow_after, take_leaf};
use crate::run::Run;
use crate::search_state::SearchState;
use pb_dive::{Course, MAX_DECISIONS, MOST_DIVES, Progress, Round, begin_descent, descend};
use pb_engine::Coefficient;
use pb_inst::{Best, Number};
use pb_prune::AgreedPrefix;

/// Dives from where the search stands, if that is its root and a dive is due. Answers whether it led to a better assignment,
/// because then more may be fixed at the root. The decisions of a dive count like those of the search.
pub fn dive_from_root<C: Coefficient, S: Share>(
    state: &mut SearchState<C>,
    best: &mut Best<'_>,
    share: &mut S,
    run: &mut Run,
) -> bool
    requires node { IsAtNode best.old.problem state.old best.old.held run.old.agreed }
    requires no_conflict { state.old.engine.conflict ≡ false }
    ensures back { IsBackFromDive (S.lends share.old) state.old state.new best.old best.new }
    ensures goes_on { GoesOn S.keeps S.lends share.old share.new state.new.engine.trail best.new.held run.old run.new }
    ensures paid { result ≡ true → IsFull state.old.engine ⊎ IsPaidFrom run.old.left run.new.left }
{
    let length = state.engine.trail_len();
    let work = &mut state.root_work;
    let Some(most) = work.take_dive(&state.branches, length, best.cost(), run.left) else {
        return false;
    };
    let is_better = dive_in_round(state, best, share, run, most);
    work_anew(state, is_better);
    is_better
}

/// Makes the dives of a round one after another, by at most `most` decisions in all. Answers whether one led to a better
/// assignment.
fn dive_in_round<C: Coefficient, S: Share>(
    state: &mut SearchState<C>,
    best: &mut Best<'_>,
    share: &mut S,
    run: &mut Run,
    most: u64,
) -> bool
    requires node { IsAtNode best.old.problem state.old best.old.held run.old.agreed }
    requires no_conflict { state.old.engine.conflict ≡ false }
    ensures { IsDived S.keeps S.lends share.old share.new state.old state.new best.old best.new run.old run.new result }
{
    let mut round = Round::new(state.candidate.len(), bound_to_dive_from(state));
    let mut rest = most;
    let mut is_better = false;
    for _ in 0..MOST_DIVES {
        if rest == 0 {
            return is_better;
        }
        let Some(course) = round.next(cost_to_limit(best, run.left)) else {
            return is_better;
        };
        rest = rest.min(course.share_of(most));
        let has_led = dive_once(state, best, share, run, course, &mut rest);
        round.note(has_led, best.cost());
        if has_led {
            is_better = true;
        }
    }
    is_better
}

/// The bound at the root, from which limits of dives begin; none where no multipliers were used. None in a piece either, since dives
/// from the root of the whole sought the same: limits there took one worker with a split of 4 up to 1.5 times the decisions.
fn bound_to_dive_from<C: Coefficient>(state: &mut SearchState<C>) -> Option<Number>
    ensures { state.new ≡ state.old }
{
    if state.root_work.is_after_whole() {
        return None;
    }
    let bound = state.engine.bound_at_hand()?;
    state.root_work.root_bound().max(Some(bound))
}

/// Dives on the course, by at most `rest` decisions, which are taken off that. Answers whether it led to a better assignment.
fn dive_once<C: Coefficient, S: Share>(
    state: &mut SearchState<C>,
    best: &mut Best<'_>,
    share: &mut S,
    run: &mut Run,
    course: Course,
    rest: &mut u64,
) -> bool
    requires node { IsAtNode best.old.problem state.old best.old.held run.old.agreed }
    requires no_conflict { state.old.engine.conflict ≡ false }
    ensures { IsDived S.keeps S.lends share.old share.new state.old state.new best.old best.new run.old run.new result }
{
    let level = state.engine.level();
    let is_full = go_down(state, best, share, run, course, rest);
    let is_better = take_where_full(state, best, share, &mut run.agreed, is_full);
    // A dive closes nothing, so all of it is taken back.
    state.engine.undo_to(level);
    is_better
}

/// Has the multipliers improved anew where the root's trail has grown, since they were improved for a shorter one.
pub fn renew_at_root<C: Coefficient>(state: &mut SearchState<C>, best: &Best<'_>)
    ensures same_branches { SameBranches state.old state.new }
    ensures unchanged { state.new.engine ≡ state.old.engine }
{
    let (length, vars) = (state.engine.trail_len(), state.candidate.len());
    let cost = best.cost();
    if state
        .root_work
        .take_renewal(&state.branches, length, vars, cost)
    {
        state.engine.renew();
    }
}

/// Goes down from where the search stands, by at most `rest` decisions, each of which is taken off that and off what is left of the
/// budget. Between two of them the share is asked where that is due. Answers whether the trail is full.
fn go_down<C: Coefficient, S: Share>(
    state: &mut SearchState<C>,
    best: &mut Best<'_>,
    share: &mut S,
    run: &mut Run,
    course: Course,
    rest: &mut u64,
) -> bool
    requires state { IsStateOf best.old.problem state.old }
    requires sound { IsSoundTrail state.old.engine }
    requires no_conflict { state.old.engine.conflict ≡ false }
    ensures back { LeadsBack state.old.engine state.new.engine }
    ensures sound { IsSoundTrail state.new.engine }
    ensures full { result ≡ true → IsFull state.new.engine }
    ensures solved { result ≡ true → IsSolved state.new.engine }
    ensures beside { SameBranchesAndRoom state.old state.new }
    ensures moves_on { MovesOn best.old best.new }
    ensures own { S.lends share.old ≡ false → best.new ≡ best.old }
    ensures kept { S.keeps share.old share.new }
    ensures same_lending { S.lends share.new ≡ S.lends share.old }
    ensures known { (trail : List Literal) → KnowsHeldPrefix trail best.old.held run.old.agreed → KnowsHeldPrefix trail best.new.held run.new.agreed }
    ensures paid { IsDescentPaid state.old.engine state.new.engine run.old.left run.new.left }
{
    let floor = state.engine.level();
    let (path, order) = (&mut state.dive, &mut state.order);
    let first = begin_descent(&mut state.engine, path, order, course);
    let Some(mut branch) = first else {
        return false;
    };
    for _ in 0..MAX_DECISIONS {
        // In parts, so that the share is asked as often as between decisions of the search.
        let part = (*rest).min(state.root_work.until_look());
        // In each part anew, because what the share gave may have lowered the best cost.
        let cost = cost_to_beat(best, run.left);
        let (path, order) = (&mut state.dive, &mut state.order);
        let left = &mut run.left;
        let descent = descend(
            &mut state.engine,
            path,
            order,
            branch,
            floor,
            part,
            cost,
            left,
        );
        *rest = (*rest).saturating_sub(descent.decisions);
        let (agreed, made) = (&mut run.agreed, descent.decisions);
        borrow_after(state, best, share, agreed, made, Origin::LentToDive);
        match descent.progress {
            Progress::Next(next) => branch = next,
            Progress::Full => return true,
            Progress::Stuck => return false,
        }
        if *rest == 0 {
            return false;
        }
    }
    false
}

/// The cost that the bound is compared with before each decision of a dive. With a budget each decision that is counted has a bound
/// before it; without one there is none, since bounds would cost more than they save.
fn cost_to_beat(best: &Best<'_>, left: Option<u64>) -> Option<Number> {
    if left.is_some() { best.cost() } else { None }
}

/// The cost that a dive without a limit of its own is to stay below. With a budget there is none, since the bound before each decision
/// keeps to it already: with such a limit `l152lav` held 4773 after 16,000 decisions in place of 4763, `sets 400` 846 in place of 840.
fn cost_to_limit(best: &Best<'_>, left: Option<u64>) -> Option<Number> {
    if left.is_some() { None } else { best.cost() }
}

/// Hands the trail to the incumbent where it is full. Answers whether that was an improvement.
fn take_where_full<C: Coefficient, S: Share>(
    state: &mut SearchState<C>,
    best: &mut Best<'_>,
    share: &mut S,
    agreed: &mut AgreedPrefix,
    is_full: bool,
) -> bool
    requires { is_full ≡ true → IsAtLeaf best.old.problem state.old.engine (length state.old.candidate) }
    ensures only_full { result ≡ true → is_full ≡ true }
    ensures stays { StaysWhileHeld S.keeps S.lends share.old share.new state.old state.new best.old best.new }
    ensures own { IsFoundAt state.old.engine best.old best.new }
    ensures known { (trail : List Literal) → KnowsHeldPrefix trail best.old.held agreed.old → KnowsHeldPrefix trail best.new.held agreed.new }
{
    if !is_full {
        return false;
    }
    take_leaf(state, best, share, agreed, Origin::Dive)
}

//! What the order of decisions learns at a node: what led to a conflict, how far the last decision brought the bound, and the
//! values of a new best assignment. No answer depends on it, so nothing is promised.

use crate::search_state::SearchState;
use pb_control::{Pruning, RootWork};
use pb_engine::{Coefficient, EngineAt, Step};
use pb_inst::{Best, Lit};
use pb_order::{Gain, Order};

/// How many ties one after another have a bound taken at each: behind these it is taken only once they have doubled, so the node
/// above may have none of its own.
const MOST_TIES: u32 = 2;

/// Learns from the conflict that the engine found, if the step led to one.
pub fn learn_conflict<C: Coefficient>(order: &mut Order, engine: &EngineAt<C>, step: Step) {
    if step == Step::Conflict {
        order.bump_conflict(engine.propagator());
    }
}

/// Learns from the values of the best assignment, where it is new.
pub fn learn_values(order: &mut Order, best: &Best<'_>, has_improved: bool) {
    if has_improved && let Some(held) = best.assignment() {
        order.prefer(held);
    }
}

/// Goes by the values of the best assignment where ties alone are left: what comes before it is mostly like it.
pub fn settle_ties(order: &mut Order, work: &RootWork, best: &Best<'_>) {
    let tied = if work.are_ties_left(best.cost()) {
        best.assignment()
    } else {
        None
    };
    order.settle_ties(tied);
}

/// A decision, and by how much the bound may rise above it before it is over the best cost.
#[derive(Clone, Copy)]
pub struct Decided {
    lit: Lit,
    /// In the unit of the multipliers' gap. A decision that ends in a conflict gains all of it.
    gap: Gain,
}

/// The last decision, and by how much the bound of the multipliers above it may rise; none where they were not used there.
pub fn last_decided<C: Coefficient>(state: &SearchState<C>, best: &Best<'_>) -> Option<Decided> {
    // Below a literal that was fixed, the multipliers were not asked for a bound, so the gap above is not known.
    if state.engine.is_fixing() {
        return None;
    }
    let branch = state.branches.last()?;
    // Nor is it where an older bound told of a tie.
    if branch.hints.ties > MOST_TIES {
        return None;
    }
    let gap = state.engine.gap(best.cost()?)?;
    Some(Decided {
        lit: branch.lit,
        gap,
    })
}

/// Learns at a node that was classified by how much the last decision raised the bound of the multipliers.
pub fn learn_gap<C: Coefficient>(
    order: &mut Order,
    engine: &EngineAt<C>,
    best: &Best<'_>,
    pruning: Pruning,
    decided: Option<Decided>,
) {
    learn(order, decided, gap_left(engine, best, pruning));
}

/// By how much the bound of the multipliers may still rise there.
fn gap_left<C: Coefficient>(
    engine: &EngineAt<C>,
    best: &Best<'_>,
    pruning: Pruning,
) -> Option<Gain> {
    // A closed node has no gap, whichever bound closed it.
    if pruning == Pruning::Closed {
        return Some(0);
    }
    engine.gap(best.cost()?)
}

/// Learns from what a decision left of the gap.
pub fn learn(order: &mut Order, decided: Option<Decided>, left: Option<Gain>) {
    if let Some(decided) = decided
        && let Some(left) = left
    {
        order.learn(decided.lit, decided.gap.saturating_sub(left));
    }
}

//! Who is told when the best assignment may have changed.

ghost use Rattle.std.specs.Prelude.{◌≡◌, List};
ghost use Rattle.pb_inst.specs.Literal.{Literal};
ghost use Rattle.pb_prune.specs.AgreedPrefix.{KnowsHeldPrefix};
ghost use Rattle.pb_subtree.specs.SearchState.{SameBranchesAndRoom};

use crate::feedback::learn_values;
use crate::search_state::SearchState;
use pb_engine::Coefficient;
use pb_inst::Best;
use pb_prune::AgreedPrefix;

/// Where an assignment comes from that the incumbent was handed. What is borrowed before a piece begins has none of these
/// origins, because all that goes by the best assignment begins after it.
#[derive(Clone, Copy)]
pub enum Origin {
    /// A full trail of the search.
    Leaf,
    /// A full trail of a dive.
    Dive,
    /// The share, between two decisions of the search.
    Lent,
    /// The share, between two decisions of a dive.
    LentToDive,
}

/// Tells all that go by the best assignment that the incumbent was handed one, which it holds now if it is better. They are told
/// of a full trail in any case, and of what was borrowed only where it is better.
pub fn tell<C: Coefficient>(
    state: &mut SearchState<C>,
    best: &Best<'_>,
    agreed: &mut AgreedPrefix,
    origin: Origin,
    is_better: bool,
)
    ensures engine { state.new.engine ≡ state.old.engine }
    ensures beside { SameBranchesAndRoom state.old state.new }
    ensures known { (trail : List Literal) → KnowsHeldPrefix trail best.now.held agreed.new }
{
    match origin {
        // The search goes on above this trail, so ties there and the values that come first go by it.
        Origin::Leaf => {
            agreed.begin_again(best);
            state.root_work.note_full(is_better);
            learn_values(&mut state.order, best, is_better);
        }
        // Work begins at the root again, but only once the round of dives is over.
        Origin::Dive => agreed.begin_again(best),
        // It was found elsewhere, so a bound of this trail may be over its cost.
        Origin::Lent => agreed.begin_with_borrowed(best),
        // So that the node at which the dive began is expanded again.
        Origin::LentToDive => {
            agreed.begin_with_borrowed(best);
            state.root_work.note_borrowed();
        }
    }
}

/// Has the root worked on again if dives from there led to a better assignment, because more may be fixed now, with multipliers that
/// are improved anew.
pub fn work_anew<C: Coefficient>(state: &mut SearchState<C>, is_better: bool)
    ensures engine { state.new.engine ≡ state.old.engine }
    ensures beside { SameBranchesAndRoom state.old state.new }
{
    if !is_better {
        return;
    }
    state.root_work.reopen(state.candidate.len());
    state.engine.renew();
}

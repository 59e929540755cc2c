//! Decisions are taken back though something is left to try below them. They are not made again in their order, because dives
//! find better places, and the old order would keep the search where it began.

ghost use Rattle.pb_engine.specs.EngineState.{EngineState};
ghost use Rattle.pb_subtree.specs.Nodes.{IsBackOnPath, IsOnPath};
ghost use Rattle.pb_subtree.specs.SearchState.{IsUnderWay};

use crate::backtrack::undo_decision;
use crate::search_state::SearchState;
use pb_engine::Coefficient;
use pb_inst::Best;
use pb_prune::AgreedPrefix;

/// Takes back all decisions but the first `count`; none of them is made again unless the order says so. What lay below them
/// lies below the last one that is left, so what is under way stays so. If none of them was flipped, nothing that was closed is
/// opened again.
pub fn step_back<C: Coefficient>(
    state: &mut SearchState<C>,
    count: usize,
    best: &Best<'_>,
    agreed: &mut AgreedPrefix,
)
    requires { IsOnPath best.now.problem state.old best.now.held agreed.old }
    ensures under_way { (start : EngineState) → IsUnderWay best.now.problem start state.old best.now.held → IsUnderWay best.now.problem start state.new best.now.held }
    ensures back { IsBackOnPath best.now.problem state.old state.new best.now.held agreed.new }
{
    while state.branches.len() > count {
        let Some(_) = undo_decision(&mut state.engine, &mut state.branches, best, agreed) else {
            return;
        };
    }
}

//! What the search of one piece has beside its state.

ghost use Rattle.std.specs.Prelude.{◌≡◌, List};
ghost use Rattle.pb_inst.specs.Literal.{Literal};
ghost use Rattle.pb_prune.specs.AgreedPrefix.{KnowsHeldPrefix};

use pb_inst::Best;
use pb_prune::AgreedPrefix;

/// What the search of a piece carries from node to node, beside its state. The best assignment and the share stay apart, because
/// they are the caller's, and each contract of a struct with a `&mut` would have to say that it still holds the same one.
#[derive(Clone, Copy)]
pub struct Run {
    /// What the trail is known to agree with of the best assignment.
    pub agreed: AgreedPrefix,
    /// How many decisions are left of the budget, if there is one.
    pub left: Option<u64>,
}

impl Run {
    /// The search begins.
    pub fn begin(best: &Best<'_>, left: Option<u64>) -> Run
        ensures known { (trail : List Literal) → KnowsHeldPrefix trail best.now.held result.agreed }
        ensures left { result.left ≡ left }
    {
        Run {
            agreed: AgreedPrefix::of(best),
            left,
        }
    }
}

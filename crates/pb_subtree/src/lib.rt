//! Branch and bound under a cube: decisions stand on the engine's trail, and a subtree is left where it holds no
//! assignment that comes before the best one.
//!
//! `search_under` assumes the cube at the `root` and searches the subtree below it, `node` by node. At a node (`expansion`) the
//! engine propagates, pb_prune says whether the subtree may be left, and `decisions` names the one (`branch`) to make next, by
//! the order of pb_order. Where there is none, `incumbent` takes the full trail, and `backtrack` goes back to a decision whose
//! other value is still to be tried. The order learns from conflicts, and from what decisions did to the bound (`feedback`).
//! pb_control says when the search takes more decisions back (`step_back`): to try literals (`probing`) `at_root` and to dive
//! from there (`diving`), or since ties alone are left below them; and when it asks its share for what another search found.
//! Whatever goes by the best assignment is told of a new one in one place (`improvement`), so that nothing is forgotten.
#![tactic(auto)]

mod at_root;
mod backtrack;
mod branch;
mod decisions;
mod diving;
mod expansion;
mod feedback;
mod improvement;
mod incumbent;
mod node;
mod outcome;
mod probing;
mod root;
mod run;
mod search_state;
mod share;
mod step_back;
mod under;
mod whole;

pub use outcome::Outcome;
pub use pb_control::Goal;
pub use search_state::SearchState;
pub use share::{Alone, Share};
pub use under::search_under;
pub use whole::begin_whole;

//! What a dive goes by.

use pb_inst::Number;

/// After how many conflicts a dive gives up, where other dives follow it. A dive closes nothing, so what it took is lost where it
/// leads to nothing. Chosen by hand.
const FEW_CONFLICTS: u32 = 200;

/// It gives up after one conflict for this many variables, where that is sooner: else small searches, whose trees are small too, would
/// take 1.4 to 1.8 times the decisions (`units 90`, `sets 150`, `random 80`).
const VARIABLES_OF_A_CONFLICT: u32 = 4;

/// After how many conflicts the last dive of a round gives up. Chosen by hand.
const MANY_CONFLICTS: u32 = 4_000;

/// That dive makes at most one in this many of the decisions that a round may make, since it seldom leads to anything: with all of them
/// `cover 500` held a dearer assignment after 16,000 decisions.
const LONG_PART: u64 = 6;

/// It makes as many as this in any case, where the round may. Chosen by hand.
const LEAST_LONG: u64 = 512;

/// By what a dive chooses its decisions.
#[derive(Clone, Copy, Debug, PartialEq, Eq)]
pub enum Way {
    /// By a point of the relaxation: the literals nearest to a whole value come first.
    Plan,
    /// By the order of the search, with the value of each variable that costs less by the multipliers.
    Order,
}

/// What a dive goes by, and how far.
#[derive(Clone, Copy)]
pub struct Course {
    pub way: Way,
    /// What a full trail may cost at most, if that is limited. Literals that the multipliers fix within the limit are decided
    /// first, and a bound of the multipliers over it counts as a conflict.
    pub limit: Option<Number>,
    /// After how many conflicts the dive gives up.
    pub conflicts: u32,
}

impl Course {
    /// By a point of the relaxation over `vars` variables, within a limit if there is one, for a few conflicts.
    pub fn by_plan(vars: u32, limit: Option<Number>) -> Course {
        Course {
            way: Way::Plan,
            limit,
            conflicts: few_conflicts(vars),
        }
    }

    /// By a point of the relaxation, within a limit if there is one, for many conflicts.
    pub fn by_plan_for_long(limit: Option<Number>) -> Course {
        Course {
            way: Way::Plan,
            limit,
            conflicts: MANY_CONFLICTS,
        }
    }

    /// How many of the decisions that a round may make are for this dive.
    pub fn share_of(&self, most: u64) -> u64 {
        if self.conflicts < MANY_CONFLICTS {
            return most;
        }
        (most / LONG_PART).max(LEAST_LONG).min(most)
    }

    /// By the order of the search over `vars` variables, within a limit if there is one, for a few conflicts.
    pub fn by_order(vars: u32, limit: Option<Number>) -> Course {
        Course {
            way: Way::Order,
            limit,
            conflicts: few_conflicts(vars),
        }
    }
}

/// After how many conflicts a dive over `vars` variables gives up, where other dives follow it.
fn few_conflicts(vars: u32) -> u32 {
    FEW_CONFLICTS.min(vars / VARIABLES_OF_A_CONFLICT)
}

//! When multipliers that refute are looked for, where there is no objective and they can tell nothing else: any promise above 0
//! tells that nothing completes the trail. From 0 no step of one row gains, so the first-order method looks for a direction in
//! which the promise grows without end. Followed from node to node, such multipliers cost far more than they save.

use crate::effort::work_of_node;

/// After how much work of the search, for each term of the rows, they are first looked for, so that the looking is a small part
/// of it, and a search that ends sooner pays nothing for them.
const WORK_OF_A_TERM: u64 = 512;

/// How many steps of the first-order method there are then at most: enough for most instances, also to see that there are none.
const FIRST_STEPS: u32 = 25;

/// How many times as many steps, and as much work before them, there are from one time to the next, so that all times together
/// take about a third more than the last one, and that stays a small part of the search. 4 was chosen by hand.
const GROWTH: u32 = 4;

/// The most steps, after which they are looked for no more, so that a search without such multipliers stops paying for them. That
/// is two growths after the first time, and was chosen by hand.
const MOST_STEPS: u32 = 400;

/// How long the search went on, and when they are looked for. The unit is that of the effort.
#[derive(Clone, Copy)]
pub struct Refuting {
    work: u64,
    /// After how much work they are looked for next.
    due: u64,
    /// By how many steps.
    steps: u32,
    /// Whether there are some that refute the trail that was looked at last.
    pub are_found: bool,
}

impl Refuting {
    /// None yet, beside rows with `terms` terms in all.
    pub fn new(terms: u64) -> Refuting {
        Refuting {
            work: 0,
            due: terms.saturating_mul(WORK_OF_A_TERM),
            steps: FIRST_STEPS,
            are_found: false,
        }
    }

    /// Counts a node of the search at which `literals` literals joined the trail.
    pub fn count_node(&mut self, literals: usize) {
        self.work = self.work.saturating_add(work_of_node(literals));
    }

    /// How many steps to look for them by now, or none where they are not to be looked for.
    pub fn steps(&self) -> Option<u32> {
        if self.are_found || self.work < self.due || self.steps > MOST_STEPS {
            return None;
        }
        Some(self.steps)
    }

    /// They were looked for, and it is told whether they refute the root's trail.
    pub fn end(&mut self, are_found: bool) {
        self.are_found = are_found;
        self.due = self.due.saturating_mul(GROWTH as u64);
        self.steps = self.steps.saturating_mul(GROWTH);
    }
}

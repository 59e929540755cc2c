//! Activities of variables, which conflicts bump. No answer depends on them, so nothing is promised.
//! Source: [M01], [ES03]

use crate::pseudocosts::{Gain, Pseudocosts};
use pb_inst::Lit;

/// What the first conflict adds to the activity of a variable that costs nothing: the unit of activities and bumps.
/// It is 1, since initial activities are shares below 1 and are to count less than one conflict.
pub const BUMP: f64 = 1.0;

/// By how much more each conflict adds than the one before, since what older ones added is to count less: 1 / 0.95, a decay
/// of 5 % a conflict. Source: [ES03]
const GROWTH: f64 = 1.052_631_578_947_368_4;

/// Where bumps are as large as this, they and all activities are scaled down. Only their quotients count, so the order stays.
/// It is far below the greatest float, so that a sum of bumps stays finite. Source: [ES03]
const LARGE: f64 = 1e100;

/// What they are multiplied by then: 1 / `LARGE`, so that a bump is about 1 again. Source: [ES03]
const SCALED_DOWN: f64 = 1e-100;

/// The activity of a variable, and how much of a bump a conflict adds to it.
#[derive(Clone, Copy)]
pub struct VariableActivity {
    /// In bumps of the first conflict.
    pub activity: f64,
    /// How many bumps a conflict adds: 1 + cost / mean cost, since without the cost one schedule of machines took 56 times the
    /// decisions, while other instances changed little.
    pub bump: f64,
}

/// The activity of each variable, by its index from 0 on, and what decisions of it gained.
#[derive(Drop)]
pub struct Activities {
    entries: Vec<VariableActivity>,
    /// What a conflict adds to the activity of a variable that costs nothing.
    bump: f64,
    pseudocosts: Pseudocosts,
    /// Whether pseudocosts count too, or activities alone. Where multipliers don't pay, the gains of decisions say little, so
    /// activities alone lead: with gains a route took 8 times the decisions.
    is_led_by_gains: bool,
}

impl Activities {
    /// These activities, which count alone at first.
    pub fn new(entries: Vec<VariableActivity>, pseudocosts: Pseudocosts) -> Activities {
        Activities {
            entries,
            bump: BUMP,
            pseudocosts,
            is_led_by_gains: false,
        }
    }

    /// Whether pseudocosts count too.
    pub fn is_led_by_gains(&self) -> bool {
        self.is_led_by_gains
    }

    /// From now on pseudocosts count too, or not.
    pub fn lead_by_gains(&mut self, is_led: bool) {
        self.is_led_by_gains = is_led;
    }

    /// Notes the gain of a decision for the literal.
    pub fn learn(&mut self, lit: Lit, gain: Gain) {
        self.pseudocosts.learn(lit, gain);
    }

    /// The activity at the index, 0 where there is none.
    fn activity(&self, index: u32) -> f64 {
        match self.entries.get(index as usize) {
            Some(entry) => entry.activity,
            None => 0.0,
        }
    }

    /// The activity of the variable at the index, times the factor of what its decisions gained.
    fn rank(&self, index: u32) -> f64 {
        self.activity(index) * self.pseudocosts.factor(index)
    }

    /// Whether the first variable comes before the second: by falling activity, or rank where pseudocosts count too, and then by
    /// index, so that the order is the same on every run.
    pub fn precedes(&self, first: u32, second: u32) -> bool {
        let (before, after) = if self.is_led_by_gains {
            (self.rank(first), self.rank(second))
        } else {
            (self.activity(first), self.activity(second))
        };
        before > after || (before == after && first < second)
    }

    /// Adds to the activity of the variable at the index what a conflict adds, where there is one.
    pub fn bump(&mut self, index: u32) {
        if let Some(entry) = self.entries.get_mut(index as usize) {
            entry.activity += entry.bump * self.bump;
        }
    }

    /// What was added so far counts less from now on.
    pub fn decay(&mut self) {
        // The bump grows and the activities stay, so that a conflict costs nothing for the variables that it doesn't bump.
        self.bump *= GROWTH;
        if self.bump > LARGE {
            self.scale_down();
        }
    }

    /// Scales all activities down, and what conflicts add.
    fn scale_down(&mut self) {
        self.bump *= SCALED_DOWN;
        for entry in self.entries.iter_mut() {
            entry.activity *= SCALED_DOWN;
        }
    }
}

//! Which dives are made from a root, one after another.
//!
//! A point of the relaxation comes first, because it often leads to the least cost at once. Where it leads to nothing better, dives
//! within lower limits follow: the first limit is the root's bound, and the next ones halve what is left up to the best cost. So they
//! look for an assignment of a given cost, where other dives take whatever is better than the best one.
//! Source: [B06]

use crate::course::Course;
use pb_inst::Number;

/// How many limits are tried at most. Chosen by hand.
const MOST_LIMITS: u32 = 12;

/// After how many limits in a row that led to nothing no more are tried. Chosen by hand.
const MOST_FAILURES: u32 = 2;

/// How many dives a round makes at most, so that the loop over them ends: more than the stages come to.
pub const MOST_DIVES: u32 = 16;

/// Which dive is next.
#[derive(Clone, Copy, PartialEq, Eq)]
enum Stage {
    Plan,
    Order,
    Limits,
    LongPlan,
    Over,
}

/// The dives of one round. No answer depends on them, so nothing is promised.
#[derive(Clone, Copy)]
pub struct Round {
    stage: Stage,
    vars: u32,
    /// A bound of the root, if one is known.
    bound: Option<Number>,
    /// The next limit.
    limit: Number,
    /// What an assignment that is still to be found costs at least, as far as dives tell. That no dive found a cheaper one proves
    /// nothing.
    least: Number,
    /// How many limits were tried.
    limits: u32,
    /// How many of the last ones led to nothing.
    failures: u32,
    /// Whether a dive of this round led to a better assignment.
    has_led: bool,
}

impl Round {
    /// A round over `vars` variables begins at a root with this bound. Where none is known there are no limits, and the plan is followed for long at once.
    pub fn new(vars: u32, bound: Option<Number>) -> Round {
        let stage = if bound.is_some() {
            Stage::Plan
        } else {
            Stage::LongPlan
        };
        Round {
            stage,
            vars,
            bound,
            limit: 0,
            least: 0,
            limits: 0,
            failures: 0,
            has_led: false,
        }
    }

    /// What the next dive goes by; none where the round is over. Where it has no lower limit and a `cost` is given, as that of the
    /// best assignment, its limit is one below that, so that it looks for something better.
    pub fn next(&self, cost: Option<Number>) -> Option<Course> {
        let below = cost.map(|cost| cost.saturating_sub(1));
        match self.stage {
            Stage::Plan => Some(Course::by_plan(self.vars, below)),
            Stage::Order => Some(Course::by_order(self.vars, below)),
            Stage::Limits => Some(Course::by_order(self.vars, Some(self.limit))),
            Stage::LongPlan => Some(Course::by_plan_for_long(below)),
            Stage::Over => None,
        }
    }

    /// The dive led to a better assignment, or did not. The best cost is `cost` now.
    pub fn note(&mut self, has_led: bool, cost: Option<Number>) {
        self.has_led |= has_led;
        self.stage = match self.stage {
            // The root is worked on again with the new cost, and then another round may follow.
            Stage::Plan if has_led => Stage::Over,
            Stage::Plan if cost.is_none() => Stage::Order,
            Stage::Plan | Stage::Order => self.first_limit(cost),
            Stage::Limits => self.next_limit(has_led, cost),
            Stage::LongPlan | Stage::Over => Stage::Over,
        };
    }

    /// The stage after the dives without a limit.
    fn first_limit(&mut self, cost: Option<Number>) -> Stage {
        let (Some(bound), Some(cost)) = (self.bound, cost) else {
            return self.last_stage();
        };
        if bound >= cost {
            return self.last_stage();
        }
        self.limit = bound;
        self.least = bound;
        Stage::Limits
    }

    /// The stage after a dive within a limit.
    fn next_limit(&mut self, has_led: bool, cost: Option<Number>) -> Stage {
        self.limits = self.limits.saturating_add(1);
        if has_led {
            self.failures = 0;
        } else {
            self.failures = self.failures.saturating_add(1);
            self.least = self.limit.saturating_add(1);
        }
        match cost {
            Some(cost) if self.least < cost && self.may_go_on() => {
                self.limit = halfway(self.least, cost);
                Stage::Limits
            }
            _ => self.last_stage(),
        }
    }

    /// Whether a further limit may be tried.
    fn may_go_on(&self) -> bool {
        self.limits < MOST_LIMITS && self.failures < MOST_FAILURES
    }

    /// The stage after the last limit: where nothing led to a better assignment, the plan is followed for longer.
    fn last_stage(&self) -> Stage {
        if self.has_led {
            Stage::Over
        } else {
            Stage::LongPlan
        }
    }
}

/// The cost in the middle between the least one and those below `cost`.
fn halfway(least: Number, cost: Number) -> Number {
    let span = cost.saturating_sub(1).saturating_sub(least);
    least.saturating_add(span / 2)
}

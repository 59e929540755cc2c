//! The decisions of a dive. No answer depends on them, so nothing is promised.

ghost use Rattle.std.specs.Prelude.{◌≡◌, ◌<◌, IfSome, vec_len};

use crate::course::Course;
use pb_engine::{Coefficient, EngineAt};
use pb_inst::{Lit, Memory};
use pb_order::Order;
use std::alloc::Global;

/// The literals that a limit fixes are looked for again once the gap to it has fallen by one in this many parts, because all
/// variables are looked at. With 8 in place of 2 the decisions are nearly the same.
const GAP_PARTS: u64 = 2;

/// How many literals a dive may add for each variable before a conflict ends it: as many as 64 full trails have, so that a dive
/// costs little beside the search. Chosen by hand.
const WORK_PER_VARIABLE: u64 = 64;

/// From how many variables on a dive takes back decisions that had no part in a conflict. In 24 smaller instances it took 1.03 times
/// the decisions in the mean, at most 1.5 times (`parity 100`).
const LEAST_BLAMED: u32 = 2_048;

/// A decision of a dive.
#[derive(Clone, Copy)]
pub struct DiveBranch {
    /// The literal that is assumed.
    pub lit: Lit,
    /// Which plan it was of, by number.
    pub plan: u32,
    /// The place after it in that plan.
    pub next: usize,
    /// Whether its negation is not to be tried: it was before, or a limit fixes the literal.
    pub flipped: bool,
    /// How many variables the search's order had left.
    pub left: u32,
}

/// The decisions that stand on the trail, the earliest first, and how far the dive may still go. No step takes memory.
#[derive(Drop)]
pub struct DivePath {
    decisions: Vec<DiveBranch>,
    conflicts: u32,
    /// How many literals joined the trail, those below decisions that were flipped later too.
    work: u64,
    most_work: u64,
    /// How many plans were made.
    plans: u32,
    /// How many variables had no value when the last plan was made.
    free: usize,
    course: Course,
    /// The gap to the limit where it fixed no further literal, if that is known of the trail.
    gap: Option<u64>,
    /// The variables of the decisions that led to the last conflict, those made last first; none where that is not known.
    blamed: Vec<u32>,
    /// How many of them were taken back.
    passed: usize,
}

impl DivePath {
    /// Room for a decision of each variable.
    pub fn new(alloc: Global, vars: u32) -> Result<DivePath, Memory> {
        let blamed = Vec::with_capacity(alloc, vars as usize)?;
        let decisions = Vec::with_capacity(alloc, vars as usize)?;
        Ok(DivePath {
            decisions,
            conflicts: 0,
            work: 0,
            most_work: 0,
            plans: 0,
            free: 0,
            course: Course::by_plan_for_long(None),
            gap: None,
            blamed,
            passed: 0,
        })
    }

    /// A dive on this course begins, over `vars` variables of which `free` have no value. The first plan is made.
    pub fn begin(&mut self, vars: u32, free: usize, course: Course) {
        self.course = course;
        self.forget_blame();
        self.decisions.clear();
        self.conflicts = 0;
        self.work = 0;
        self.most_work = (vars as u64).saturating_mul(WORK_PER_VARIABLE);
        self.plans = 1;
        self.free = free;
    }

    /// Whether a new plan is due, where `free` variables have no value: once a quarter of those without one at the last plan has
    /// one, since the point that it goes by knows nothing of these values.
    pub fn take_plan(&mut self, free: usize) -> bool {
        if free >= self.free - self.free / 4 {
            return false;
        }
        self.plans = self.plans.saturating_add(1);
        self.free = free;
        true
    }

    /// Which plan is the last one, by number.
    pub fn plan(&self) -> u32 {
        self.plans
    }

    /// From which place on to read the last plan, after a decision of plan `plan` behind which `next` comes. A newer plan is read
    /// from its beginning, since its places have nothing to do with those of an older one.
    pub fn place_after(&self, plan: u32, next: usize) -> usize {
        if plan == self.plans { next } else { 0 }
    }

    /// A decision is made.
    pub fn push(&mut self, branch: DiveBranch) {
        // There is room for a decision of each variable, so none is left out; the test keeps the call from taking memory.
        if self.decisions.len() < self.decisions.capacity() {
            self.decisions.push_reserved(branch);
        }
    }

    /// The last decision is taken back.
    pub fn pop(&mut self) -> Option<DiveBranch>
        ensures { IfSome result (λ _. vec_len self.new.decisions < vec_len self.old.decisions) }
    {
        self.decisions.pop()
    }

    /// `added` literals joined the trail.
    pub fn charge(&mut self, added: usize) {
        self.work = self.work.saturating_add(added as u64);
    }

    /// A conflict came. Answers whether the dive goes on.
    pub fn outlasts_conflict(&mut self) -> bool
        ensures { vec_len self.new.decisions ≡ vec_len self.old.decisions }
    {
        self.conflicts = self.conflicts.saturating_add(1);
        // Work is compared at conflicts alone, so that a dive that meets none goes down to a full trail whatever that adds.
        self.conflicts <= self.course.conflicts && self.work <= self.most_work
    }

    /// What the dive goes by.
    pub fn course(&self) -> Course {
        self.course
    }

    /// Whether literals that the limit fixes are to be looked for, where this is the gap to it.
    pub fn is_gap_new(&self, gap: Option<u64>) -> bool {
        match (self.gap, gap) {
            (Some(last), Some(now)) => now > last || now <= last - last / GAP_PARTS,
            _ => true,
        }
    }

    /// At this gap the limit fixes no further literal.
    pub fn note_gap(&mut self, gap: Option<u64>) {
        self.gap = gap;
    }

    /// Decisions are taken back next. Which of them led to that is known where a conflict stands and there are many variables.
    pub fn blame<C: Coefficient>(&mut self, order: &mut Order, engine: &EngineAt<C>) {
        self.forget_blame();
        if engine.vars() >= LEAST_BLAMED {
            order.blame(engine.propagator(), &mut self.blamed);
        }
    }

    /// Decisions are taken back next, and it is not known which of them led to that.
    pub fn forget_blame(&mut self)
        ensures { vec_len self.new.decisions ≡ vec_len self.old.decisions }
    {
        self.gap = None;
        self.passed = 0;
        self.blamed.clear();
    }

    /// The decision of the variable was taken back. Answers whether it led to that, or that is not known.
    pub fn take_blame(&mut self, var: u32) -> bool
        ensures { vec_len self.new.decisions ≡ vec_len self.old.decisions }
    {
        if self.blamed.is_empty() {
            return true;
        }
        let is_blamed = self.blamed.get(self.passed) == Some(&var);
        if is_blamed {
            self.passed += 1;
        }
        is_blamed
    }
}

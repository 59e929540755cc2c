//! Rounds of assumptions on an engine.

ghost use Rattle.std.specs.Prelude.{◌<◌};

use pb_engine::{Engine, Step};
use pb_inst::{Lit, Number};

/// Numbers that look random, and are the same in each run. Source: [K97]
#[derive(Clone, Copy)]
pub struct Draws {
    state: u64,
}

impl Draws {
    pub fn new(seed: u64) -> Draws {
        Draws { state: seed }
    }

    fn next(&mut self) -> u64 {
        self.state = self
            .state
            .wrapping_mul(6_364_136_223_846_793_005)
            .wrapping_add(1_442_695_040_888_963_407);
        self.state ^ (self.state >> 33)
    }

    /// A number below the limit.
    pub fn below(&mut self, limit: u32) -> u32
        requires { 0 < limit }
        ensures { result < limit }
    {
        (self.next() % u64::from(limit)) as u32
    }
}

/// How a round chooses what it assumes.
#[derive(Clone, Copy)]
pub enum Course {
    /// The first variable alone, true.
    OneAssumption,
    /// Each variable in turn, false.
    InOrder,
    /// Each variable once, in steps from a drawn one on, each with a drawn sign.
    Shuffled,
}

/// What all rounds did.
#[derive(Clone, Copy, Debug)]
pub struct Counts {
    pub assumptions: u64,
    pub propagated: u64,
    pub conflicts: u64,
    pub greatest_bound: Number,
}

/// Runs the rounds. Each assumes and propagates up to a conflict or the end of its course, asks for the bound and backtracks.
pub fn run(engine: &mut Engine, course: Course, rounds: u32) -> Counts {
    let mut counts = Counts {
        assumptions: 0,
        propagated: 0,
        conflicts: 0,
        greatest_bound: Number::MIN,
    };
    let mut draws = Draws::new(2);
    for _ in 0..rounds {
        let step = round(engine, course, &mut draws);
        let level = u64::from(engine.level());
        counts.assumptions = counts.assumptions.saturating_add(level);
        counts.propagated = counts
            .propagated
            .saturating_add(assigned(engine).saturating_sub(level));
        if step == Step::Conflict {
            counts.conflicts = counts.conflicts.saturating_add(1);
        }
        counts.greatest_bound = counts.greatest_bound.max(engine.bound());
        engine.undo_to(0);
    }
    counts
}

/// Propagates, and then assumes and propagates in turn as the course says.
fn round(engine: &mut Engine, course: Course, draws: &mut Draws) -> Step {
    let vars = engine.vars();
    let (count, start, signs) = match course {
        Course::OneAssumption => (1, 0, u64::MAX),
        Course::InOrder => (vars, 0, 0),
        Course::Shuffled => (vars, draws.below(vars.max(1)), draws.next()),
    };
    if propagate(engine) == Step::Conflict {
        return Step::Conflict;
    }
    for i in 0..count {
        let var = 1 + (u64::from(start) + u64::from(i)) % u64::from(vars.max(1));
        let positive = (signs >> (i % 64)) & 1 == 1;
        if decide(engine, var as u32, positive) == Step::Conflict {
            return Step::Conflict;
        }
    }
    Step::Fixed
}

/// Assumes the variable with the sign and propagates, where it has no value.
fn decide(engine: &mut Engine, var: u32, positive: bool) -> Step {
    let Ok(lit) = Lit::new(var, positive) else {
        return Step::Fixed;
    };
    if lit.var() > engine.vars() || engine.value(lit.var()).is_some() || engine.conflict() {
        return Step::Fixed;
    }
    engine.assume(lit);
    propagate(engine)
}

fn propagate(engine: &mut Engine) -> Step {
    if engine.conflict() {
        return Step::Conflict;
    }
    engine.propagate()
}

/// How many variables have a value.
fn assigned(engine: &Engine) -> u64 {
    let mut assigned = 0_u64;
    for var in 1..=engine.vars() {
        assigned = assigned.saturating_add(u64::from(engine.value(var).is_some()));
    }
    assigned
}

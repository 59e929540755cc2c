//! A trail over a normal form of either width.

ghost use Rattle.std.specs.Prelude.{◌≡◌, ◌<◌, ◌≤◌, [], ◌++◌, false, true, length, take, None, All, IfOk, ◌≤ℤ◌, pos, neg_ℤ, List};
ghost use Rattle.pb_inst.specs.declared.limits.TheConstants.{SUM_BOUND};
ghost use Rattle.pb_normal.specs.NormalForm.{PositiveRow};
ghost use Rattle.pb_rows.specs.Clauses.{AreClausesOf};
ghost use Rattle.pb_trail.specs.Trail.{value_on};
ghost use Rattle.pb_trail.specs.Completion.{HasNoCompletion, IsLowerBound};
ghost use Rattle.pb_trail.specs.EngineState.{trail_before};
ghost use Rattle.pb_trail.specs.Soundness.{IsSoundTrail};
ghost use Rattle.pb_trail.specs.Steps.{Assumes, Propagates};
ghost use Rattle.pb_row_bound.specs.DisjointRows.{disjoint_bound};

use crate::engine_at::EngineAt;
use pb_inst::{Cube, Lit, Memory, Number};
use pb_normal::{Normal, Width};
use pb_rows::MAX_CLAUSES;
use pb_trail::Step;
use std::alloc::Global;
use std::marker::Model;

/// Rows, a trail over their variables with some literals assumed, and whether a conflict stands. An engine counts in numbers of
/// its normal form's width.
pub struct Engine {
    at_width: Width<EngineAt<u64>, EngineAt<u128>>,
}

impl Model for Engine {
    ghost use Rattle.pb_trail.specs.EngineState.{EngineState};
    ghost use Rattle.pb_normal.specs.Widths.{either};

    ghost Value = { EngineState };

    ghost view = { λ e. either e.at_width };
}

impl Drop for Engine {
    fn drop(self) {
        let Engine { at_width: _ } = self;
    }
}

impl Engine {
    /// The empty trail over the rows of the normal form and, for each cube in order, the clause that some literal of it is
    /// false; a cube that contradicts itself has none. Nothing after it takes memory. `Memory` says that a growth of memory
    /// was refused; it always is for more than `MAX_CLAUSES` cubes, since there are no numbers for the clauses of more.
    pub fn new(alloc: Global, normal: &Normal, negated: &[Cube]) -> Result<Engine, Memory>
        requires variables { All (λ cube. All (λ l. l.var ≤ normal.now.vars) cube) negated.now }
        ensures form { IfOk result (λ e. (e.form ≡ normal.now) × (e.vars ≡ normal.now.vars)) }
        ensures rows { IfOk result (λ e. (clauses : List PositiveRow) × (e.rows ≡ normal.now.rows ++ clauses) × AreClausesOf negated.now clauses) }
        ensures empty { IfOk result (λ e. (e.trail ≡ []) × (e.levels ≡ []) × (e.conflict ≡ false)) }
    {
        if negated.len() > MAX_CLAUSES {
            return Err(beyond_all_memory(alloc));
        }
        let at_width = match normal.form() {
            Width::Narrow(form) => Width::Narrow(EngineAt::new(alloc, form, negated)?),
            Width::Wide(form) => Width::Wide(EngineAt::new(alloc, form, negated)?),
        };
        Ok(Engine { at_width })
    }

    /// The value that the trail gives the variable, if any.
    pub fn value(&self, var: u32) -> Option<bool>
        ensures value { result ≡ value_on self.now.trail var }
        ensures sound { IsSoundTrail self.now }
    {
        match &self.at_width {
            Width::Narrow(engine) => engine.value(var),
            Width::Wide(engine) => engine.value(var),
        }
    }

    /// The number of variables.
    pub fn vars(&self) -> u32
        ensures { result ≡ self.now.vars }
    {
        match &self.at_width {
            Width::Narrow(engine) => engine.vars(),
            Width::Wide(engine) => engine.vars(),
        }
    }

    /// The number of assumptions on the trail.
    pub fn level(&self) -> u32
        ensures count { result ≡ length self.now.levels }
        ensures sound { IsSoundTrail self.now }
    {
        match &self.at_width {
            Width::Narrow(engine) => engine.level(),
            Width::Wide(engine) => engine.level(),
        }
    }

    /// Whether a conflict came since the last `undo_to`.
    pub fn conflict(&self) -> bool
        ensures stands { result ≡ self.now.conflict }
        ensures no_completion { result ≡ true → HasNoCompletion self.now.rows self.now.trail }
        ensures sound { IsSoundTrail self.now }
    {
        match &self.at_width {
            Width::Narrow(engine) => engine.conflict(),
            Width::Wide(engine) => engine.conflict(),
        }
    }

    /// Puts a literal without a value on the trail, as an assumption.
    pub fn assume(&mut self, lit: Lit) -> Step
        requires variable { lit.var ≤ self.old.vars }
        requires no_value { value_on self.old.trail lit.var ≡ None }
        requires no_conflict { self.old.conflict ≡ false }
        ensures { Assumes self.old lit self.new result }
    {
        match &mut self.at_width {
            Width::Narrow(engine) => engine.assume(lit),
            Width::Wide(engine) => engine.assume(lit),
        }
    }

    /// Adds literals that are forced until no more are found by single rows, or a row can't be met any more.
    pub fn propagate(&mut self) -> Step
        requires { self.old.conflict ≡ false }
        ensures { Propagates self.old self.new result }
    {
        match &mut self.at_width {
            Width::Narrow(engine) => engine.propagate(),
            Width::Wide(engine) => engine.propagate(),
        }
    }

    /// Takes back every assumption above the level, and what was added since.
    pub fn undo_to(&mut self, level: u32)
        requires { level ≤ length self.old.levels }
        ensures undone { self.new ≡ record self.old { trail = trail_before self.old level; levels = take level self.old.levels; conflict = false } }
        ensures sound { IsSoundTrail self.new }
    {
        match &mut self.at_width {
            Width::Narrow(engine) => engine.undo_to(level),
            Width::Wide(engine) => engine.undo_to(level),
        }
    }

    /// The base, what the trail pays, and the contributions of rows that share no variable without a value: at most the cost of
    /// every completion of the trail; from `-SUM_BOUND` to `SUM_BOUND`. It leaves the trail and the conflict as they are, and
    /// takes no memory.
    pub fn bound(&mut self) -> Number
        ensures value { result ≡ disjoint_bound self.old.form self.old.rows self.old.trail }
        ensures bound { IsLowerBound self.old.form self.old.rows self.old.trail result }
        ensures range { (neg_ℤ (pos SUM_BOUND) ≤ℤ result) × (result ≤ℤ pos SUM_BOUND) }
        ensures unchanged { self.new ≡ self.old }
    {
        match &mut self.at_width {
            Width::Narrow(engine) => engine.bound(),
            Width::Wide(engine) => engine.bound(),
        }
    }
}

/// The refusal of a request for as many bytes as there are addresses, which no allocator grants.
fn beyond_all_memory(alloc: Global) -> Memory {
    match Vec::<u8>::with_capacity(alloc, usize::MAX) {
        Ok(_) => unreachable!(),
        Err(refused) => refused,
    }
}

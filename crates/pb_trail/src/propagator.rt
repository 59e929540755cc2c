//! A trail with assumptions, and what follows from them.
//! Source: [ES03]

ghost use Rattle.std.specs.Prelude.{◌≡◌, ◌<◌, ◌≤◌, [], false, true, length, take, None, Some, IfOk, IfSome, slice_index_or};
ghost use Rattle.std.specs.Option.{ForSome};
ghost use Rattle.pb_rows.specs.Constraints.{row_at};
ghost use Rattle.pb_rows.specs.Tables.{terms_in};
ghost use Rattle.pb_trail.specs.Trail.{value_on};
ghost use Rattle.pb_trail.specs.Completion.{HasNoCompletion};
ghost use Rattle.pb_trail.specs.Propagation.{IsBrokenAt};
ghost use Rattle.pb_trail.specs.EngineState.{trail_before};
ghost use Rattle.pb_trail.specs.Soundness.{IsSoundTrail};
ghost use Rattle.pb_trail.specs.Steps.{Assumes, Propagates};

use crate::propagation::{Step, propagate_all};
use crate::reasons::NO_ROW;
use crate::trail::Trail;
use crate::trail_view::TrailView;
use pb_count::Coefficient;
use pb_inst::{Lit, Memory};
use pb_rows::{RowTerms, TablesSource};
use std::alloc::Global;
use std::marker::Model;

/// Where an assumption stands on the trail, and whether every row was settled before it.
#[derive(Clone, Copy)]
struct Level {
    start: usize,
    settled: bool,
}

/// A trail over the variables of rows with some literals assumed, and whether a conflict stands.
#[derive(Drop)]
pub struct Propagator<C: Coefficient> {
    source: TablesSource<C>,
    trail: Trail<C>,
    levels: Vec<Level>,
    propagated: Option<usize>,
    conflict: bool,
}

impl<C: Coefficient> Model for Propagator<C> {
    ghost use Rattle.std.specs.Vec.{vec_capacity};
    ghost use Rattle.pb_trail.specs.EngineState.{EngineState};

    ghost Value = { EngineState };

    ghost use Rattle.pb_trail.specs.Levels.{starts_of, IsPropagator};

    ghost view = { λ p. record { form = p.source.form; vars = p.source.vars; rows = p.source.rows; trail = p.trail.lits; levels = starts_of p.levels.items; conflict = p.conflict } };

    ghost invariant = { λ p. IsPropagator p.source p.trail p.levels.items p.propagated p.conflict (vec_capacity p.levels) };
}

impl<C: Coefficient> Propagator<C> {
    /// The empty trail over the rows. No later call takes memory.
    pub fn new(alloc: Global, source: TablesSource<C>) -> Result<Propagator<C>, Memory>
        ensures { IfOk result (λ p. p ≡ record { form = source.form; vars = source.vars; rows = source.rows; trail = []; levels = []; conflict = false }) }
    {
        let tables = source.tables();
        tables.facts();
        let levels = Vec::with_capacity(alloc, tables.vars() as usize)?;
        let trail = Trail::new(alloc, &tables)?;
        Ok(Propagator {
            source,
            trail,
            levels,
            propagated: None,
            conflict: false,
        })
    }

    /// The trail with the slacks of the rows.
    pub fn trail(&self) -> TrailView<'_, C>
        ensures form { result.form ≡ self.now.form }
        ensures vars { result.vars ≡ self.now.vars }
        ensures rows { result.rows ≡ self.now.rows }
        ensures trail { result.trail ≡ self.now.trail }
    {
        TrailView::new(self.source.tables(), &self.trail)
    }

    /// Where the assumption after `level` others stands on the trail, or the trail's length where there is none.
    pub fn start_of(&self, level: u32) -> usize
        ensures { result ≡ slice_index_or self.now.levels level (length self.now.trail) }
    {
        let level = level as usize;
        if level < self.levels.len() {
            self.levels[level].start
        } else {
            self.trail.len()
        }
    }

    /// The value that the trail gives the variable, if any.
    pub fn value(&self, var: u32) -> Option<bool>
        ensures value { result ≡ value_on self.now.trail var }
        ensures sound { IsSoundTrail self.now }
    {
        if var == 0 || var > self.trail.vars() {
            return None;
        }
        self.trail.value(var)
    }

    /// The number of variables.
    pub fn vars(&self) -> u32
        ensures { result ≡ self.now.vars }
    {
        self.trail.vars()
    }

    /// The number of assumptions on the trail.
    pub fn level(&self) -> u32
        ensures count { result ≡ length self.now.levels }
        ensures sound { IsSoundTrail self.now }
    {
        self.levels.len() as u32
    }

    /// Whether a conflict came since the last `undo_to`.
    pub fn conflict(&self) -> bool
        ensures stands { result ≡ self.now.conflict }
        ensures no_completion { result ≡ true → HasNoCompletion self.now.rows self.now.trail }
        ensures sound { IsSoundTrail self.now }
    {
        self.conflict
    }

    /// The number of literals on the trail.
    pub fn trail_len(&self) -> usize
        ensures { result ≡ length self.now.trail }
    {
        self.trail.len()
    }

    /// The literal at a place of the trail, from 0 on.
    pub fn literal(&self, place: usize) -> Lit
        requires { place < length self.now.trail }
        ensures value { result ≡ slice_index_or self.now.trail place result }
        ensures within { result.var ≤ self.now.vars }
    {
        self.trail.literal(place)
    }

    /// Where a conflict stands: the row at which it was found, which can't be met under the trail.
    pub fn conflict_row(&self) -> Option<usize>
        ensures stands { IfSome result (λ _. self.now.conflict ≡ true) }
        ensures broken { IfSome result (λ row. IsBrokenAt self.now.rows self.now.trail row) }
    {
        if self.conflict {
            self.trail().broken_row()
        } else {
            None
        }
    }

    /// The row that forced the variable's value, if a row did. No more than a hint: where the variable has no value it is the
    /// row that forced its last one.
    pub fn reason(&self, var: u32) -> Option<usize>
        ensures within { IfSome result (λ row. row < length self.now.rows) }
    {
        let row = self.trail.reason(var);
        if row < self.source.tables().len() {
            Some(row)
        } else {
            None
        }
    }

    /// The terms of a row.
    pub fn row_terms(&self, row: usize) -> RowTerms<'_, C>
        requires { row < length self.now.rows }
        ensures { terms_in result ≡ (row_at self.now.rows row).terms }
    {
        self.source.tables().terms(row)
    }

    /// Puts a literal without a value on the trail, as an assumption.
    pub fn assume(&mut self, lit: Lit) -> Step
        requires variable { lit.var ≤ self.old.vars }
        requires no_value { value_on self.old.trail lit.var ≡ None }
        requires no_conflict { self.old.conflict ≡ false }
        ensures { Assumes self.old lit self.new result }
    {
        let start = self.trail.len();
        let settled = is_at(self.propagated, start);
        self.trail.push(&self.source.tables(), lit, NO_ROW);
        self.levels.push_reserved(Level { start, settled });
        Step::Fixed
    }

    /// Adds literals that are forced until no more are found by single rows, or a row can't be met any more.
    pub fn propagate(&mut self) -> Step
        requires { self.old.conflict ≡ false }
        ensures { Propagates self.old self.new result }
    {
        let tables = self.source.tables();
        let step = propagate_all(&tables, &mut self.trail, self.propagated);
        let length = self.trail.len();
        match step {
            Step::Fixed => self.propagated = Some(length),
            Step::Conflict => self.conflict = true,
        }
        step
    }

    /// Undoes every assumption above the level, and what was added since.
    pub fn undo_to(&mut self, level: u32)
        requires { level ≤ length self.old.levels }
        ensures undone { self.new ≡ record self.old { trail = trail_before self.old level; levels = take level self.old.levels; conflict = false } }
        ensures sound { IsSoundTrail self.new }
    {
        let level = level as usize;
        if level == self.levels.len() {
            self.propagated = known_if(!self.conflict, self.propagated);
            self.conflict = false;
            return;
        }
        let Level { start, settled } = self.levels[level];
        self.trail.cut(&self.source.tables(), start);
        self.levels.truncate(level);
        self.propagated = known_if(settled, Some(start));
        self.conflict = false;
    }
}

/// Whether the place up to which rows are known to be settled is this one.
fn is_at(propagated: Option<usize>, place: usize) -> bool
    ensures { result ≡ true → propagated ≡ Some place }
{
    match propagated {
        Some(until) => until == place,
        None => false,
    }
}

/// The place where `known`, and else none.
fn known_if(known: bool, propagated: Option<usize>) -> Option<usize>
    ensures { ForSome result (λ place. (known ≡ true) × (propagated ≡ Some place)) }
{
    if known { propagated } else { None }
}

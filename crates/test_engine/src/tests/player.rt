//! An engine and a propagator that get the same calls.

use super::forms::{are_within, is_fixed, is_lit, lit};
use pb_count::Coefficient;
use pb_engine::{EngineAt, MAX_CLAUSES, RowTerms, Step};
use pb_inst::{Cube, Lit, Magnitude, Number};
use pb_normal::Form;
use pb_rows::TablesSource;
use pb_trail::Propagator;
use std::alloc::Global;
use std::process::Abort;

/// An engine and, beside it, a propagator over the same rows. What is done is done with both, and both must say the same. The
/// propagator lends what an engine keeps to itself: its rows, and the counters of their slacks.
pub struct Player<C: Coefficient = u64> {
    engine: EngineAt<C>,
    propagator: Propagator<C>,
}

impl<C: Coefficient> Drop for Player<C> {
    fn drop(self) {
        let Player {
            engine: _,
            propagator: _,
        } = self;
    }
}

impl<C: Coefficient> Player<C> {
    /// The empty trail over the form, with cubes that are to be false.
    pub fn new(rt: &impl Abort, alloc: Global, form: &Form<C>, cubes: &[Cube]) -> Player<C> {
        assert!(rt; are_within(cubes, form.vars()));
        assert!(rt; cubes.len() <= MAX_CLAUSES);
        let source = TablesSource::new(alloc, form, cubes).expect(rt, "memory");
        Player {
            propagator: Propagator::new(alloc, source).expect(rt, "memory"),
            engine: EngineAt::new(alloc, form, cubes).expect(rt, "memory"),
        }
    }

    /// Assumes the literal of this number.
    pub fn assume(&mut self, rt: &impl Abort, number: i32) -> Step {
        let lit = lit(rt, number);
        assert!(rt; lit.var() <= self.engine.vars());
        assert!(rt; self.engine.value(lit.var()).is_none());
        assert!(rt; !self.engine.conflict());
        assert!(rt; lit.var() <= self.propagator.vars());
        assert!(rt; self.propagator.value(lit.var()).is_none());
        assert!(rt; !self.propagator.conflict());
        let step = self.engine.assume(lit);
        assert!(rt; is_fixed(self.propagator.assume(lit)) == is_fixed(step));
        step
    }

    /// Propagates.
    pub fn propagate(&mut self, rt: &impl Abort) -> Step {
        assert!(rt; !self.engine.conflict());
        assert!(rt; !self.propagator.conflict());
        let step = self.engine.propagate();
        assert!(rt; is_fixed(self.propagator.propagate()) == is_fixed(step));
        step
    }

    /// Undoes every assumption above the level.
    pub fn undo_to(&mut self, rt: &impl Abort, level: u32) {
        assert!(rt; level <= self.engine.level());
        assert!(rt; level <= self.propagator.level());
        self.engine.undo_to(level);
        self.propagator.undo_to(level);
    }

    /// The number of variables.
    pub fn vars(&self) -> u32 {
        self.engine.vars()
    }

    /// The value of the variable.
    pub fn value(&self, rt: &impl Abort, var: u32) -> Option<bool> {
        let value = self.engine.value(var);
        assert!(rt; self.propagator.value(var) == value);
        value
    }

    /// The number of assumptions.
    pub fn level(&self, rt: &impl Abort) -> u32 {
        let level = self.engine.level();
        assert!(rt; self.propagator.level() == level);
        level
    }

    /// Whether a conflict stands.
    pub fn conflict(&self, rt: &impl Abort) -> bool {
        let stands = self.engine.conflict();
        assert!(rt; self.propagator.conflict() == stands);
        stands
    }

    /// The number of literals on the trail.
    pub fn trail_len(&self, rt: &impl Abort) -> usize {
        let length = self.engine.trail_len();
        assert!(rt; self.propagator.trail_len() == length);
        length
    }

    /// The literal at a place of the trail.
    pub fn literal(&self, rt: &impl Abort, place: usize) -> Lit {
        assert!(rt; place < self.engine.trail_len());
        assert!(rt; place < self.propagator.trail_len());
        let lit = self.engine.literal(place);
        assert!(rt; self.propagator.literal(place) == lit);
        lit
    }

    /// The row of the conflict.
    pub fn conflict_row(&self, rt: &impl Abort) -> Option<usize> {
        let row = self.engine.propagator().conflict_row();
        assert!(rt; self.propagator.conflict_row() == row);
        row
    }

    /// Whether the row of the conflict has just these literals, in this order.
    pub fn conflict_has_lits(&self, expected: &[i32]) -> bool {
        match self.engine.propagator().conflict_row() {
            Some(row) => has_lits(self.engine.propagator().row_terms(row), expected),
            None => false,
        }
    }

    /// Whether the row has just these literals, in this order.
    pub fn row_has_lits(&self, rt: &impl Abort, row: usize, expected: &[i32]) -> bool {
        assert!(rt; row < self.propagator.trail().rows());
        has_lits(self.propagator.row_terms(row), expected)
    }

    /// The number of rows.
    pub fn rows(&self) -> usize {
        self.propagator.trail().rows()
    }

    /// The slack of a row by its counter, or none where it is negative.
    pub fn slack(&self, rt: &impl Abort, row: usize) -> Option<Magnitude> {
        let trail = self.propagator.trail();
        assert!(rt; row < trail.rows());
        trail
            .reachable(row)
            .number()
            .checked_sub(trail.degree(row).number())
    }

    /// The bound of the engine.
    pub fn bound(&mut self) -> Number {
        self.engine.bound()
    }

    /// Whether there are multipliers, and they have saved as much as they cost.
    pub fn multipliers_pay(&self) -> bool {
        self.engine.multipliers_pay()
    }
}

/// Whether the terms have just these literals, in this order.
fn has_lits<C: Coefficient>(terms: RowTerms<'_, C>, expected: &[i32]) -> bool {
    match terms {
        RowTerms::Weighted(terms) => {
            terms.len() == expected.len()
                && terms
                    .iter()
                    .zip(expected)
                    .all(|(term, number)| is_lit(term.lit(), *number))
        }
        RowTerms::Units(units) => {
            units.len() == expected.len()
                && units
                    .iter()
                    .zip(expected)
                    .all(|(lit, number)| is_lit(*lit, *number))
        }
    }
}

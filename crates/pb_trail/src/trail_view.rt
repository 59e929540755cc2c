//! A trail beside the rows that it is over.

ghost use Rattle.std.specs.Prelude.{◌≡◌, ◌<◌, ◌≤◌, length, slice_index_or, IfSome};
ghost use Rattle.pb_rows.specs.Constraints.{AreRowsOver, row_at};
ghost use Rattle.pb_trail.specs.Tracked.{tracked_of, IsUpToDate};
ghost use Rattle.pb_trail.specs.Trail.{value_on, reachable};
ghost use Rattle.pb_trail.specs.Soundness.{IsProperTrail};
ghost use Rattle.pb_trail.specs.Propagation.{IsBrokenAt};

use crate::trail::Trail;
use pb_count::{Coefficient, Counter};
use pb_inst::Lit;
use pb_normal::Form;
use pb_rows::Tables;
use std::marker::Model;

/// A trail over the variables of rows, with the sum that each row can still reach and the value of each variable.
#[derive(Drop)]
pub struct TrailView<'t, C: Coefficient> {
    tables: Tables<'t, C>,
    trail: &'t Trail<C>,
}

impl<'t, C: Coefficient> Model for TrailView<'t, C> {
    ghost use Rattle.pb_trail.specs.Tracked.{Tracked, tracked_of, IsUpToDate};

    ghost Value = { Tracked };

    ghost view = { λ s. tracked_of s.tables s.trail.now.lits };

    ghost invariant = { λ s. IsUpToDate s.tables s.trail.now };
}

impl<'t, C: Coefficient> TrailView<'t, C> {
    /// The trail over the rows.
    pub fn new(tables: Tables<'t, C>, trail: &'t Trail<C>) -> TrailView<'t, C>
        requires up_to_date { IsUpToDate tables trail.now }
        ensures { result ≡ tracked_of tables.entry trail.now.lits }
    {
        TrailView { tables, trail }
    }

    /// The value that the trail gives the variable, if any.
    pub fn value(&self, var: u32) -> Option<bool>
        requires { (1 ≤ var) × (var ≤ self.now.vars) }
        ensures { result ≡ value_on self.now.trail var }
    {
        self.trail.value(var)
    }

    /// The number of literals on the trail.
    pub fn len(&self) -> usize
        ensures length { result ≡ length self.now.trail }
        ensures within { result ≤ self.now.vars }
        ensures proper { IsProperTrail self.now.vars self.now.trail }
        ensures rows { AreRowsOver self.now.vars self.now.rows }
    {
        self.trail.len()
    }

    /// What holds of every trail over rows. It does nothing at run time.
    #[inline(always)]
    pub fn facts(&self)
        ensures within { length self.now.trail ≤ self.now.vars }
        ensures proper { IsProperTrail self.now.vars self.now.trail }
        ensures rows { AreRowsOver self.now.vars self.now.rows }
    {
        let _length = self.len();
    }

    /// What the row can still reach: the coefficients of its literals that are not false.
    pub fn reachable(&self, row: usize) -> Counter<C>
        requires { row < length self.now.rows }
        ensures value { result ≡ reachable self.now.trail (row_at self.now.rows row).terms }
        ensures fits { result < C.limit }
    {
        self.tables.facts();
        self.trail.sum(row)
    }

    /// The literal at a place of the trail.
    pub fn literal(&self, place: usize) -> Lit
        requires { place < length self.now.trail }
        ensures value { result ≡ slice_index_or self.now.trail place result }
        ensures within { result.var ≤ self.now.vars }
    {
        self.trail.literal(place)
    }

    /// The number of rows.
    pub fn rows(&self) -> usize
        ensures { result ≡ length self.now.rows }
    {
        self.tables.len()
    }

    /// The degree of the row.
    pub fn degree(&self, row: usize) -> Counter<C>
        requires { row < length self.now.rows }
        ensures { result ≡ (row_at self.now.rows row).degree }
    {
        self.tables.degree(row)
    }

    /// The row at which a conflict was found last, where it can't be met under the trail.
    pub fn broken_row(&self) -> Option<usize>
        ensures { IfSome result (λ row. IsBrokenAt self.now.rows self.now.trail row) }
    {
        self.tables.facts();
        let row = self.trail.blamed();
        if row < self.rows() && self.reachable(row).is_below(self.degree(row)) {
            Some(row)
        } else {
            None
        }
    }

    /// The normal form.
    pub fn form(&self) -> &'t Form<C>
        ensures { result.now ≡ self.now.form }
    {
        self.tables.form()
    }

    /// The rows, with the occurrences of their literals.
    pub fn tables(&self) -> &Tables<'t, C>
        ensures { tracked_of result.now self.now.trail ≡ self.now }
    {
        &self.tables
    }
}

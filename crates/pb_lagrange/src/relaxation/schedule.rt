//! Which rows are stepped next: those that the trail or other steps touched, until enough terms were looked at for one bound. So
//! a bound costs what a node changes, and not what the instance has. That takes a few more decisions than sweeps over all rows.

ghost use Rattle.std.specs.Prelude.{◌≡◌, ◌+◌, ◌^◌, ◌<◌, ◌≤◌, IfOk, IfSome, length};

use pb_bits::RowSet;
use pb_count::{Coefficient, Counter};
use pb_dual::{Multipliers, Signed};
use pb_inst::{Lit, Memory};
use pb_normal::Form;
use pb_rows::{Occurs, Tables};
use std::alloc::Global;
use std::marker::Model;

/// About how many terms are looked at for one bound before its steps end, some 0.1 milliseconds, so that no node waits long for
/// its bound. The next bound goes on behind them.
const WORK_OF_A_BOUND: usize = 10_000;

/// A reduced cost must change by more than a cost of 1 divided by this before the rows of its variable are stepped too, or else
/// small changes would spread from row to row through the whole instance.
const SMALL_PART: u64 = 8;

/// The rows to step next, and what was looked at for the bound of this node. Contracts see how many rows there are.
#[derive(Drop)]
pub struct Schedule {
    /// Those of variables that joined the trail, those whose multipliers were taken back, and those of variables whose reduced
    /// costs changed.
    touched: RowSet,
    /// How many rows there are.
    rows: usize,
    /// From which row on the next bound steps.
    start: usize,
    /// How many terms were looked at for this bound.
    work: usize,
}

impl Model for Schedule {
    ghost use Rattle.std.specs.Prelude.{◌≡◌, ℕ, length};

    ghost Value = { ℕ };

    ghost view = { λ s. s.rows };

    ghost invariant = { λ s. length s.touched ≡ s.rows };
}

impl Schedule {
    /// No row of the form is touched.
    pub fn new<C: Coefficient>(alloc: Global, form: &Form<C>) -> Result<Schedule, Memory>
        ensures { IfOk result (λ s. s ≡ length form.now.rows) }
    {
        let rows = form.len();
        Ok(Schedule {
            touched: RowSet::new(alloc, rows)?,
            rows,
            start: 0,
            work: 0,
        })
    }

    /// A bound begins, for which nothing was looked at yet.
    pub fn begin(&mut self)
        ensures { self.new ≡ self.old }
    {
        self.work = 0;
    }

    /// How many terms were looked at for this bound.
    pub fn work(&self) -> usize {
        self.work
    }

    /// From which row on this bound steps: behind the last bound's where that ended early, else from the first.
    pub fn take_start(&mut self) -> usize
        ensures { self.new ≡ self.old }
    {
        let start = self.start;
        self.start = 0;
        start
    }

    /// Whether enough was looked at for one bound. The next one then goes on from this row.
    pub fn ends_before(&mut self, row: usize) -> bool
        ensures { self.new ≡ self.old }
    {
        if self.work <= WORK_OF_A_BOUND {
            return false;
        }
        self.start = row;
        true
    }

    /// The next touched row from this one on, or none. It is touched no more.
    pub fn take(&mut self, from: usize) -> Option<usize>
        ensures row { IfSome result (λ row. (from ≤ row) × (row < self.old) × (row + 1 < 2 ^ 64)) }
        ensures unchanged { self.new ≡ self.old }
    {
        let Some(row) = self.touched.next(from) else {
            return None;
        };
        self.touched.put(row, false);
        Some(row)
    }

    /// Touches the row, if there is one.
    pub fn touch_row(&mut self, row: usize)
        ensures { self.new ≡ self.old }
    {
        if row < self.rows {
            self.touched.put(row, true);
        }
    }

    /// Touches the rows of the literal's variable.
    pub fn touch<C: Coefficient>(&mut self, tables: &Tables<'_, C>, lit: Lit)
        requires { lit.var ≤ tables.now.vars }
        ensures { self.new ≡ self.old }
    {
        self.touch_rows_of(tables, lit);
        self.touch_rows_of(tables, lit.negate());
    }

    /// Touches the rows in which the literal occurs.
    fn touch_rows_of<C: Coefficient>(&mut self, tables: &Tables<'_, C>, lit: Lit)
        requires { lit.var ≤ tables.now.vars }
        ensures { self.new ≡ self.old }
    {
        let (occurrences, units) = (tables.occurrences(lit), tables.units(lit));
        touch_rows(&mut self.touched, self.rows, occurrences);
        touch_rows::<C, _>(&mut self.touched, self.rows, units);
        let count = occurrences.len().saturating_add(units.len());
        self.work = self.work.saturating_add(count);
    }

    /// Touches the rows of the row's variables without a value whose reduced costs the step by this amount changed by more
    /// than a little.
    pub fn spread<C: Coefficient>(
        &mut self,
        multipliers: &Multipliers<C>,
        tables: &Tables<'_, C>,
        row: usize,
        amount: Signed<C>,
    )
        requires row { row < length multipliers.now.form.rows }
        requires form { tables.now.form ≡ multipliers.now.form }
        requires rows { self.old ≡ length multipliers.now.form.rows }
        ensures { self.new ≡ self.old }
    {
        tables.facts();
        let little = multipliers.scale() / Counter::of(SMALL_PART);
        let terms = multipliers.form().terms(row);
        self.work = self.work.saturating_add(terms.len());
        let size = amount.magnitude();
        if size.is_zero() {
            return;
        }
        for term in terms {
            let changed = size.saturating_mul(term.coef());
            if little.is_below(changed) && multipliers.is_free(term.lit()) {
                self.touch(tables, term.lit());
            }
        }
        // Its own variables touched the row again, but it was stepped to its best place just now.
        self.touched.put(row, false);
    }
}

/// Touches the rows of the occurrences that are among the first `rows`: clauses of cubes come after them.
fn touch_rows<C: Coefficient, O: Occurs<C>>(touched: &mut RowSet, rows: usize, occurrences: &[O])
    requires { rows ≤ length touched.old }
    ensures { length touched.new ≡ length touched.old }
{
    for occurrence in occurrences {
        if occurrence.row() < rows {
            touched.put(occurrence.row(), true);
        }
    }
}

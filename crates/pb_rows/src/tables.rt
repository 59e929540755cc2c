//! The rows of a normal form and the clauses of cubes as one list of rows.

ghost use Rattle.std.specs.Prelude.{◌≡◌, ℕ, ◌+◌, ◌^◌, ◌<◌, ◌≤◌, length, take, All};
ghost use Rattle.pb_normal.specs.NormalForm.{IsNormal, total_coefficient};
ghost use Rattle.pb_rows.specs.Constraints.{AreRowsOver, row_at, HaveRisingVariables};
ghost use Rattle.pb_rows.specs.Clauses.{clause_row};
ghost use Rattle.pb_normal.specs.Fits.{HasSumsBelow};
ghost use Rattle.pb_rows.specs.Index.{occurrences_of, total_for};
ghost use Rattle.pb_rows.specs.Table.{AreLimits};
ghost use Rattle.pb_rows.specs.Tables.{constraints_of, AreBeside, terms_in};
ghost use Rattle.pb_normal.specs.Literals.{weight_of};

use crate::clauses::Clauses;
use crate::occurrences::{Occurrence, UnitOccurrence};
use crate::rows::{Limits, Rows};
use pb_count::{Coefficient, Counter};
use pb_inst::Lit;
use pb_normal::{Form, FormTerm, total_of};
use std::marker::Model;

/// The terms of a row of the form, or the literals of a clause, whose coefficients are 1.
#[derive(Clone, Copy)]
pub enum RowTerms<'a, C: Coefficient> {
    Weighted(&'a [FormTerm<C>]),
    Units(&'a [Lit]),
}

/// The rows of a normal form, and the clauses of cubes numbered on from them, as one list of rows.
#[derive(Drop)]
pub struct Tables<'t, C: Coefficient> {
    rows: &'t Rows<C>,
    clauses: &'t Clauses,
}

impl<'t, C: Coefficient> Model for Tables<'t, C> {
    ghost use Rattle.pb_rows.specs.Constraints.{Constraints};
    ghost use Rattle.pb_rows.specs.Tables.{constraints_of, AreBeside};

    ghost Value = { Constraints };

    ghost view = { λ t. constraints_of t.rows.now t.clauses.now };

    ghost invariant = { λ t. AreBeside t.rows.now t.clauses.now };
}

impl<'t, C: Coefficient> Tables<'t, C> {
    /// The rows, and the clauses beside them.
    pub fn new(rows: &'t Rows<C>, clauses: &'t Clauses) -> Tables<'t, C>
        requires beside { AreBeside rows.now clauses.now }
        ensures { result ≡ constraints_of rows.now clauses.now }
    {
        Tables { rows, clauses }
    }

    /// The normal form.
    pub fn form(&self) -> &'t Form<C>
        ensures { result.now ≡ self.now.form }
    {
        self.rows.form()
    }

    /// What holds of all tables. It does nothing at run time.
    #[inline(always)]
    pub fn facts(&self)
        ensures form { self.now.vars ≡ self.now.form.vars }
        ensures within { length self.now.form.rows ≤ length self.now.rows }
        ensures first { take (length self.now.form.rows) self.now.rows ≡ self.now.form.rows }
        ensures units { (r : ℕ) → length self.now.form.rows ≤ r → r < length self.now.rows → ((row_at self.now.rows r).degree ≡ 1) × All (λ t. t.coef ≤ 1) (row_at self.now.rows r).terms }
        ensures rows { AreRowsOver self.now.vars self.now.rows }
        ensures rising { HaveRisingVariables self.now.rows }
        ensures limits { All (λ row. HasSumsBelow C.limit row) self.now.rows }
        ensures normal { IsNormal self.now.form }
        ensures objective { total_coefficient self.now.form.objective < C.limit }
    {
        self.clauses.facts();
        self.rows.facts();
    }

    /// The number of variables.
    pub fn vars(&self) -> u32
        ensures { result ≡ self.now.vars }
    {
        self.rows.vars()
    }

    /// The number of rows and clauses.
    pub fn len(&self) -> usize
        ensures { result ≡ length self.now.rows }
    {
        self.rows.len() + self.clauses.len()
    }

    /// The degree of the row, which is 1 for a clause.
    pub fn degree(&self, row: usize) -> Counter<C>
        requires { row < length self.now.rows }
        ensures { result ≡ (row_at self.now.rows row).degree }
    {
        let rows = self.rows;
        if row < rows.len() {
            rows.degree(row)
        } else {
            self.facts();
            Counter::of(1)
        }
    }

    /// The number of rows of the form; the clauses come after them.
    pub fn form_len(&self) -> usize
        ensures value { result ≡ length self.now.form.rows }
        ensures within { result ≤ length self.now.rows }
    {
        self.rows.len()
    }

    /// The degree of a row of the form, and at least what it and any coefficient of the row add up to.
    pub fn limits(&self, row: usize) -> Limits<C>
        requires { row < length self.now.form.rows }
        ensures limits { AreLimits (row_at self.now.rows row) result }
        ensures exists { row < length self.now.rows }
    {
        self.rows.limits(row)
    }

    /// The terms of a row of the form.
    pub fn form_terms(&self, row: usize) -> &'t [FormTerm<C>]
        requires { row < length self.now.form.rows }
        ensures terms { result.now ≡ (row_at self.now.rows row).terms }
        ensures variables { All (λ t. (1 ≤ t.lit.var) × (t.lit.var ≤ self.now.vars)) result.now }
        ensures fit { All (λ t. t.coef < C.limit) result.now }
    {
        self.facts();
        self.rows.terms(row)
    }

    /// The literals of a clause.
    pub fn clause(&self, row: usize) -> &'t [Lit]
        requires form { length self.now.form.rows ≤ row }
        requires exists { row < length self.now.rows }
        ensures lits { row_at self.now.rows row ≡ clause_row result.now }
        ensures variables { All (λ l. (1 ≤ l.var) × (l.var ≤ self.now.vars)) result.now }
    {
        self.facts();
        let form_len = self.rows.len();
        self.clauses.lits(row - form_len)
    }

    /// The terms of the row.
    pub fn terms(&self, row: usize) -> RowTerms<'t, C>
        requires { row < length self.now.rows }
        ensures { terms_in result ≡ (row_at self.now.rows row).terms }
    {
        let rows = self.rows;
        if row < rows.len() {
            RowTerms::Weighted(rows.terms(row))
        } else {
            RowTerms::Units(self.clauses.lits(row - rows.len()))
        }
    }

    /// The sum of the row's coefficients.
    pub fn total(&self, row: usize) -> Counter<C>
        requires { row < length self.now.rows }
        ensures value { result ≡ total_coefficient (row_at self.now.rows row).terms }
        ensures fits { total_coefficient (row_at self.now.rows row).terms < C.limit }
    {
        self.facts();
        let rows = self.rows;
        if row < rows.len() {
            total_of(rows.terms(row))
        } else {
            Counter::of(self.clauses.lits(row - rows.len()).len() as u64)
        }
    }

    /// The rows of the form in which the literal occurs.
    pub fn occurrences(&self, lit: Lit) -> &'t [Occurrence<C>]
        requires { lit.var ≤ self.now.vars }
        ensures value { result.now ≡ occurrences_of self.now.occurrences self.now.starts lit }
        ensures rows_exist { All (λ o. o.row < length self.now.rows) result.now }
        ensures weights { (r : ℕ) → r < length self.now.rows → total_for r (occurrences_of self.now.occurrences self.now.starts lit) + total_for r (occurrences_of self.now.units self.now.unit_starts lit) ≡ weight_of lit (row_at self.now.rows r).terms }
    {
        let _units = self.clauses.occurrences(lit);
        self.rows.occurrences(lit)
    }

    /// The objective's coefficient of the literal, 0 where it has none.
    pub fn cost(&self, lit: Lit) -> Counter<C>
        requires { lit.var ≤ self.now.vars }
        ensures { result ≡ weight_of lit self.now.form.objective }
    {
        self.rows.cost(lit)
    }

    /// The clauses in which the literal occurs.
    pub fn units(&self, lit: Lit) -> &'t [UnitOccurrence]
        requires { lit.var ≤ self.now.vars }
        ensures value { result.now ≡ occurrences_of self.now.units self.now.unit_starts lit }
        ensures rows_exist { All (λ o. o.row < length self.now.rows) result.now }
    {
        self.clauses.occurrences(lit)
    }
}

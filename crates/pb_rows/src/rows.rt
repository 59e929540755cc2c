//! The rows of a normal form, with the rows in which each literal occurs.
//! Source: [CK05]

ghost use Rattle.std.specs.Prelude.{◌≡◌, ℕ, ◌+◌, ◌*◌, ◌^◌, ◌<◌, ◌≤◌, length, All, IfOk};
ghost use Rattle.pb_normal.specs.NormalForm.{IsNormal};
ghost use Rattle.pb_rows.specs.Constraints.{AreRowsOver, row_at};
ghost use Rattle.pb_normal.specs.Fits.{Fits};
ghost use Rattle.pb_rows.specs.Index.{occurrences_of, total_for, entries_from};
ghost use Rattle.pb_rows.specs.Table.{AreLimits, AreLimitsOf};
ghost use Rattle.pb_normal.specs.Literals.{weight_of};

use crate::costs::costs_of;
use crate::index::{Index, part};
use crate::occurrences::{Entry, Occurrence, place_of, push_entries};
use pb_count::{Coefficient, Counter};
use pb_inst::{Lit, Memory};
use pb_normal::{Form, FormTerm};
use std::alloc::Global;
use std::marker::Model;

/// The degree of a row, and a sum that is high enough to force no literal while the row can reach it. They stand side by
/// side for the test of the row's sum.
#[derive(Clone, Copy)]
pub struct Limits<C: Coefficient> {
    pub degree: Counter<C>,
    pub enough: Counter<C>,
}

/// The rows of a normal form, with the rows in which each literal occurs and what the objective says of it. They share the
/// form with its other owners, are built once, and are lent to engines.
#[derive(Drop)]
pub struct Rows<C: Coefficient = u64> {
    form: Form<C>,
    limits: Vec<Limits<C>>,
    index: Index<C>,
    costs: Vec<Counter<C>>,
}

impl<C: Coefficient> Model for Rows<C> {
    ghost use Rattle.pb_rows.specs.Table.{FormRows, AreFormRows};

    ghost Value = { FormRows };

    ghost view = { λ r. record { form = r.form; occurrences = r.index.occurrences.items; starts = r.index.starts.items } };

    ghost invariant = { λ r. AreFormRows r.form r.limits.items r.index.occurrences.items r.index.starts.items r.costs.items };
}

impl<C: Coefficient> Rows<C> {
    /// The rows of the normal form.
    pub fn new(alloc: Global, form: &Form<C>) -> Result<Rows<C>, Memory>
        ensures { IfOk result (λ rows. rows.form ≡ form.now) }
    {
        let form = form.share()?;
        let vars = form.vars();
        let entries = entries_of(alloc, &form)?;
        let index = Index::new(alloc, &entries, 2 * vars as usize)?;
        drop(entries);
        let limits = limits_of(alloc, &form)?;
        let costs = costs_of(alloc, form.objective(), vars)?;
        Ok(Rows {
            form,
            limits,
            index,
            costs,
        })
    }

    /// The normal form.
    pub fn form(&self) -> &Form<C>
        ensures { result.now ≡ self.now.form }
    {
        &self.form
    }

    /// What holds of all rows. It does nothing at run time.
    #[inline(always)]
    pub fn facts(&self)
        ensures normal { IsNormal self.now.form }
        ensures fits { Fits C.limit self.now.form }
    {
        self.form.facts();
    }

    /// The number of variables.
    pub fn vars(&self) -> u32
        ensures value { result ≡ self.now.form.vars }
        ensures normal { IsNormal self.now.form }
        ensures fits { Fits C.limit self.now.form }
    {
        self.form.vars()
    }

    /// The number of rows.
    pub fn len(&self) -> usize
        ensures value { result ≡ length self.now.form.rows }
        ensures small { result < 2 ^ 63 }
    {
        self.limits.len()
    }

    /// The degree of the row.
    pub fn degree(&self, row: usize) -> Counter<C>
        requires { row < length self.now.form.rows }
        ensures { result ≡ (row_at self.now.form.rows row).degree }
    {
        self.form.degree(row)
    }

    /// The degree of the row, and at least what it and any coefficient of the row add up to.
    pub fn limits(&self, row: usize) -> Limits<C>
        requires { row < length self.now.form.rows }
        ensures { AreLimits (row_at self.now.form.rows row) result }
    {
        self.limits[row]
    }

    /// The terms of the row.
    pub fn terms(&self, row: usize) -> &[FormTerm<C>]
        requires { row < length self.now.form.rows }
        ensures { result.now ≡ (row_at self.now.form.rows row).terms }
    {
        self.form.terms(row)
    }

    /// The rows in which the literal occurs.
    pub fn occurrences(&self, lit: Lit) -> &[Occurrence<C>]
        requires { lit.var ≤ self.now.form.vars }
        ensures value { result.now ≡ occurrences_of self.now.occurrences self.now.starts lit }
        ensures rows_exist { All (λ o. o.row < length self.now.form.rows) result.now }
        ensures weights { (r : ℕ) → total_for r result.now ≡ weight_of lit (row_at self.now.form.rows r).terms }
    {
        let place = place_of(lit);
        let (start, end) = (self.index.starts[place], self.index.starts[place + 1]);
        part(&self.index.occurrences, start, end)
    }

    /// The objective's coefficient of the literal, 0 where it has none.
    pub fn cost(&self, lit: Lit) -> Counter<C>
        requires { lit.var ≤ self.now.form.vars }
        ensures { result ≡ weight_of lit self.now.form.objective }
    {
        self.costs[place_of(lit)]
    }
}

/// Where each literal of the rows occurs, row by row. There is room for all of them at once, so the list never grows.
fn entries_of<C: Coefficient>(alloc: Global, form: &Form<C>) -> Result<Vec<Entry<C>>, Memory>
    ensures { IfOk result (λ entries. entries.items ≡ entries_from 0 form.now.rows (length form.now.rows)) }
{
    form.facts();
    let mut entries = Vec::with_capacity(alloc, form.terms_len())?;
    for row in 0..form.len() {
        push_entries(&mut entries, row as u32, form.terms(row))?;
    }
    Ok(entries)
}

/// The limits of each row.
fn limits_of<C: Coefficient>(alloc: Global, form: &Form<C>) -> Result<Vec<Limits<C>>, Memory>
    ensures { IfOk result (λ limits. AreLimitsOf form.now.rows (length form.now.rows) limits.items) }
{
    let mut limits = Vec::with_capacity(alloc, form.len())?;
    for row in 0..form.len() {
        limits.push(limits_at(form, row))?;
    }
    Ok(limits)
}

/// The limits of one row.
fn limits_at<C: Coefficient>(form: &Form<C>, row: usize) -> Limits<C>
    requires { row < length form.now.rows }
    ensures { AreLimits (row_at form.now.rows row) result }
{
    form.facts();
    let degree = form.degree(row);
    let enough = enough(degree, form.terms(row));
    Limits { degree, enough }
}

/// The degree and the greatest coefficient together.
fn enough<C: Coefficient>(degree: Counter<C>, terms: &[FormTerm<C>]) -> Counter<C>
    requires small { degree < C.limit }
    requires clipped { All (λ t. t.coef ≤ degree) terms.now }
    ensures degree { degree ≤ result }
    ensures each { All (λ t. degree + t.coef ≤ result) terms.now }
    ensures most { result ≤ 2 * degree }
{
    let mut enough = degree;
    for term in terms {
        enough = enough.max(degree + term.coef());
    }
    enough
}

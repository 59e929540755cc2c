//! The linear program: what a trail leaves of a form.

ghost use Rattle.std.specs.Prelude.{◌<◌, length};

use crate::floats::{add, at, float, put, refill};
use crate::sparse::{Lines, product};
use pb_count::Coefficient;
use pb_dual::Multipliers;
use pb_inst::{Lit, Memory};
use std::alloc::Global;

/// Minimise costs times x, where the matrix times x is at least what the rows need, and each x is from 0 to 1. Column v is
/// variable v + 1. A variable that has a value has no entry and no cost.
#[derive(Drop)]
pub struct Problem {
    /// The matrix by rows: those rows of the form that the trail does not meet.
    pub rows: Lines,
    /// The matrix by columns, one for each variable, so that a step of x finds the entries of a column side by side.
    pub columns: Lines,
    /// The number of each row in the form.
    pub ids: Vec<usize>,
    /// What each row needs.
    pub needs: Vec<f64>,
    /// What each column costs.
    pub costs: Vec<f64>,
}

impl Problem {
    /// An empty problem, with room for any of at most `vars` variables, `rows` rows and `terms` terms.
    pub fn new(alloc: Global, vars: usize, rows: usize, terms: usize) -> Result<Problem, Memory> {
        Ok(Problem {
            rows: Lines::new(alloc, rows, terms)?,
            columns: Lines::new(alloc, vars, terms)?,
            ids: Vec::with_capacity(alloc, rows)?,
            needs: Vec::with_capacity(alloc, rows)?,
            costs: Vec::with_capacity(alloc, vars)?,
        })
    }

    /// Takes over the problem that the trail of the multipliers leaves.
    pub fn load<C: Coefficient>(&mut self, multipliers: &Multipliers<C>) {
        self.load_costs(multipliers);
        self.rows.clear();
        self.ids.clear();
        self.needs.clear();
        for row in 0..multipliers.form().len() {
            self.load_row(multipliers, row);
        }
        self.columns.transpose(&self.rows, self.costs.len());
    }

    /// Takes the costs of the variables that have no value. A cost of a negation is saved by its variable, so it counts below 0.
    fn load_costs<C: Coefficient>(&mut self, multipliers: &Multipliers<C>) {
        let form = multipliers.form();
        refill(&mut self.costs, form.vars() as usize, 0.0);
        for term in form.objective() {
            let lit = term.lit();
            if multipliers.is_free(lit) {
                let cost = float(term.coef().number());
                put(&mut self.costs, column(lit), signed(lit, cost));
            }
        }
    }

    /// Takes the row, if the trail does not meet it. A negation is 1 less its variable, so its coefficient lowers the need.
    fn load_row<C: Coefficient>(&mut self, multipliers: &Multipliers<C>, row: usize)
        requires { row < length multipliers.now.form.rows }
    {
        let form = multipliers.form();
        // Rows count as they do for the multipliers, so that both bounds are of the same problem.
        let most = multipliers.most(row);
        let (mut need, mut negated) = (multipliers.degree(row).number(), 0.0);
        for term in form.terms(row) {
            let (lit, coef) = (term.lit(), term.coef().min(most).number());
            match value(multipliers, lit) {
                Some(true) => need = need.saturating_sub(coef),
                Some(false) => {}
                None => {
                    let size = float(coef);
                    self.rows.push(column(lit), signed(lit, size));
                    negated = if lit.positive() {
                        negated
                    } else {
                        negated + size
                    };
                }
            }
        }
        // Whether the row is met is known only now, when its entries are in.
        if need == 0 {
            self.rows.drop_line();
            return;
        }
        self.end_row(row, float(need) - negated);
    }

    /// Ends the row of this number in the form, which needs `need`.
    fn end_row(&mut self, row: usize, need: f64) {
        if self.ids.len() < self.ids.capacity() {
            self.ids.push_reserved(row);
            add(&mut self.needs, need);
            self.rows.end_line();
        }
    }

    /// How many numbers one pass over all of it reads: entries, rows and columns.
    pub fn size(&self) -> u64 {
        let lines = self.rows.len().saturating_add(self.columns.len());
        self.rows.entries().saturating_add(lines) as u64
    }

    /// What the row lacks at this x; below 0 where it has more than it needs.
    pub fn lack(&self, row: usize, x: &[f64]) -> f64 {
        at(&self.needs, row) - product(self.rows.line(row), x)
    }

    /// What is left of the column's cost at these multipliers.
    pub fn reduced_cost(&self, column: usize, y: &[f64]) -> f64 {
        at(&self.costs, column) - product(self.columns.line(column), y)
    }

    /// A lower bound of the least cost, by multipliers of 0 or more: the needs times these, and the reduced costs below 0,
    /// since an x of 1 is the cheapest there and an x of 0 elsewhere.
    pub fn bound(&self, y: &[f64]) -> f64 {
        let mut bound = 0.0;
        for (need, multiplier) in self.needs.iter().zip(y) {
            bound = bound + *need * *multiplier;
        }
        for column in 0..self.costs.len() {
            let cost = self.reduced_cost(column, y);
            if cost < 0.0 {
                bound = bound + cost;
            }
        }
        bound
    }
    /// The cost of x, and twice what its lacks are worth by these multipliers, so that it does not pay to leave a row unmet.
    /// Near a point of least cost it is about an upper bound of the least cost.
    pub fn price(&self, x: &[f64], y: &[f64]) -> f64 {
        let mut price = 0.0;
        for (cost, value) in self.costs.iter().zip(x) {
            price = price + *cost * *value;
        }
        for row in 0..self.rows.len() {
            let lack = self.lack(row, x);
            if lack > 0.0 {
                price = price + 2.0 * lack * at(y, row);
            }
        }
        price
    }
}

/// The column of the literal's variable.
fn column(lit: Lit) -> usize {
    lit.var() as usize - 1
}

/// The size, below 0 for a negation.
fn signed(lit: Lit, size: f64) -> f64 {
    if lit.positive() { size } else { -size }
}

/// Whether the trail makes the literal true, if it gives its variable a value.
fn value<C: Coefficient>(multipliers: &Multipliers<C>, lit: Lit) -> Option<bool> {
    // No form has such a literal. False is the value that adds nothing to a row.
    if lit.var() > multipliers.form().vars() {
        return Some(false);
    }
    multipliers.value(lit)
}

/// Whether there is a row that the trail does not meet.
pub fn has_row<C: Coefficient>(multipliers: &Multipliers<C>) -> bool {
    for row in 0..multipliers.form().len() {
        if !is_met(multipliers, row) {
            return true;
        }
    }
    false
}

/// Whether the trail meets the row.
fn is_met<C: Coefficient>(multipliers: &Multipliers<C>, row: usize) -> bool
    requires { row < length multipliers.now.form.rows }
{
    let form = multipliers.form();
    let mut need = form.degree(row).number();
    for term in form.terms(row) {
        if value(multipliers, term.lit()) == Some(true) {
            need = need.saturating_sub(term.coef().number());
        }
    }
    need == 0
}

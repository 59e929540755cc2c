//! The scales of a problem's rows and columns. Its entries stay as they are: the scales make steps longer or shorter, and
//! distances are measured by them.
//!
//! Rows and columns are first scaled towards a greatest entry of 1, again and again, and then once by the sum of their
//! entries, so that the norm of the scaled matrix is at most 1.
//! Source: [R01], [PC11], [A21]

use crate::floats::{add, at, refill};
use crate::problem::Problem;
use crate::sparse::{Entry, Lines};
use pb_inst::Memory;
use std::alloc::Global;

/// How often rows and columns are scaled towards a greatest entry of 1. To scale one direction undoes the other in part, so one
/// round is not enough. Source: [A21]
const ROUNDS: u32 = 10;

/// How many passes over a problem its scales take: each round reads it by rows and by columns.
pub const VISITS: u64 = 2 * (ROUNDS as u64 + 1);

/// What is to become 1 about the entries of a line.
#[derive(Clone, Copy)]
enum Norm {
    Greatest,
    Sum,
}

/// The scales of all rows and columns, all above 0.
#[derive(Drop)]
pub struct Scaling {
    pub rows: Vec<f64>,
    pub columns: Vec<f64>,
    /// By how much each row is scaled next.
    row_factors: Vec<f64>,
    /// By how much each column is scaled next.
    column_factors: Vec<f64>,
}

impl Scaling {
    /// No scales, and room for those of `vars` variables and `rows` rows.
    pub fn new(alloc: Global, vars: usize, rows: usize) -> Result<Scaling, Memory> {
        Ok(Scaling {
            rows: Vec::with_capacity(alloc, rows)?,
            columns: Vec::with_capacity(alloc, vars)?,
            row_factors: Vec::with_capacity(alloc, rows)?,
            column_factors: Vec::with_capacity(alloc, vars)?,
        })
    }

    /// Finds the scales of the problem.
    pub fn fit(&mut self, problem: &Problem) {
        refill(&mut self.rows, problem.rows.len(), 1.0);
        refill(&mut self.columns, problem.columns.len(), 1.0);
        for _ in 0..ROUNDS {
            self.refine(problem, Norm::Greatest);
        }
        self.refine(problem, Norm::Sum);
    }

    /// Scales all rows and columns once more, by the norms of their entries as they are scaled so far.
    fn refine(&mut self, problem: &Problem, norm: Norm) {
        let (rows, columns) = (&problem.rows, &problem.columns);
        find_factors(&mut self.row_factors, rows, &self.rows, &self.columns, norm);
        find_factors(
            &mut self.column_factors,
            columns,
            &self.columns,
            &self.rows,
            norm,
        );
        // Only now, so that the factors of both directions come from the same scales.
        multiply(&mut self.rows, &self.row_factors);
        multiply(&mut self.columns, &self.column_factors);
    }
}

/// Finds by how much each line is to be scaled further, from its own scale and those of the other direction.
fn find_factors(factors: &mut Vec<f64>, lines: &Lines, own: &[f64], others: &[f64], norm: Norm) {
    factors.clear();
    for number in 0..lines.len() {
        let size = at(own, number) * measure(lines.line(number), others, norm);
        // A square root, because each entry is scaled by its row and by its column.
        let factor = if size > 0.0 { 1.0 / size.sqrt() } else { 1.0 };
        add(factors, factor);
    }
}

/// The norm of the entries, scaled by the other direction alone.
fn measure(line: &[Entry], others: &[f64], norm: Norm) -> f64 {
    let mut whole = 0.0;
    for entry in line {
        let size = entry.size.abs() * at(others, entry.index);
        whole = match norm {
            Norm::Greatest if size > whole => size,
            Norm::Greatest => whole,
            Norm::Sum => whole + size,
        };
    }
    whole
}

/// Multiplies each scale by its factor.
fn multiply(scales: &mut [f64], factors: &[f64]) {
    for (scale, factor) in scales.iter_mut().zip(factors) {
        *scale = *scale * *factor;
    }
}

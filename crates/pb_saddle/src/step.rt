//! One step of the method: x moves against the reduced costs, and then y along what the rows lack at a point that is as far
//! again beyond the new x.
//! Source: [CP11], [PC11], [A21]

use crate::floats::{add, at, put};
use crate::iterate::Iterate;
use crate::problem::Problem;
use crate::scaling::Scaling;
use pb_inst::Memory;
use std::alloc::Global;

/// Which part of the longest steps is made. The method is proved to converge below 1, and shorter steps only take longer.
/// Chosen by hand.
const PART: f64 = 0.99;

/// Squared distances up to this tell nothing of a weight, because they may be rounding alone. Chosen by hand.
const SHORTEST: f64 = 1.0e-20;

/// How steps are made.
#[derive(Drop)]
pub struct Steps {
    /// How many times as long the scaled steps of y are made, and how many times as short those of x.
    weight: f64,
    /// The point as far again beyond the target of x, by columns.
    beyond: Vec<f64>,
}

impl Steps {
    /// Steps of weight 1, with room for `vars` variables.
    pub fn new(alloc: Global, vars: usize) -> Result<Steps, Memory> {
        Ok(Steps {
            weight: 1.0,
            beyond: Vec::with_capacity(alloc, vars)?,
        })
    }

    /// Begins in another problem. The weight is how many times as great costs are as needs, since y is in costs for a need.
    /// Source: [A21]
    pub fn begin(&mut self, problem: &Problem, scaling: &Scaling) {
        let costs = squared_length(&problem.costs, &scaling.columns);
        let needs = squared_length(&problem.needs, &scaling.rows);
        self.weight = if costs > 0.0 && needs > 0.0 {
            (costs / needs).sqrt()
        } else {
            1.0
        };
    }

    /// Finds the targets of x and y. Gives the length of the step, in which x and y count by the weight.
    pub fn step(
        &mut self,
        problem: &Problem,
        scaling: &Scaling,
        x: &mut Iterate,
        y: &mut Iterate,
    ) -> f64 {
        let far_x = self.step_columns(problem, scaling, x, &y.current);
        let far_y = self.step_rows(problem, scaling, y);
        (self.weight * far_x + far_y / self.weight).sqrt()
    }

    /// Finds the target of x, and the point as far again beyond it. Gives how far the target is, squared and scaled.
    fn step_columns(
        &mut self,
        problem: &Problem,
        scaling: &Scaling,
        x: &mut Iterate,
        y: &[f64],
    ) -> f64 {
        let mut far = 0.0;
        self.beyond.clear();
        for column in 0..problem.columns.len() {
            let scale = at(&scaling.columns, column);
            let from = at(&x.current, column);
            let length = PART / self.weight * scale * scale;
            let to = cut(from - length * problem.reduced_cost(column, y));
            put(&mut x.target, column, to);
            // The rows look beyond the target, or else the method need not converge.
            add(&mut self.beyond, 2.0 * to - from);
            let by = (to - from) / scale;
            far = far + by * by;
        }
        far
    }

    /// Finds the target of y. Gives how far it is, squared and scaled.
    fn step_rows(&self, problem: &Problem, scaling: &Scaling, y: &mut Iterate) -> f64 {
        let mut far = 0.0;
        for row in 0..problem.rows.len() {
            let scale = at(&scaling.rows, row);
            let from = at(&y.current, row);
            let length = PART * self.weight * scale * scale;
            let moved = from + length * problem.lack(row, &self.beyond);
            // Not below 0, because a row asks for at least its need: more than that is no fault.
            let to = if moved > 0.0 { moved } else { 0.0 };
            put(&mut y.target, row, to);
            let by = (to - from) / scale;
            far = far + by * by;
        }
        far
    }

    /// Adapts the weight after x went `far_x` and y `far_y`, squared, so that both seem to have equally far to go.
    /// Source: [A21]
    pub fn adapt(&mut self, far_x: f64, far_y: f64) {
        if far_x > SHORTEST && far_y > SHORTEST {
            // The geometric mean with the old weight, so that one odd restart does not throw it far off.
            self.weight = ((far_y / far_x).sqrt() * self.weight).sqrt();
        }
    }
}

/// The sum of the squares of the numbers, scaled.
fn squared_length(numbers: &[f64], scales: &[f64]) -> f64 {
    let mut sum = 0.0;
    for (number, scale) in numbers.iter().zip(scales) {
        let scaled = *number * *scale;
        sum = sum + scaled * scaled;
    }
    sum
}

/// The number, cut to the range from 0 to 1.
fn cut(number: f64) -> f64 {
    if number > 1.0 {
        1.0
    } else if number > 0.0 {
        number
    } else {
        0.0
    }
}

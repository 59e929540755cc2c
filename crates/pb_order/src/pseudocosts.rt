//! Pseudocosts: by how much decisions raised the bound of the multipliers. No answer depends on them, so nothing is promised.
//! Source: [B71], [A07]

use pb_inst::{Lit, Memory};
use std::alloc::Global;
use std::num::nearest_u64_to_f64;

/// By how much a decision raised the bound, in the unit in which the multipliers tell how far it is below the best cost. Gains
/// are compared only with one another, so any unit would do. The greatest one stands for all that are greater.
pub type Gain = u64;

/// The quotient of a mean gain and the mean of all gains, scaled up: 1,024 is as much as the mean.
type Quotient = u64;

/// The factor of a variable of which nothing is known: about that of one whose two values gain as much as others do. A factor
/// is the product of two quotients, so this is 1,024 times 1,024.
const UNKNOWN: f64 = 1_048_576.0;

/// By how much quotients of gains are scaled up, so that a thousandth of the mean gain still counts.
const SCALE: u128 = 1024;

/// What a value of which nothing is known gains, by the mean gain: a little more than others, so that it is tried. The 5 %
/// more were chosen by hand.
const PRIOR: u128 = 1075;

/// The greatest quotient, 1,024 times the mean gain, so that a few great gains don't lead the order for good. Chosen by hand.
const MAX_QUOTIENT: u128 = 1_048_576;

/// Where sums of gains are halved, 2^60: low enough that a sum with one more gain seldom saturates, since most gains are less.
const MANY: Gain = 1_152_921_504_606_846_976;

/// The sum of some gains, and how many there are.
#[derive(Clone, Copy)]
struct Pseudocost {
    sum: Gain,
    count: u64,
}

impl Pseudocost {
    /// No gain yet.
    fn none() -> Pseudocost {
        Pseudocost { sum: 0, count: 0 }
    }

    /// One gain more.
    fn add(&mut self, gain: Gain) {
        self.sum = self.sum.saturating_add(gain);
        self.count = self.count.saturating_add(1);
        if self.sum > MANY {
            self.sum /= 2;
            self.count /= 2;
        }
    }

    /// The mean gain, at least 1, so that it can be divided by.
    fn mean(&self) -> u128 {
        let mean = self.sum / self.count.max(1);
        mean.max(1) as u128
    }

    /// The mean of these gains by that of all gains, as if there were one more of a little over the mean: so a value that was
    /// seldom tried is not judged by its few gains alone.
    fn quotient(&self, mean: u128) -> Quotient {
        let sum = (self.sum as u128)
            .saturating_mul(SCALE)
            .saturating_add(mean.saturating_mul(PRIOR));
        let count = mean.saturating_mul(self.count as u128 + 1).max(1);
        (sum / count).max(1).min(MAX_QUOTIENT) as Quotient
    }
}

/// What decisions of one variable gained.
#[derive(Clone, Copy)]
struct VariableGains {
    /// By what the activity is multiplied. All factors are scaled up alike, so the order does not depend on the scale.
    factor: f64,
    positive: Pseudocost,
    negative: Pseudocost,
}

/// For each variable, by its index from 0 on, what decisions of it gained: by how much the bound rose, or the whole gap to the
/// best cost where they ended in a conflict.
#[derive(Drop)]
pub struct Pseudocosts {
    all: Pseudocost,
    variables: Vec<VariableGains>,
}

impl Pseudocosts {
    /// No gains yet, and room for those of `vars` variables.
    pub fn new(alloc: Global, vars: usize) -> Result<Pseudocosts, Memory> {
        let unknown = VariableGains {
            factor: UNKNOWN,
            positive: Pseudocost::none(),
            negative: Pseudocost::none(),
        };
        let variables = vec![in alloc; unknown; vars]?;
        Ok(Pseudocosts {
            all: Pseudocost::none(),
            variables,
        })
    }

    /// By what the variable's activity is multiplied: the product of what its two values gain by the mean gain, since a
    /// variable is worth deciding where both of its values gain.
    pub fn factor(&self, index: u32) -> f64 {
        match self.variables.get(index as usize) {
            Some(variable) => variable.factor,
            None => UNKNOWN,
        }
    }

    /// Notes the gain of a decision for the literal.
    pub fn learn(&mut self, lit: Lit, gain: Gain) {
        self.all.add(gain);
        let mean = self.all.mean();
        let Some(variable) = self.variables.get_mut(lit.var() as usize - 1) else {
            return;
        };
        if lit.positive() {
            variable.positive.add(gain);
        } else {
            variable.negative.add(gain);
        }
        let positive = variable.positive.quotient(mean);
        let factor = positive.saturating_mul(variable.negative.quotient(mean));
        variable.factor = nearest_u64_to_f64(factor);
    }
}

//! Which variables a dive is to decide first: those nearest to a whole value, as in fractional diving.
//! Source: [B06]

use pb_inst::{Lit, Memory};
use std::alloc::Global;
use std::num::saturating_f64_to_u64;

/// In how many parts the way from 0 to 1 is cut. Variables within one part count as equally near, since the point is only
/// approached and small differences are noise. Chosen by hand.
const PARTS: f64 = 64.0;

/// What is added to a distance, in parts, before it is rounded down, so that what is less than 0.6 parts from a whole value
/// counts as whole. Chosen by hand.
const SLACK: f64 = 0.4;

/// By how much reduced costs are scaled up before they are rounded down to whole numbers, so that parts of a cost still tell
/// variables apart. Chosen by hand.
const COST_SCALE: f64 = 1_024.0;

/// A variable without a value. Those with the least distance come first, of these those near 1, and then the least doubt.
#[derive(Clone, Copy)]
struct Planned {
    /// How far it is from a whole value, in parts.
    distance: u64,
    /// Whether that value is 0.
    is_low: bool,
    /// The greatest number of 64 bits less how far its scaled reduced cost is from 0, because keys are sorted upwards.
    doubt: u64,
    /// The variable, from 1.
    var: u32,
}

/// Variables in the order in which they are to be decided.
#[derive(Drop)]
pub struct Plan {
    variables: Vec<Planned>,
}

impl Plan {
    /// No variable, and room for `vars` of them.
    pub fn new(alloc: Global, vars: usize) -> Result<Plan, Memory> {
        Ok(Plan {
            variables: Vec::with_capacity(alloc, vars)?,
        })
    }

    /// Removes all variables.
    pub fn clear(&mut self) {
        self.variables.clear();
    }

    /// Adds a variable with its value, from 0 to 1, and its reduced cost.
    pub fn push(&mut self, var: u32, value: f64, cost: f64) {
        let is_low = value < 0.5;
        let distance = if is_low { value } else { 1.0 - value };
        if self.variables.len() < self.variables.capacity() {
            self.variables.push_reserved(Planned {
                distance: saturating_f64_to_u64(distance * PARTS + SLACK),
                is_low,
                doubt: u64::MAX - saturating_f64_to_u64(cost.abs() * COST_SCALE),
                var,
            });
        }
    }

    /// Puts the variables in order.
    pub fn sort(&mut self) {
        self.variables.sort_unstable_by_key(|planned| (
            planned.distance,
            planned.is_low,
            planned.doubt,
        ));
    }

    /// The literal at the place, from 0: the variable if its value is nearer to 1, else its negation. None behind the last.
    pub fn literal(&self, place: usize) -> Option<Lit> {
        let planned = self.variables.get(place)?;
        Lit::new(planned.var, !planned.is_low).ok()
    }
}

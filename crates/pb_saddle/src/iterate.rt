//! One half of the point where the method stands: x, by columns, or y, by rows.
//! Source: [LY24]

use crate::floats::copy;
use pb_inst::Memory;
use std::alloc::Global;

/// Three lists of the same length: where this half stands, the target of the step from there, and the anchor, where the
/// iteration began and to which it is drawn back.
#[derive(Drop)]
pub struct Iterate {
    pub current: Vec<f64>,
    pub target: Vec<f64>,
    pub anchor: Vec<f64>,
}

impl Iterate {
    /// Empty lists, with room for `room` numbers each.
    pub fn new(alloc: Global, room: usize) -> Result<Iterate, Memory> {
        Ok(Iterate {
            current: Vec::with_capacity(alloc, room)?,
            target: Vec::with_capacity(alloc, room)?,
            anchor: Vec::with_capacity(alloc, room)?,
        })
    }

    /// Begins the iteration at the current point.
    pub fn begin(&mut self) {
        copy(&mut self.target, &self.current);
        copy(&mut self.anchor, &self.current);
    }

    /// Moves to the target and as far again beyond it, and then back towards the anchor: `part` of the way from there is kept.
    pub fn reflect(&mut self, part: f64) {
        // The pull to the anchor makes the points themselves converge, so that no mean of them has to be kept.
        let rest = 1.0 - part;
        let towards = self.target.iter().zip(self.anchor.iter());
        for (current, (target, anchor)) in self.current.iter_mut().zip(towards) {
            *current = part * (2.0 * *target - *current) + rest * *anchor;
        }
    }

    /// Begins the iteration anew at the target. Gives how far that is from the old anchor, squared and in these scales.
    pub fn restart(&mut self, scales: &[f64]) -> f64 {
        let mut far = 0.0;
        let from = self.anchor.iter().zip(scales);
        for (target, (anchor, scale)) in self.target.iter().zip(from) {
            let by = (*target - *anchor) / *scale;
            far = far + by * by;
        }
        copy(&mut self.current, &self.target);
        copy(&mut self.anchor, &self.target);
        far
    }
}

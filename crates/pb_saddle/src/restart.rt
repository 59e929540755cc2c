//! When the iteration begins anew: once the steps have become much shorter, or shorter and then longer again, or after a good
//! part of all steps.
//! Source: [LY23], [LY24]

/// The part of the first step's length at which the iteration begins anew in any case, since most of the way to a solution
/// is done and an anchor so far back slows it down. Source: [LY23]
const SUFFICIENT: f64 = 0.2;

/// The part of the first step's length below which it begins anew as soon as steps become longer again: some way is done, and
/// no more is gained from this anchor. Source: [LY23]
const NECESSARY: f64 = 0.8;

/// After which part of all steps it begins anew in any case, so that a bad anchor or weight does not last. Source: [LY23]
const LONG: f64 = 0.36;

/// The fewest steps that are a good part of all, or else the first steps would each begin anew. Chosen by hand.
const FEWEST: f64 = 20.0;

/// What is known of the steps since the iteration began anew.
#[derive(Clone, Copy)]
pub struct Restarts {
    /// How many steps there were.
    count: f64,
    /// How long the first step was.
    first: f64,
    /// How long the last step was.
    last: f64,
}

impl Restarts {
    /// No step yet.
    pub fn new() -> Restarts {
        Restarts {
            count: 0.0,
            first: 0.0,
            last: 0.0,
        }
    }

    /// Whether the iteration begins anew after a step of this length, which is step `number` of the call, from 0.
    pub fn is_due(&mut self, length: f64, number: u32) -> bool {
        if self.count == 0.0 {
            self.first = length;
        }
        let is_short = length <= SUFFICIENT * self.first;
        let is_turning = length <= NECESSARY * self.first && length > self.last;
        let is_late = self.count >= LONG * (number as f64) + FEWEST;
        // Never after the first step, since the others are measured by it.
        let is_due = self.count > 0.0 && (is_short || is_turning || is_late);
        self.last = length;
        self.count = if is_due { 0.0 } else { self.count + 1.0 };
        is_due
    }

    /// Which part of the way from the anchor is kept after the last step, by Halpern's rule: the pull back fades as steps pass.
    pub fn kept_part(&self) -> f64 {
        self.count / (self.count + 1.0)
    }
}

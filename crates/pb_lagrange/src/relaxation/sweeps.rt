//! When all rows are stepped: at the first node, and once the search has gone on for some nodes. All of it is done beside the
//! root's trail and kept for good, since nothing is left to try in place of that trail: it serves all that is still to come.

ghost use Rattle.pb_saddle.specs.Shifting.{IsSameButShifted};

use super::steps::Steps;
use crate::effort::Effort;
use pb_count::Coefficient;
use pb_dual::Multipliers;
use pb_inst::{Lit, Memory, Number};
use pb_normal::Form;
use pb_saddle::Pdhg;
use std::alloc::Global;

/// How many sweeps there are over all rows at the first node, forwards and backwards in turn: one of each, so that no row
/// is always stepped before the others.
const FIRST_SWEEPS: u32 = 2;

/// After how many nodes better first multipliers are looked for, since a search that is over before does well without. Chosen by
/// hand.
const PATIENCE: u32 = 10;

/// How many sweeps there are by then. Four in place of twenty took 0.98 times as long, in the mean of 136 instances, and 1.02
/// times the decisions.
const SWEEPS: u32 = 4;

/// After how many nodes all rows are shifted at once, to make the first multipliers better still: no step of one row leaves a
/// point where only several rows together gain, and there steps end on schedules and assignments. Later than the sweeps, since
/// it is dearer.
const LONG_PATIENCE: u32 = 20;

/// How many steps of the first-order method there are then at most, so that it ends even where it gains slowly. Chosen by hand.
const STEPS: u32 = 500;

/// How many there are where that is done again: fewer serve, since they start from better multipliers. Chosen by hand.
const STEPS_AGAIN: u32 = 150;

/// What was done to all rows, and what the next sweeps wait for.
#[derive(Drop)]
pub struct Sweeps {
    pdhg: Pdhg,
    /// The number of terms of all rows.
    terms: u64,
    /// How many nodes of the search were counted.
    nodes: u32,
    /// How many sweeps were made.
    sweeps: u32,
    /// Whether all rows are to be shifted at once again.
    is_renewed: bool,
}

impl Sweeps {
    /// None yet over the rows of the form.
    pub fn new<C: Coefficient>(alloc: Global, form: &Form<C>) -> Result<Sweeps, Memory> {
        Ok(Sweeps {
            pdhg: Pdhg::new(alloc, form)?,
            terms: form.terms_len() as u64,
            nodes: 0,
            sweeps: 0,
            is_renewed: false,
        })
    }

    /// The number of terms of all rows.
    pub fn terms(&self) -> u64 {
        self.terms
    }

    /// A search begins, say of another piece. Where it goes on for long enough, all rows are shifted at once again, since other
    /// literals are assumed and another cost is to be reached: on two instances that took 0.62 and 0.95 times the decisions.
    pub fn begin_search(&mut self) {
        self.nodes = 0;
    }

    /// Counts a node of the search.
    pub fn count_node(&mut self) {
        self.nodes = self.nodes.saturating_add(1);
    }

    /// Whether all rows are to be stepped, so that first multipliers are found, or better ones once the search has gone on for
    /// some nodes. Only where the effort affords it.
    pub fn is_due(&self, effort: &Effort) -> bool {
        let left = self.end().saturating_sub(self.sweeps);
        left > 0 && effort.affords((left as u64).saturating_mul(self.terms))
    }

    /// How many sweeps are to have been made by now.
    fn end(&self) -> u32 {
        if self.nodes < PATIENCE {
            FIRST_SWEEPS
        } else {
            SWEEPS
        }
    }

    /// Makes the sweeps that are to have been made by now. The multipliers are kept for good.
    pub fn step_all<C: Coefficient>(
        &mut self,
        multipliers: &mut Multipliers<C>,
        steps: &mut Steps<C>,
        effort: &mut Effort,
    )
        ensures { IsSameButShifted multipliers.old multipliers.new }
    {
        let (start, end) = (self.sweeps, self.end());
        for number in start..end {
            sweep(multipliers, steps, number % 2 == 1);
            effort.count_multipliers(self.terms);
        }
        self.sweeps = end;
    }

    /// All rows are to be shifted at once again: the root's trail has grown, or the best cost has fallen.
    pub fn renew(&mut self) {
        self.is_renewed = true;
    }

    /// Whether all rows are to be shifted at once: when the search has gone on for long enough, and whenever that is asked for.
    pub fn is_shift_due(&self) -> bool {
        self.is_renewed || self.nodes == LONG_PATIENCE
    }

    /// Shifts all rows at once, to what the first-order method finds, and then steps each of them twice. The multipliers are kept
    /// for good. This is done seldom, and its work is not counted as effort, or else multipliers would be ruled out on the very
    /// instances that it serves.
    pub fn shift_all<C: Coefficient>(
        &mut self,
        multipliers: &mut Multipliers<C>,
        steps: &mut Steps<C>,
        limit: Number,
    )
        ensures { IsSameButShifted multipliers.old multipliers.new }
    {
        let count = if self.is_renewed { STEPS_AGAIN } else { STEPS };
        self.is_renewed = false;
        self.pdhg.improve(multipliers, count, limit);
        sweep(multipliers, steps, false);
        sweep(multipliers, steps, true);
    }

    /// Plans in which order the variables without a value may be decided, by `steps` steps of the first-order method.
    pub fn plan<C: Coefficient>(&mut self, multipliers: &Multipliers<C>, steps: u32) {
        self.pdhg.approach(multipliers, steps);
    }

    /// The literal at the place, from 0 on, of the order that was planned last.
    pub fn planned(&self, place: usize) -> Option<Lit> {
        self.pdhg.planned(place)
    }

    /// Looks for multipliers by which nothing completes the trail, where nothing costs anything, by `steps` steps at most.
    pub fn refute<C: Coefficient>(&mut self, multipliers: &mut Multipliers<C>, steps: u32)
        ensures { IsSameButShifted multipliers.old multipliers.new }
    {
        self.pdhg.refute(multipliers, steps);
    }
}

/// A sweep: steps each row once, and keeps the multipliers for good.
fn sweep<C: Coefficient>(multipliers: &mut Multipliers<C>, steps: &mut Steps<C>, backwards: bool)
    ensures { IsSameButShifted multipliers.old multipliers.new }
{
    let rows = multipliers.form().len();
    for place in 0..rows {
        let row = if backwards { rows - 1 - place } else { place };
        steps.step(multipliers, row);
        multipliers.keep();
    }
}

//! Conflict analysis, which finds what led to a conflict: the variables of the row that could not be met, and those of the
//! rows that forced their values, each found before the trail is walked past it. What it finds is bumped, and no clause is
//! learned. No answer depends on it, so nothing is promised.
//! Source: [MS99]

use pb_count::Coefficient;
use pb_inst::{Lit, Memory};
use pb_rows::RowTerms;
use pb_trail::Propagator;
use std::alloc::Global;

/// How many stamps a conflict takes: one for the variables known to have led to it, and one for those walked past.
const STAMPS_OF_A_CONFLICT: u32 = 2;

/// The variables that are known to have led to a conflict, while the trail is walked back from its end. What is known of a
/// variable stands in a stamp, so that each conflict begins with none known, whatever the one before left.
#[derive(Drop)]
pub struct ConflictAnalysis {
    /// Of each variable, by its index from 0 on, what it was stamped with last.
    stamps: Vec<u32>,
    /// The stamp of those that led to this conflict and were not met yet, an even number. The next number is the stamp of those
    /// that were walked past, and lesser ones are of conflicts before.
    known: u32,
    /// How many are known that were not met yet.
    waiting: usize,
}

impl ConflictAnalysis {
    /// None of the `vars` variables is known to have led to a conflict.
    pub fn new(alloc: Global, vars: u32) -> Result<ConflictAnalysis, Memory> {
        let stamps = vec![in alloc; 0; vars as usize]?;
        Ok(ConflictAnalysis {
            stamps,
            known: 0,
            waiting: 0,
        })
    }

    /// The walk back from another conflict begins: nothing is known of it.
    pub fn begin(&mut self) {
        self.waiting = 0;
        match self.known.checked_add(STAMPS_OF_A_CONFLICT) {
            Some(known) => self.known = known,
            None => self.begin_again(),
        }
    }

    /// All stamps are used up: those of the variables are cleared, since numbers are given anew from the first on.
    fn begin_again(&mut self) {
        for stamp in self.stamps.iter_mut() {
            *stamp = 0;
        }
        self.known = STAMPS_OF_A_CONFLICT;
    }

    /// Whether some are known that were not met yet.
    pub fn are_waiting(&self) -> bool {
        self.waiting > 0
    }

    /// The variables of the row whose literals are false led to the conflict.
    pub fn add_row<C: Coefficient>(&mut self, propagator: &Propagator<C>, row: RowTerms<'_, C>) {
        match row {
            RowTerms::Weighted(terms) => {
                for term in terms {
                    self.add(propagator, term.lit());
                }
            }
            RowTerms::Units(lits) => {
                for lit in lits {
                    self.add(propagator, *lit);
                }
            }
        }
    }

    /// The walk comes to the variable. Answers whether it is known to have led to the conflict.
    pub fn meet(&mut self, var: u32) -> bool {
        let Some(stamp) = self.stamps.get_mut((var as usize).wrapping_sub(1)) else {
            return false;
        };
        let is_known = *stamp == self.known;
        // Each variable that is walked past is stamped, so that no row added later can ask the walk to meet it again.
        *stamp = self.known.saturating_add(1);
        if is_known {
            self.waiting = self.waiting.saturating_sub(1);
        }
        is_known
    }

    /// The literal's variable led to the conflict, if the literal is false and was not walked past. A row with coefficients may
    /// have literals that became false after it forced one; these are left out, since they had no part in it.
    fn add<C: Coefficient>(&mut self, propagator: &Propagator<C>, lit: Lit) {
        if propagator.value(lit.var()) == Some(!lit.positive())
            && let Some(stamp) = self.stamps.get_mut(lit.var() as usize - 1)
            && *stamp < self.known
        {
            *stamp = self.known;
            self.waiting = self.waiting.saturating_add(1);
        }
    }
}

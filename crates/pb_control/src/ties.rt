//! What the search keeps of its ties: where nothing costs less than the best assignment, and the order of assignments alone
//! is left to be settled. It says how far the search steps back, and no answer depends on it.
//!
//! Without a step back the search would settle the same tie anew under each decision of the path, even under those that have
//! nothing to do with it. And as long as nothing objects, it decides variables in order, 0 first, since that improves most.

use crate::branch::Branch;
use crate::pruning::Pruning;
use pb_inst::{Lit, Number};

/// Where the search stands since it found an assignment.
#[derive(Clone, Copy)]
pub struct Ties {
    /// Whether the last node was a full trail that improved on the best assignment.
    pub has_improved: bool,
    /// Whether nothing objected since the last improvement: no conflict, no bound, no full trail that is none.
    pub is_calm: bool,
    /// How many decisions came before the first one that was made in order behind the first difference to the best assignment.
    tail: usize,
    /// The greatest bound that was taken at the root, if any was.
    pub root_bound: Option<Number>,
}

impl Ties {
    /// Nothing was found.
    pub fn new() -> Ties {
        Ties {
            has_improved: false,
            is_calm: false,
            tail: usize::MAX,
            root_bound: None,
        }
    }

    /// The literal is decided, after `decisions` other decisions, where the bound says `pruning`.
    pub fn note(&mut self, pruning: Pruning, lit: Lit, decisions: usize) {
        if self.is_calm
            && let Pruning::Tied(var) = pruning
            && lit.var() > var
        {
            self.tail = self.tail.min(decisions);
        }
    }

    /// Nothing is left below the path. Answers how many of its decisions stand when the search goes on, where there
    /// is a reason to take any back: an improvement at this cost, after which the last decisions are in the way if ties
    /// alone are left below them, or the first objection since an improvement.
    pub fn leave(&mut self, path: &[Branch], prefix: usize, cost: Option<Number>) -> Option<usize> {
        let (was_calm, tail) = (self.is_calm, self.tail);
        self.is_calm = self.has_improved;
        self.tail = usize::MAX;
        if !self.has_improved {
            return if was_calm { Some(tail) } else { None };
        }
        self.has_improved = false;
        let cost = cost?;
        // Subtrees were closed because nothing in them costs less, and the root's bound says that of everything. So nothing is
        // lost with their decisions, and each such step has an improvement of its own before it.
        if self.root_bound >= Some(cost) {
            return Some(prefix);
        }
        Some(untied(path, cost))
    }
}

/// How many decisions come before the last ones that are not flipped and leave ties alone below them.
fn untied(path: &[Branch], cost: Number) -> usize {
    for place in (0..path.len()).rev() {
        let branch = path[place];
        if branch.flipped || branch.bound < Some(cost) {
            return place + 1;
        }
    }
    0
}

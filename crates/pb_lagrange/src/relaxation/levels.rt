//! What is taken back with an assumption, namely the changes of multipliers that were made since; and how many assumptions, from
//! the first on, are not to be taken back. Multipliers that are best below one decision are a poor start below another, and
//! drift if they are kept.

use pb_inst::Memory;
use std::alloc::Global;

/// How many changes of multipliers can be taken back at least, for each row: few, so that the room of a large instance stays in
/// proportion to it.
const CHANGES_OF_A_ROW: usize = 8;

/// How many can be taken back for each row where there are few: a deep search changes each of them at many of its levels, and
/// where no more can be taken back no multiplier is improved.
const CHANGES_OF_FEW_ROWS: usize = 512;

/// The most changes that few rows have room for, 512 times 512: beyond 512 rows each has less, so that this room takes no
/// more than 4 megabytes in a form of 64 bits.
const MOST_CHANGES_OF_FEW_ROWS: usize = 262_144;

/// How much there was before an assumption.
#[derive(Clone, Copy)]
pub struct Mark {
    /// How many changes could be taken back.
    pub changes: usize,
    /// How many literals were on the trail.
    pub length: usize,
}

/// What there was before each assumption, and how many of them are the root's: nothing is left to try in their place.
#[derive(Drop)]
pub struct Levels {
    marks: Vec<Mark>,
    root: usize,
}

impl Levels {
    /// No assumption, and room for `room` of them.
    pub fn new(alloc: Global, room: usize) -> Result<Levels, Memory> {
        Ok(Levels {
            marks: Vec::with_capacity(alloc, room)?,
            root: 0,
        })
    }

    /// How many assumptions there are.
    pub fn len(&self) -> usize {
        self.marks.len()
    }

    /// An assumption is made after `changes` changes, on a trail of `length` literals.
    pub fn push(&mut self, changes: usize, length: usize) {
        if self.marks.len() < self.marks.capacity() {
            self.marks.push_reserved(Mark { changes, length });
        }
    }

    /// Nothing is left to try in place of the last assumption.
    pub fn settle_last(&mut self) {
        // Below an assumption that may still be turned nothing is settled for good, so the root's part has no gap.
        let before = self.marks.len().saturating_sub(1);
        if self.root == before {
            self.root = self.marks.len();
        }
    }

    /// Whether all assumptions are the root's.
    pub fn are_root(&self) -> bool {
        self.root >= self.marks.len()
    }

    /// What there was where the root's part ends, if anything is assumed below it.
    pub fn root_end(&self) -> Option<Mark> {
        self.marks.get(self.root).copied()
    }

    /// `level` assumptions are left. Gives how many changes there were before the first of those that are gone, if there are any.
    pub fn cut(&mut self, level: usize) -> Option<usize> {
        let mark = self.marks.get(level).copied();
        self.marks.truncate(level);
        self.root = self.root.min(level);
        Some(mark?.changes)
    }
}

/// How many changes can be taken back where there are `rows` rows.
pub fn changes_for(rows: usize) -> usize {
    let few = rows
        .saturating_mul(CHANGES_OF_FEW_ROWS)
        .min(MOST_CHANGES_OF_FEW_ROWS);
    rows.saturating_mul(CHANGES_OF_A_ROW).max(few)
}

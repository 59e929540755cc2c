//! A set of rows that are visited in order.

ghost use Rattle.std.specs.Prelude.{◌≡◌, ◌^◌, ◌<◌, ◌≤◌, None, true, false, length, replicate, slice_index_or, slice_set, IfOk};
ghost use Rattle.std.specs.Option.{ForSome};
ghost use Rattle.pb_bits.specs.RowSet.{HasNoneBetween};

use crate::bits::Bits;
use crate::flags::Flags;
use crate::summary::Summary;
use pb_inst::Memory;
use std::alloc::Global;
use std::marker::Model;

/// A set of rows: a flag for each row, and above these three levels of flags for groups of 64, so that one word of the top
/// level covers 16 million rows. Contracts see for each row whether it is a member.
#[derive(Drop)]
pub struct RowSet {
    members: Summary<Summary<Summary<Bits>>>,
}

impl Model for RowSet {
    ghost use Rattle.std.specs.Prelude.{List, Bool};

    ghost Value = { List Bool };

    ghost view = { λ s. s.members };
}

impl RowSet {
    /// The empty set, with room for `rows` rows.
    pub fn new(alloc: Global, rows: usize) -> Result<RowSet, Memory>
        requires { rows < 2 ^ 63 }
        ensures { IfOk result (λ set. set ≡ replicate rows false) }
    {
        let members = Summary::new(alloc, rows)?;
        Ok(RowSet { members })
    }

    /// Adds the row to the set or takes it out.
    pub fn put(&mut self, row: usize, member: bool)
        requires { row < length self.old }
        ensures { self.new ≡ slice_set self.old row member }
    {
        if member {
            self.members.set(row);
        } else {
            self.members.clear(row);
        }
    }

    /// The first member at or after a row, or none.
    pub fn next(&self, from: usize) -> Option<usize>
        ensures some { ForSome result (λ row. (from ≤ row) × (row < length self.now) × (slice_index_or self.now row false ≡ true) × HasNoneBetween self.now from row) }
        ensures none { result ≡ None → HasNoneBetween self.now from (length self.now) }
    {
        self.members.next(from)
    }
}

//! Flags, with one more flag for each group of 64.

use crate::bits::Bits;
use crate::flags::Flags;
use pb_inst::Memory;
use std::alloc::Global;
use std::marker::Model;

/// Flags, and for each group of 64 a flag that says whether one of them is set. Where the groups' flags are a summary in
/// turn, each level has a 64th of the flags of the one below, and a call reads at most two words of each level.
/// Contracts see the lowest flags.
#[derive(Drop)]
pub struct Summary<G: Flags> {
    members: Bits,
    groups: G,
}

impl<G: Flags> Model for Summary<G> {
    ghost use Rattle.std.specs.Prelude.{List, Bool};
    ghost use Rattle.pb_bits.specs.RowSet.{AreGroups};

    ghost Value = { List Bool };

    ghost view = { λ s. s.members };

    ghost invariant = { λ s. AreGroups s.members (G.flags s.groups) };
}

impl<G: Flags> Flags for Summary<G> {
    ghost flags = { λ s. s };

    fn new(alloc: Global, count: usize) -> Result<Summary<G>, Memory> {
        let members = Bits::new(alloc, count)?;
        let groups = G::new(alloc, count / 64 + 1)?;
        Ok(Summary { members, groups })
    }

    fn len(&self) -> usize {
        self.members.len()
    }

    fn set(&mut self, index: usize) {
        // the flag of the group is set already where another flag of the word is
        let is_first = self.members.has_none_in_word(index);
        self.members.set(index);
        if is_first {
            self.groups.set(index / 64);
        }
    }

    fn clear(&mut self, index: usize) {
        if !self.members.get(index) {
            return;
        }
        self.members.clear(index);
        if self.members.has_none_in_word(index) {
            self.groups.clear(index / 64);
        }
    }

    fn next(&self, from: usize) -> Option<usize> {
        if from >= self.members.len() {
            return None;
        }
        if let Some(index) = self.members.next_in_word(from) {
            return Some(index);
        }
        let group = self.groups.next(from / 64 + 1)?;
        self.members.next_in_word(64 * group)
    }
}

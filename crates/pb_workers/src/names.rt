//! The pieces of a task that its parts name, as done or as cut.
ghost use Rattle.std.specs.List.Sorted.{IsPermutation};
ghost use Rattle.std.specs.Prelude.{◌≡◌, [], IfOk, OnOk, flat_map};
ghost use Rattle.pb_workers.specs.Dealing.{AreNamesOf};

use crate::part::Part;
use crate::task::Task;
use pb_inst::Memory;
use std::alloc::Global;

/// The numbers of a task's pieces that are done, and of those whose search was cut. Without a task there are none: whoever
/// searches all pieces asks for no list of them.
#[derive(Drop)]
pub(crate) struct Names {
    pub(crate) done: Vec<u32>,
    pub(crate) cut: Vec<u32>,
}

impl Names {
    /// No numbers yet. Where there is a task there is room for `pieces` of either kind, so that no finished work is lost for
    /// want of memory.
    pub(crate) fn with_room(
        alloc: Global,
        task: &Option<Task>,
        pieces: u32,
    ) -> Result<Names, Memory>
        ensures { IfOk result (λ names. (names.done.items ≡ []) × (names.cut.items ≡ [])) }
    {
        let mut names = Names {
            done: Vec::new(alloc),
            cut: Vec::new(alloc),
        };
        if task.is_some() {
            names.done.reserve(pieces as usize)?;
            names.cut.reserve(pieces as usize)?;
        }
        Ok(names)
    }

    /// Takes over the numbers that the parts name, and sorts them, where there is a task.
    pub(crate) fn take(&mut self, task: &Option<Task>, parts: &[Part<'_>]) -> Result<(), Memory>
        requires none { (self.old.done.items ≡ []) × (self.old.cut.items ≡ []) }
        ensures { OnOk result (AreNamesOf task.now parts.now self.new.done.items self.new.cut.items) }
    {
        if task.is_some() {
            self.take_all(parts)?;
            self.done.sort_unstable();
            self.cut.sort_unstable();
        }
        Ok(())
    }

    /// Takes over the numbers that the parts name, one part after the other.
    fn take_all(&mut self, parts: &[Part<'_>]) -> Result<(), Memory>
        requires none { (self.old.done.items ≡ []) × (self.old.cut.items ≡ []) }
        ensures done { OnOk result (self.new.done.items ≡ flat_map (λ part. part.named) parts.now) }
        ensures cut { OnOk result (self.new.cut.items ≡ flat_map (λ part. part.cut) parts.now) }
    {
        for part in parts {
            self.done.extend_from_slice(part.pieces())?;
            self.cut.extend_from_slice(part.cut())?;
        }
        Ok(())
    }
}

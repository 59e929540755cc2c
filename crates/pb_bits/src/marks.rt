//! Marks on variables that are all removed in one step.

ghost use Rattle.std.specs.Prelude.{◌≡◌, ◌-◌, ◌≤◌, true, false, length, replicate, slice_index_or, slice_set, IfOk};

use pb_inst::Memory;
use std::alloc::Global;
use std::marker::Model;

/// Whether each variable is marked. A variable is marked where it has the present stamp, so a new stamp removes all marks.
/// Contracts see a list of truth values, that of variable 1 first.
#[derive(Drop)]
pub struct Marks {
    stamps: Vec<u32>,
    stamp: u32,
}

impl Model for Marks {
    ghost use Rattle.std.specs.Prelude.{List, Bool};
    ghost use Rattle.pb_bits.specs.Marks.{marks_of, AreStamps};

    ghost Value = { List Bool };

    ghost view = { λ m. marks_of m.stamp m.stamps.items };

    ghost invariant = { λ m. AreStamps m.stamp m.stamps.items };
}

impl Marks {
    /// No marks, on variables 1 to `vars`.
    pub fn new(alloc: Global, vars: u32) -> Result<Marks, Memory>
        ensures { IfOk result (λ marks. marks ≡ replicate vars false) }
    {
        let stamps = vec![in alloc; 0; vars as usize]?;
        Ok(Marks { stamps, stamp: 1 })
    }

    pub fn is_marked(&self, var: u32) -> bool
        requires { (1 ≤ var) × (var ≤ length self.now) }
        ensures { result ≡ slice_index_or self.now (var - 1) false }
    {
        self.stamps[var as usize - 1] == self.stamp
    }

    pub fn mark(&mut self, var: u32)
        requires { (1 ≤ var) × (var ≤ length self.old) }
        ensures { self.new ≡ slice_set self.old (var - 1) true }
    {
        self.stamps[var as usize - 1] = self.stamp;
    }

    /// Removes all marks.
    pub fn clear(&mut self)
        ensures { self.new ≡ replicate (length self.old) false }
    {
        if self.stamp < u32::MAX {
            self.stamp += 1;
            return;
        }
        self.stamps.fill(0);
        self.stamp = 1;
    }
}

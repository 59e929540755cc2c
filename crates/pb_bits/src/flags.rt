//! What every list of flags offers.

ghost use Rattle.std.specs.Prelude.{◌≡◌, ◌^◌, ◌<◌, ◌≤◌, None, true, false, length, replicate, slice_index_or, slice_set, IfOk};
ghost use Rattle.std.specs.Option.{ForSome};
ghost use Rattle.pb_bits.specs.RowSet.{HasNoneBetween};

use pb_inst::Memory;
use std::alloc::Global;

/// A list of flags of a fixed length. Contracts see a list of truth values.
pub trait Flags: Drop {
    ghost use Rattle.std.specs.Prelude.{List, Bool};

    /// The flags, in order.
    ghost flags: { Self → List Bool };

    /// `count` flags, none of them set.
    fn new(alloc: Global, count: usize) -> Result<Self, Memory>
        requires { count < 2 ^ 63 }
        ensures { IfOk result (λ made. flags made ≡ replicate count false) };

    fn len(&self) -> usize
        ensures value { result ≡ length (flags self.now) }
        ensures small { result < 2 ^ 63 };

    fn set(&mut self, index: usize)
        requires { index < length (flags self.old) }
        ensures { flags self.new ≡ slice_set (flags self.old) index true };

    fn clear(&mut self, index: usize)
        requires { index < length (flags self.old) }
        ensures { flags self.new ≡ slice_set (flags self.old) index false };

    /// The first flag that is set at or after a place, or none.
    fn next(&self, from: usize) -> Option<usize>
        ensures some { ForSome result (λ index. (from ≤ index) × (index < length (flags self.now)) × (slice_index_or (flags self.now) index false ≡ true) × HasNoneBetween (flags self.now) from index) }
        ensures none { result ≡ None → HasNoneBetween (flags self.now) from (length (flags self.now)) };
}

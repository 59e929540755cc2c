//! Why cubes were refused.

ghost use Rattle.std.specs.Prelude.{◌≡◌};
ghost use Rattle.pb_cubes.specs.declared.faults.CubeFault.TheVariants.{Memory};

use std::alloc::AllocError;
use thiserror::Error;

/// Why a split or a list of cubes was refused.
#[derive(Clone, Copy, Debug, PartialEq, Eq, Error)]
pub enum CubeFault {
    /// A split over more than `MAX_SPLIT` variables, or over more than the instance has.
    #[error("the split is over its limit or over the number of variables")]
    BadSplit,
    /// More than `MAX_CUBES` cubes.
    #[error("there are too many cubes")]
    TooMany,
    /// A literal of a variable over the number of variables.
    #[error("a variable is out of range")]
    BadVariable,
    /// Memory was refused.
    #[error("out of memory")]
    Memory,
}

impl From<AllocError> for CubeFault {
    ghost from_gives = { λ _ fault. fault ≡ Memory };

    fn from(_: AllocError) -> CubeFault {
        CubeFault::Memory
    }
}

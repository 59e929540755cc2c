//! What can go wrong while an instance is built.

ghost use Rattle.std.specs.Prelude.{◌≡◌};
ghost use Rattle.pb_inst.specs.declared.faults.InstFault.TheVariants.{Memory};

use std::alloc::AllocError;
use thiserror::Error;

/// Memory was refused.
pub type Memory = AllocError;

/// Why an instance, or a part of one, was refused.
#[derive(Clone, Copy, Debug, PartialEq, Eq, Error)]
pub enum InstFault {
    /// A variable is not from 1 to `MAX_VARS`, or is over the number of the instance's variables.
    #[error("a variable is out of range")]
    BadVariable,
    /// The absolute coefficients, in a constraint together with the absolute bound, add up to more than `SUM_BOUND`.
    #[error("a sum of coefficients is too large")]
    TooLarge,
    /// There would be more than `MAX_VARS` variables, `MAX_CONSTRAINTS` constraints or `MAX_TERMS` terms.
    #[error("there are too many variables, constraints or terms")]
    TooMany,
    /// The memory that the call needs was refused.
    #[error("out of memory")]
    Memory,
}

impl From<AllocError> for InstFault {
    ghost from_gives = { λ _ fault. fault ≡ Memory };

    fn from(_: AllocError) -> InstFault {
        InstFault::Memory
    }
}

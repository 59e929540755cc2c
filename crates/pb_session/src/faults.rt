//! What a session refuses.

ghost use Rattle.std.specs.Prelude.{◌≡◌};
ghost use Rattle.pb_session.specs.declared.faults.SessionFault.TheVariants.{Statement};
ghost use Rattle.pb_inst.specs.declared.faults.InstFault.TheVariants.{Memory};

use pb_inst::InstFault;
use std::alloc::AllocError;
use thiserror::Error;

/// Why a call of a session did nothing.
#[derive(Clone, Copy, Debug, PartialEq, Eq, Error)]
pub enum SessionFault {
    /// The statement was refused, or memory was.
    #[error("{0}")]
    Statement(InstFault),
    /// Terms were given, and the sum was not ended.
    #[error("a sum is not ended")]
    Unended,
    /// A suggestion has another number of variables than the statements name.
    #[error("the suggestion does not have a value for each variable")]
    Length,
}

impl From<InstFault> for SessionFault {
    ghost from_gives = { λ refused fault. fault ≡ Statement refused };

    fn from(refused: InstFault) -> SessionFault {
        SessionFault::Statement(refused)
    }
}

impl From<AllocError> for SessionFault {
    ghost from_gives = { λ _ fault. fault ≡ Statement Memory };

    fn from(_: AllocError) -> SessionFault {
        SessionFault::Statement(InstFault::Memory)
    }
}

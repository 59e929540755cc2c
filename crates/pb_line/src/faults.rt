//! How a program ends where its words ask for no run.
ghost use Rattle.std.specs.Prelude.{◌≡◌, IfErr, IfOk, IfSome, IsNone};
ghost use Rattle.clap.specs.Words.{kind_of};
ghost use Rattle.clap.specs.declared.error.kind.ErrorKind.TheVariants.{OutOfMemory};
ghost use Rattle.pb_line.specs.Ends.{EndsTold, IsShown, IsTold, IsUntold};

use crate::failures::tell_failure;
use clap::Error;
use clap::error::ErrorKind;
use std::io::{self, Write};

/// Why a fault was not told.
#[derive(Drop)]
pub enum Untold {
    /// Memory ran out while the words were read. Nothing was written.
    Memory,
    /// The output does not take help or the version, for this reason.
    Unwritten(io::Error),
}

/// Writes what help, the version or a mistake says, and answers the exit status: 0 after help and the version, which go to the
/// output, and 2 after a mistake, which goes to the standard error. Faults of the standard error are ignored.
pub fn tell_fault<W: Write, E: Write>(fault: &Error, out: &mut W, err: &mut E) -> Result<u8, Untold>
    ensures told { IfOk result (IsTold (kind_of fault.now)) }
    ensures untold { IfErr result (IsUntold (kind_of fault.now)) }
    ensures kept { (IsShown (kind_of fault.now) → ⊥) → out.new ≡ out.old }
{
    if fault.kind() == ErrorKind::OutOfMemory {
        return Err(Untold::Memory);
    }
    if fault.use_stderr() {
        let _ = write!(err, "{fault}");
        return Ok(2);
    }
    match write!(out, "{fault}") {
        Ok(()) => Ok(0),
        Err(reason) => Err(Untold::Unwritten(reason)),
    }
}

/// Does what `tell_fault` does. Where the output does not take help or the version, it tells so with the system's reason and
/// answers 1. Where memory ran out there is no status, and nothing was written.
pub fn end_at_line<W: Write, E: Write>(
    program: &str,
    fault: &Error,
    out: &mut W,
    err: &mut E,
) -> Option<u8>
    ensures told { IfSome result (EndsTold (kind_of fault.now)) }
    ensures no_memory { IsNone result → kind_of fault.now ≡ OutOfMemory }
    ensures kept { (IsShown (kind_of fault.now) → ⊥) → out.new ≡ out.old }
    ensures unwritten { IsNone result → out.new ≡ out.old }
{
    match tell_fault(fault, out, err) {
        Ok(status) => Some(status),
        Err(Untold::Memory) => None,
        Err(Untold::Unwritten(reason)) => {
            tell_failure(program, "cannot write", Some(reason), err);
            Some(1)
        }
    }
}

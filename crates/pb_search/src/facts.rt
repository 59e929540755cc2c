//! What always holds of a type below this crate, where a call is needed to tell it.
ghost use Rattle.pb_inst.specs.Limits.{IsProper};

use pb_inst::Instance;

/// Tells proofs that an instance keeps to the limits of what may be told. It does nothing at run time.
pub(crate) fn facts_of(instance: &Instance)
    ensures { IsProper instance.now }
{
    let _ = instance.vars();
}

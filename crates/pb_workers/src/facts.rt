//! Facts that always hold of types in crates below, which a proof learns only by a call.
ghost use Rattle.pb_inst.specs.Incumbent.{IsSound};

use pb_inst::Best;

/// Tells the proof that what is held is a solution, where anything is. It does nothing at run time.
pub(crate) fn facts_of(best: &Best<'_>)
    ensures { IsSound best.now }
{
    let _ = best.cost();
}

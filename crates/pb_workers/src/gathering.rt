//! Gathering what all workers found into one answer.
ghost use Rattle.std.specs.Prelude.{◌≡◌, ◌≢◌, ◌↔◌, ◌∷◌, ◌++◌, [], List, Option, IsTrue, map, All, Any};
ghost use Rattle.std.specs.Option.{IfSome};
ghost use Rattle.pb_inst.specs.Incumbent.{Solution, IsSolution};
ghost use Rattle.pb_cubes.specs.Pieces.{CubeList};
ghost use Rattle.pb_workers.specs.Parts.{AreDone, AreSolutions, AreWhole, IsFirst, IsSettled};
ghost use Rattle.pb_cubes.specs.Solving.{HoldsLeast};

use crate::facts::facts_of;
use crate::part::Part;
use pb_inst::Best;

/// Afterwards `into` holds the first, by cost and then by the variables, of what it held and what the parts found. Where the
/// parts are of one list and name all its pieces as done, that is the least assignment, or nothing where nothing is feasible.
/// Answers whether some part names a piece that was cut. Asks that all are of one instance. Takes no memory.
pub fn gather(into: &mut Best<'_>, parts: &[Part<'_>]) -> bool
    requires one_instance { All (λ part. part.best.problem ≡ into.old.problem) parts.now }
    ensures same_instance { into.new.problem ≡ into.old.problem }
    ensures first { IsFirst (into.old.held ∷ map (λ part. part.best.held) parts.now) into.new.held }
    ensures cut { IsTrue result ↔ Any (λ part. part.cut ≢ []) parts.now }
    ensures done { All AreDone parts.now }
    ensures least { (list : CubeList) → AreWhole list parts.now → HoldsLeast into.old.problem into.new.held }
{
    facts_of(into);
    let mut cut = false;
    for part in parts {
        take_from(into, part.best());
        cut |= !part.cut().is_empty();
    }
    cut
}

/// Whether one of the parts went through the whole.
pub(crate) fn is_one_settled(parts: &[Part<'_>]) -> bool
    ensures { IsTrue result → Any (λ part. IsSettled part.pieces part.best) parts.now }
{
    for part in parts {
        if part.is_settled() {
            return true;
        }
    }
    false
}

/// Takes what the other holds, where that comes before what is held.
fn take_from(into: &mut Best<'_>, other: &Best<'_>)
    requires { other.now.problem ≡ into.old.problem }
    ensures same_instance { into.new.problem ≡ into.old.problem }
    ensures sound { IfSome into.new.held (IsSolution into.old.problem) }
    ensures other_sound { IfSome other.now.held (IsSolution into.old.problem) }
    ensures adds { (found : List (Option Solution)) → AreSolutions into.old.problem found → IsFirst found into.old.held
        → IsFirst (found ++ other.now.held ∷ []) into.new.held }
{
    facts_of(into);
    if let Some(assignment) = other.assignment() {
        let _ = into.take(assignment);
    }
}

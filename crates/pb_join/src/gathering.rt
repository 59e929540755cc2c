//! What reports tell together.
ghost use Rattle.std.specs.Prelude.{◌≡◌, ◌≢◌, ◌↔◌, ◌∷◌, ◌++◌, [], ℕ, List, Option, Some, IsTrue, IfOk, IfErr, OnOk, IsSomeAnd, All, if◌then◌else◌};
ghost use Rattle.std.specs.Option.{IfSome};
ghost use Rattle.pb_inst.specs.Incumbent.{Solution, IsSolution, solution_of};
ghost use Rattle.pb_cubes.specs.First.{AreSolutions, IsFirst};
ghost use Rattle.pb_report.specs.Claims.{is_final, witness_of};
ghost use Rattle.pb_join.specs.Pieces.{found_in};
ghost use Rattle.pb_join.specs.Joining.{AreGathered, IsJoinFault, IsRejected, IsUnfit, IsWitness};
ghost use Rattle.pb_join.specs.declared.reports.PieceReport.{PieceReport};

use crate::faults::{JoinFault, Rejection};
use crate::reports::PieceReport;
use crate::states::PieceState;
use pb_inst::{Best, Instance};
use pb_report::{Claim, Witness};
use std::alloc::{AllocError, Global};

/// The best that reports have, and what became of each piece.
#[derive(Drop)]
pub(crate) struct Gathered<'i> {
    pub(crate) best: Best<'i>,
    pub(crate) states: Vec<PieceState>,
}

/// What all reports tell together of an instance that is divided into `pieces` pieces.
pub(crate) fn gather<'i>(
    alloc: Global,
    instance: &'i Instance,
    pieces: u32,
    reports: &[PieceReport],
) -> Result<Gathered<'i>, JoinFault>
    ensures same_instance { IfOk result (λ g. g.best.problem ≡ instance.now) }
    ensures gathered { IfOk result (λ g. AreGathered instance.now pieces reports.now g.best.held g.states.items) }
    ensures refused { IfErr result (λ fault. IsJoinFault instance.now pieces reports.now fault) }
    ensures unwritten { IfErr result (λ fault. fault ≢ JoinFault.Write) }
{
    let mut gathered = nothing(alloc, instance, pieces)?;
    for (place, report) in reports.iter().enumerate() {
        if let Err(why) = take(&mut gathered, instance, report) {
            return Err(JoinFault::Report { place, why });
        }
    }
    Ok(gathered)
}

/// No report yet: nothing is held, and every piece is missing.
fn nothing<'i>(
    alloc: Global,
    instance: &'i Instance,
    pieces: u32,
) -> Result<Gathered<'i>, AllocError>
    ensures same_instance { IfOk result (λ g. g.best.problem ≡ instance.now) }
    ensures gathered { IfOk result (λ g. AreGathered instance.now pieces [] g.best.held g.states.items) }
{
    let best = Best::none(alloc, instance)?;
    let states = vec![in alloc; PieceState::Missing; pieces as usize]?;
    Ok(Gathered { best, states })
}

/// Takes in one more report, unless it is rejected.
fn take(
    gathered: &mut Gathered<'_>,
    instance: &Instance,
    report: &PieceReport,
) -> Result<(), Rejection>
    requires { gathered.old.best.problem ≡ instance.now }
    ensures same_instance { gathered.new.best.problem ≡ instance.now }
    ensures taken { (earlier : List PieceReport) (pieces : ℕ) → AreGathered instance.now pieces earlier gathered.old.best.held gathered.old.states.items
        → OnOk result (AreGathered instance.now pieces (earlier ++ report.now ∷ []) gathered.new.best.held gathered.new.states.items) }
    ensures rejected { (earlier : List PieceReport) (pieces : ℕ) → AreGathered instance.now pieces earlier gathered.old.best.held gathered.old.states.items
        → IfErr result (λ why. IsRejected instance.now pieces earlier report.now why) }
{
    let number = report.number as usize;
    match gathered.states.get(number) {
        Some(PieceState::Missing) => {}
        Some(_) => return Err(Rejection::Doubled),
        None => return Err(Rejection::NoSuchPiece),
    }
    take_claim(&mut gathered.best, instance, &report.claim)?;
    gathered.states[number] = state_of(&report.claim, instance.has_objective());
    Ok(())
}

/// What becomes of a piece with this claim.
fn state_of(claim: &Claim, has_objective: bool) -> PieceState
    ensures { result ≡ (if is_final has_objective claim.now then PieceState.Done else PieceState.Cut) }
{
    if claim.is_final(has_objective) {
        PieceState::Done
    } else {
        PieceState::Cut
    }
}

/// Keeps the first, in the order of assignments, of what is held and what is claimed, unless the instance does not accept the
/// claim.
pub(crate) fn take_claim(
    best: &mut Best<'_>,
    instance: &Instance,
    claim: &Claim,
) -> Result<(), Rejection>
    requires { best.old.problem ≡ instance.now }
    ensures same_instance { best.new.problem ≡ instance.now }
    ensures witness { OnOk result (IfSome (witness_of claim.now) (λ w. IsWitness instance.now w)) }
    ensures first { (found : List (Option Solution)) → AreSolutions instance.now found → IsFirst found best.old.held
        → OnOk result (IsFirst (found ++ found_in instance.now claim.now ∷ []) best.new.held) }
    ensures unfit { IfErr result (λ why. IsSomeAnd (witness_of claim.now) (λ w. IsUnfit instance.now w why)) }
{
    match claim.witness() {
        Some(witness) => take_witness(best, instance, witness),
        None => Ok(()),
    }
}

/// Keeps the first, in the order of assignments, of what is held and this one, unless the instance does not accept this one.
fn take_witness(
    best: &mut Best<'_>,
    instance: &Instance,
    witness: &Witness,
) -> Result<(), Rejection>
    requires { best.old.problem ≡ instance.now }
    ensures same_instance { best.new.problem ≡ instance.now }
    ensures witness { OnOk result (IsWitness instance.now witness.now) }
    ensures first { (found : List (Option Solution)) → AreSolutions instance.now found → IsFirst found best.old.held
        → OnOk result (IsFirst (found ++ Some (solution_of instance.now witness.now.values) ∷ []) best.new.held) }
    ensures unfit { IfErr result (λ why. IsUnfit instance.now witness.now why) }
{
    if witness.values.len() != instance.vars() {
        return Err(Rejection::OtherVariables);
    }
    let Some(cost) = instance.check(&witness.values) else {
        return Err(Rejection::Infeasible);
    };
    if let Some(told) = witness.cost
        && told != cost
    {
        return Err(Rejection::WrongCost);
    }
    let _ = best.take(&witness.values);
    Ok(())
}

//! What reports of parts tell together.
ghost use Rattle.std.specs.Prelude.{◌≡◌, ◌≢◌, ◌↔◌, ◌∷◌, ◌++◌, [], ℕ, length, List, IsTrue, IfOk, IfErr, OnOk, All};
ghost use Rattle.pb_parts.specs.Parts.{IsFit};
ghost use Rattle.pb_parts.specs.declared.parts.PartReport.{PartReport};
ghost use Rattle.pb_join.specs.Parts.{AreGatheredParts, IsOtherDivision, IsPartClaim, IsPartRejected, IsPartsFault, IsSameDivision};

use crate::gathering::take_claim;
use crate::parts::faults::{PartRejection, PartsFault};
use crate::parts::finishing::state_of_report;
use crate::parts::states::ReportState;
use pb_inst::{Best, Instance};
use pb_parts::{Division, PartReport};
use pb_report::Claim;
use std::alloc::{AllocError, Global};

/// The best that reports of parts have, how the instance was divided, if any report tells it, and what the report of each task
/// tells.
#[derive(Drop)]
pub(crate) struct GatheredParts<'i> {
    pub(crate) best: Best<'i>,
    pub(crate) division: Option<Division>,
    pub(crate) reports: Vec<ReportState>,
}

/// What all reports tell together of an instance with this digest that is divided among `tasks` tasks.
pub(crate) fn gather_parts<'i>(
    alloc: Global,
    instance: &'i Instance,
    digest: &[u8; 32],
    tasks: u32,
    parts: &[PartReport],
) -> Result<GatheredParts<'i>, PartsFault>
    requires { All (λ part. IsFit part.heading) parts.now }
    ensures same_instance { IfOk result (λ g. g.best.problem ≡ instance.now) }
    ensures gathered { IfOk result (λ g. AreGatheredParts instance.now digest.now tasks parts.now g.division g.best.held g.reports.items) }
    ensures refused { IfErr result (λ fault. IsPartsFault instance.now digest.now tasks parts.now fault) }
    ensures unwritten { IfErr result (λ fault. fault ≢ PartsFault.Write) }
{
    let mut gathered = no_parts(alloc, instance, tasks)?;
    for (place, part) in parts.iter().enumerate() {
        if let Err(why) = take_part(&mut gathered, instance, digest, part) {
            return Err(PartsFault::Report { place, why });
        }
    }
    Ok(gathered)
}

/// No report yet: nothing is held, and no task has one.
fn no_parts<'i>(
    alloc: Global,
    instance: &'i Instance,
    tasks: u32,
) -> Result<GatheredParts<'i>, AllocError>
    ensures same_instance { IfOk result (λ g. g.best.problem ≡ instance.now) }
    ensures gathered { (digest : List ℕ) → IfOk result (λ g. AreGatheredParts instance.now digest tasks [] g.division g.best.held g.reports.items) }
{
    let best = Best::none(alloc, instance)?;
    let reports = vec![in alloc; ReportState::Missing; tasks as usize]?;
    Ok(GatheredParts {
        best,
        division: None,
        reports,
    })
}

/// Takes in one more report, unless it is rejected.
fn take_part(
    gathered: &mut GatheredParts<'_>,
    instance: &Instance,
    digest: &[u8; 32],
    part: &PartReport,
) -> Result<(), PartRejection>
    requires instance { gathered.old.best.problem ≡ instance.now }
    requires fit { IsFit part.now.heading }
    ensures same_instance { gathered.new.best.problem ≡ instance.now }
    ensures taken { (earlier : List PartReport) (tasks : ℕ) → AreGatheredParts instance.now digest.now tasks earlier gathered.old.division gathered.old.best.held gathered.old.reports.items
        → OnOk result (AreGatheredParts instance.now digest.now tasks (earlier ++ part.now ∷ []) gathered.new.division gathered.new.best.held gathered.new.reports.items) }
    ensures rejected { (earlier : List PartReport) (tasks : ℕ) → AreGatheredParts instance.now digest.now tasks earlier gathered.old.division gathered.old.best.held gathered.old.reports.items
        → IfErr result (λ why. IsPartRejected instance.now digest.now tasks earlier part.now why) }
{
    let division = part.heading.division;
    let tasks = gathered.reports.len();
    check_division(&division, digest, tasks, &gathered.division)?;
    let task = part.heading.task as usize;
    if !is_missing(gathered.reports[task]) {
        return Err(PartRejection::Doubled);
    }
    if !is_part_claim(&part.claim) {
        return Err(PartRejection::NotAPart);
    }
    if let Err(why) = take_claim(&mut gathered.best, instance, &part.claim) {
        return Err(PartRejection::Unfit(why));
    }
    gathered.division = Some(division);
    gathered.reports[task] = state_of_report(&part.heading);
    Ok(())
}

/// Refuses a division that is not of this instance, or not among `tasks` tasks, or not that of the first report, if there is one.
fn check_division(
    division: &Division,
    digest: &[u8; 32],
    tasks: usize,
    first: &Option<Division>,
) -> Result<(), PartRejection>
    ensures same { OnOk result (IsSameDivision digest.now tasks first.now division.now) }
    ensures other { IfErr result (λ why. IsOtherDivision digest.now tasks first.now division.now why) }
{
    if division.instance != *digest {
        return Err(PartRejection::OtherInstance);
    }
    if division.pieces == 0 {
        return Err(PartRejection::NoPieces);
    }
    if division.tasks as usize != tasks {
        return Err(PartRejection::OtherTasks);
    }
    if let Some(first) = first
        && first != division
    {
        return Err(PartRejection::OtherDivision);
    }
    Ok(())
}

/// Whether no report of the task was taken yet.
fn is_missing(state: ReportState) -> bool
    ensures { IsTrue result ↔ (state ≡ ReportState.Missing) }
{
    state == ReportState::Missing
}

/// Whether a part can make this claim.
fn is_part_claim(claim: &Claim) -> bool
    ensures { IsTrue result ↔ IsPartClaim claim.now }
{
    match claim {
        Claim::Satisfiable(_) | Claim::Unknown => true,
        Claim::Optimum(_) | Claim::Unsatisfiable | Claim::Unsupported => false,
    }
}

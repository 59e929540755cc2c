//! Joining the reports of all parts into one.
ghost use Rattle.std.specs.Prelude.{◌≡◌, ◌≢◌, ◌↔◌, List, IfOk, IfErr, IsErrOf, IsTrue, All, false, true};
ghost use Rattle.pb_inst.specs.Literal.{Literal};
ghost use Rattle.pb_parts.specs.Parts.{IsFit};
ghost use Rattle.pb_report.specs.Outcome.{Answers};
ghost use Rattle.pb_join.specs.Joining.{TellsFirstOf};
ghost use Rattle.pb_join.specs.Parts.{AreAllNamed, AreFitParts, AreNamed, ArePartsOf, AreTaskStates, IsPartsFault, all_found_in_parts, first_division};

use crate::parts::faults::PartsFault;
use crate::parts::finishing::{is_whole, states_of};
use crate::parts::gathering::gather_parts;
use crate::parts::naming::named_pieces;
use crate::parts::states::TaskState;
use crate::writing::report_joined;
use pb_inst::Instance;
use pb_parts::PartReport;
use pb_read::Format;
use pb_report::{Device, Status};
use std::alloc::Global;
use std::io::Write;

/// How a report that was joined from parts ended, and what became of each task.
#[derive(Drop)]
pub struct JoinedParts {
    /// What the written report says.
    pub status: Status,
    /// Whether every piece is done, so that the report is written as the answer; else it is written as what was found.
    pub whole: bool,
    /// What became of each task, by its number.
    pub states: Vec<TaskState>,
    /// The pieces that some report names as done, in rising order.
    pub named: Vec<u32>,
}

/// Joins the reports of the parts of an instance, whose bytes have this SHA-256, and writes and flushes the report of the whole.
/// The instance's pieces were dealt among `tasks` tasks, and each report is that of one task, as `read_part` reads it. A report may
/// name pieces that are dealt to another task, and two reports may name one piece.
///
/// Where each piece is named as done by some report, the first assignment of them all is written as the answer: with `s OPTIMUM
/// FOUND`, or `s SATISFIABLE` where there is no objective; `s UNSATISFIABLE` where no report has one. Where each piece that a
/// report names as done is done by its assignment, this is the report of the whole instance byte for byte. Where a piece is
/// missing or was cut, the best assignment is written with `s SATISFIABLE` and its cost, or `s UNKNOWN` alone; so it is where
/// there are no reports. Whatever is claimed, an assignment that is written is feasible, and its cost is its own.
///
/// The first report that is none of the parts, or that is of another division than the first one, is rejected, and then nothing
/// is written; nor is anything where memory is refused. After `Write`, which comes exactly where the device has failed, any part
/// of the report may have been written.
pub fn join_parts<W: Write>(
    alloc: Global,
    format: Format,
    instance: &Instance,
    digest: &[u8; 32],
    tasks: u32,
    parts: &[PartReport],
    out: &mut Device<W>,
) -> Result<JoinedParts, PartsFault>
    requires fit { All (λ part. IsFit part.heading) parts.now }
    requires out { out.old.failed ≡ false }

    ensures headline { (cubes : List (List Literal)) → ArePartsOf instance.now cubes parts.now
        → IfOk result (λ joined. joined.whole ≡ true
        → Answers format instance.now (W.contents out.old.held) (W.contents out.new.held) joined.status) }

    ensures first { IfOk result (λ joined. TellsFirstOf format instance.now (all_found_in_parts instance.now parts.now) joined.whole
        (W.contents out.old.held) (W.contents out.new.held) joined.status) }

    ensures whole { IfOk result (λ joined. IsTrue joined.whole ↔ AreAllNamed (first_division parts.now) parts.now) }
    ensures states { IfOk result (λ joined. AreTaskStates tasks parts.now joined.states.items) }
    ensures named { IfOk result (λ joined. AreNamed parts.now joined.named.items) }
    ensures fit { IfOk result (λ joined. AreFitParts instance.now digest.now tasks parts.now) }
    ensures refused { IfErr result (λ fault. IsPartsFault instance.now digest.now tasks parts.now fault) }
    ensures write { IsTrue out.new.failed ↔ IsErrOf result PartsFault.Write }
    ensures unwritten { IfErr result (λ fault. fault ≢ PartsFault.Write → out.new ≡ out.old) }
{
    let gathered = gather_parts(alloc, instance, digest, tasks, parts)?;
    let named = named_pieces(alloc, parts)?;
    let whole = is_whole(&gathered.division, &named);
    let states = states_of(alloc, &gathered.division, tasks, &gathered.reports, &named)?;
    let Ok(status) = report_joined(out, format, instance, whole, &gathered.best) else {
        return Err(PartsFault::Write);
    };
    Ok(JoinedParts {
        status,
        whole,
        states,
        named,
    })
}

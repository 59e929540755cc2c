//! The whole run.
ghost use Rattle.std.specs.Prelude.{◌≡◌, ◌≢◌, ◌↔◌, ℕ, List, Option, false, true, is_err, Ok, Err, None, Some, IfOk, IfErr, IfSome, IfNone, IsErrOf, IsTrue};
ghost use Rattle.std.specs.Io.KnownBytes.{Appends};
ghost use Rattle.pb_read.specs.declared.fault.ReadFault.{ReadFault};
ghost use Rattle.pb_solve.specs.Solving.{HoldsLeast};
ghost use Rattle.pb_report.specs.Written.{memory_report};
ghost use Rattle.pb_read.specs.Format.{text_refusal};
ghost use Rattle.pb_solve.specs.Run.{Reports, ReportsFound, Answers, AnswersHeld, IsPrepared, IsUnfailed, IsUnread, ReportsRefusal, StopsAtFault, failed_after, text_left};

use crate::options::{Options, Ran};
use crate::prepare::reading::NoCubeFile;
use crate::prepare::{PrepareError, prepare};
use pb_inst::{Best, Instance};
use pb_read::Format;
use pb_report::{
    Device, RunFault, Status, report_attained, report_infeasible, report_memory, report_optimum,
    report_refusal, report_satisfiable, report_unknown,
};
use pb_workers::{Answer, OpenGate, SolveFault, solve, solve_alone};
use std::alloc::Global;
use std::io::{Read, Write};
use std::thread::Threads;

/// Reads the texts, solves the instance, and writes the report, which is flushed.
///
/// The cube file is read after the input, and only where the input is not refused. Cubes, split and workers only divide the
/// work: those that are accepted change no byte of the report. Where the options set a budget, each piece is searched with at
/// most `options.nodes` decisions. Where some piece was cut by it, the report is of the best that was found, and the status is
/// `Satisfiable`, or `Unknown` where nothing was found.
/// A fault names the device that failed. After `ReadInput` and `ReadCubes` nothing was written; what was written before `Write`
/// is not said.
pub fn run<R: Threads + Sync, I: Read, C: Read, W: Write>(
    rt: &R,
    alloc: Global,
    input: &mut Device<I>,
    cubes: Option<&mut Device<C>>,
    options: Options,
    out: &mut Device<W>,
) -> Result<Ran, RunFault>
    requires input { input.old.failed ≡ false }
    requires cubes { IsUnfailed cubes }
    requires out { out.old.failed ≡ false }

    ensures headline { IfOk result (λ ran. ran.cut ≡ false → ran.status ≢ Status.Unknown
        → Reports options.format (I.remaining input.old.held) (text_left C.remaining cubes.entry) options.split
        (W.contents out.old.held) (W.contents out.new.held) ran.status) }

    ensures budgeted { IfOk result (λ ran. ran.cut ≡ true
        → ReportsFound options.format (I.remaining input.old.held) (text_left C.remaining cubes.entry) options.split
        (W.contents out.old.held) (W.contents out.new.held) ran.status) }

    ensures no_budget { IfNone options.nodes (IfOk result (λ ran. ran.cut ≡ false)) }

    ensures memory { IfOk result (λ ran. ran.cut ≡ false → ran.status ≡ Status.Unknown
        → Appends (W.contents out.old.held) (W.contents out.new.held) memory_report) }

    ensures read_input { IsTrue input.new.failed ↔ IsErrOf result RunFault.ReadInput }
    ensures read_cubes { IsTrue (failed_after cubes.exit) ↔ IsErrOf result RunFault.ReadCubes }
    ensures write { IsTrue out.new.failed ↔ IsErrOf result RunFault.Write }
    ensures unwritten { IfErr result (λ fault. fault ≢ RunFault.Write → out.new ≡ out.old) }

    // An input that is refused is reported, whatever the cube file's reader tells.
    ensures refused_input { IfSome (I.remaining input.old.held) (λ text. (fault : ReadFault) → text_refusal options.format text ≡ Some fault
        → IfOk result (λ ran. (ran.cut ≡ false) × (ran.status ≢ Status.Unknown
        → ReportsRefusal fault (W.contents out.old.held) (W.contents out.new.held) ran.status))) }

    // Where the input is refused the cube file is not read.
    ensures unread { IfSome (I.remaining input.old.held) (λ text. (fault : ReadFault) → text_refusal options.format text ≡ Some fault
        → IsUnread cubes.entry cubes.exit) }
{
    // Whether there is a cube file is asked here alone: if the option were passed on by value, what the file is at the end
    // would be hidden from the clauses.
    let found = match cubes {
        None => prepare(alloc, input, &mut NoCubeFile, options.format, options.split),
        Some(cubes) => prepare(alloc, input, cubes, options.format, options.split),
    };
    match found {
        Ok(found) => {
            let (instance, pieces) = (&found.instance, &found.pieces);
            let (workers, nodes) = (options.workers, options.nodes);
            let answered = solve(rt, alloc, instance, pieces, workers, &OpenGate, nodes);
            report_answered(out, options.format, instance, answered)
        }
        Err(error) => report_prepare_error(out, error),
    }
}

/// Runs, as `run` does, with no cube file and no split, by one search on the caller's own thread: it starts no other thread,
/// and needs no right to do so. The report and the status are those of `run`.
pub fn run_without_threads<I: Read, W: Write>(
    alloc: Global,
    input: &mut Device<I>,
    format: Format,
    nodes: Option<u64>,
    out: &mut Device<W>,
) -> Result<Ran, RunFault>
    requires input { input.old.failed ≡ false }
    requires out { out.old.failed ≡ false }

    ensures headline { IfOk result (λ ran. ran.cut ≡ false → ran.status ≢ Status.Unknown
        → Reports format (I.remaining input.old.held) None 0 (W.contents out.old.held) (W.contents out.new.held) ran.status) }

    ensures budgeted { IfOk result (λ ran. ran.cut ≡ true
        → ReportsFound format (I.remaining input.old.held) None 0 (W.contents out.old.held) (W.contents out.new.held) ran.status) }

    ensures no_budget { IfNone nodes (IfOk result (λ ran. ran.cut ≡ false)) }

    ensures memory { IfOk result (λ ran. ran.cut ≡ false → ran.status ≡ Status.Unknown
        → Appends (W.contents out.old.held) (W.contents out.new.held) memory_report) }

    ensures read_input { IsTrue input.new.failed ↔ IsErrOf result RunFault.ReadInput }
    ensures write { IsTrue out.new.failed ↔ IsErrOf result RunFault.Write }
    ensures no_cubes { IfErr result (λ fault. fault ≢ RunFault.ReadCubes) }
    ensures unwritten { IfErr result (λ fault. fault ≢ RunFault.Write → out.new ≡ out.old) }
{
    match prepare(alloc, input, &mut NoCubeFile, format, 0) {
        Ok(found) => {
            let (instance, pieces) = (&found.instance, &found.pieces);
            let answered = solve_alone(alloc, instance, pieces, nodes);
            report_answered(out, format, instance, answered)
        }
        Err(error) => report_prepare_error(out, error),
    }
}

/// Ends a run in which nothing is solved.
fn report_prepare_error<W: Write>(out: &mut Device<W>, error: PrepareError) -> Result<Ran, RunFault>
    requires out { out.old.failed ≡ false }
    ensures reports { (format : Format) (input : Option (List ℕ)) (cubes : Option (Option (List ℕ))) (split : ℕ) → IsPrepared format input cubes split (Err error)
        → IfOk result (λ ran. ran.cut ≡ false → ran.status ≢ Status.Unknown
        → Reports format input cubes split (W.contents out.old.held) (W.contents out.new.held) ran.status) }
    ensures uncut { IfOk result (λ ran. ran.cut ≡ false) }
    ensures refused_input { (fault : ReadFault) → StopsAtFault fault (Err error) → IfOk result (λ ran. ran.status ≢ Status.Unknown
        → ReportsRefusal fault (W.contents out.old.held) (W.contents out.new.held) ran.status) }
    ensures memory { IfOk result (λ ran. ran.status ≡ Status.Unknown → Appends (W.contents out.old.held) (W.contents out.new.held) memory_report) }
    ensures read_input { (error ≡ PrepareError.ReadInput) ↔ IsErrOf result RunFault.ReadInput }
    ensures read_cubes { (error ≡ PrepareError.ReadCubes) ↔ IsErrOf result RunFault.ReadCubes }
    ensures write { IsTrue out.new.failed ↔ IsErrOf result RunFault.Write }
    ensures unwritten { IfErr result (λ fault. fault ≢ RunFault.Write → out.new ≡ out.old) }
{
    match error {
        PrepareError::Refused(refusal) => Ok(Ran::uncut(report_refusal(out, refusal)?)),
        PrepareError::Memory => Ok(Ran::uncut(report_memory(out)?)),
        PrepareError::ReadInput => Err(RunFault::ReadInput),
        PrepareError::ReadCubes => Err(RunFault::ReadCubes),
    }
}

/// Reports the answer on the instance. Where a piece was cut, what the answer holds is reported as the best that was found, and
/// where memory was refused, that it was.
fn report_answered<W: Write>(
    out: &mut Device<W>,
    format: Format,
    instance: &Instance,
    answered: Result<Answer<'_>, SolveFault>,
) -> Result<Ran, RunFault>
    requires out { out.old.failed ≡ false }
    requires same_instance { IfOk answered (λ answer. answer.best.problem ≡ instance.now) }
    requires least { IfOk answered (λ answer. answer.cut ≡ false → HoldsLeast instance.now answer.best.held) }
    ensures answers { IfOk result (λ ran. ran.cut ≡ false → ran.status ≢ Status.Unknown
        → Answers format instance.now (W.contents out.old.held) (W.contents out.new.held) ran.status) }
    ensures budgeted { IfOk answered.entry (λ answer. answer.cut ≡ true → IfOk result (λ ran. (ran.cut ≡ true)
        × AnswersHeld format instance.now answer.best.held (W.contents out.old.held) (W.contents out.new.held) ran.status)) }
    ensures uncut { IfOk answered.entry (λ answer. answer.cut ≡ false) → IfOk result (λ ran. ran.cut ≡ false) }
    ensures known { IfOk answered.entry (λ answer. answer.cut ≡ false → IfOk result (λ ran. ran.status ≢ Status.Unknown)) }
    ensures memory { IfOk result (λ ran. ran.cut ≡ false → ran.status ≡ Status.Unknown → Appends (W.contents out.old.held) (W.contents out.new.held) memory_report) }
    ensures fault { IfErr result (λ fault. fault ≡ RunFault.Write) }
    ensures failed { out.new.failed ≡ is_err result }
{
    let Ok(answer) = answered else {
        return Ok(Ran::uncut(report_memory(out)?));
    };
    let status = if answer.cut {
        report_found(out, format, instance, &answer.best)?
    } else {
        report_least(out, format, instance, &answer.best)?
    };
    Ok(Ran {
        status,
        cut: answer.cut,
    })
}

/// Reports what is held as the answer on the instance.
fn report_least<W: Write>(
    out: &mut Device<W>,
    format: Format,
    instance: &Instance,
    best: &Best<'_>,
) -> Result<Status, RunFault>
    requires least { HoldsLeast instance.now best.now.held }
    ensures answers { IfOk result (Answers format instance.now (W.contents out.old.held) (W.contents out.new.held)) }
    ensures known { IfOk result (λ status. status ≢ Status.Unknown) }
    ensures fault { IfErr result (λ fault. fault ≡ RunFault.Write) }
    ensures failed { out.new.failed ≡ is_err result }
{
    let (Some(cost), Some(values)) = (best.cost(), best.assignment()) else {
        return report_infeasible(out);
    };
    if instance.has_objective() {
        report_optimum(out, format, cost, values)
    } else {
        report_satisfiable(out, format, values)
    }
}

/// Reports what is held as what was found of the instance: the best assignment that is known, with its cost where there is an
/// objective, or that none is known. It is not said to be the least. A fault is `Write`, where the device has failed.
pub fn report_found<W: Write>(
    out: &mut Device<W>,
    format: Format,
    instance: &Instance,
    best: &Best<'_>,
) -> Result<Status, RunFault>
    requires same_instance { best.now.problem ≡ instance.now }
    ensures answers { IfOk result (AnswersHeld format instance.now best.now.held (W.contents out.old.held) (W.contents out.new.held)) }
    ensures fault { IfErr result (λ fault. fault ≡ RunFault.Write) }
    ensures failed { out.new.failed ≡ is_err result }
{
    let (Some(cost), Some(values)) = (best.cost(), best.assignment()) else {
        return report_unknown(out);
    };
    if instance.has_objective() {
        report_attained(out, format, cost, values)
    } else {
        report_satisfiable(out, format, values)
    }
}

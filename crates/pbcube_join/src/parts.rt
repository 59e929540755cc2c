//! Joining the reports of tasks.
ghost use Rattle.std.specs.Prelude.{◌≡◌, ◌≢◌, ◌<◌, ◌⊎◌, ℕ, length, false, true, All, IfOk, IfErr, IsTrue};
ghost use Rattle.pb_files.specs.Reading.{ReadsInstance};
ghost use Rattle.pb_files.specs.Tasks.{AreFitTasks};
ghost use Rattle.pb_join.specs.declared.parts.faults.PartRejection.{PartRejection as Why};
ghost use Rattle.pb_parts.specs.Parts.{IsFit};
ghost use Rattle.pb_report.specs.Written.{refusal_report};
ghost use Rattle.pbcube_join.specs.Joining.{JoinsOrRefuses, JoinsTasks, TellsOfParts, TellsOfTasks, status_of};
ghost use Rattle.pbcube_join.specs.Reading.{ReadsRefusals};
ghost use Rattle.std.specs.Io.KnownBytes.{Appends};

use crate::again::{name_tasks_again, tell_of_no_report};
use pb_files::{
    Files, PartReports, Refusal, ReportsFault, TaskReports, Whole, all_refuse_text, named_files,
    read_instance, read_tasks,
};
use pb_join::{JoinedParts, PartRejection, PartsFault, join_parts};
use pb_line::joining::Line;
use pb_parts::PartReport;
use pb_read::{Format, ReadFault};
use pb_report::{Device, Refusal as InputRefusal, Status, report_refusal};
use std::alloc::Global;
use std::io::Write;

/// What came of joining parts.
#[derive(Drop)]
pub(crate) struct PartsEnd {
    /// How the report that was written ended, and what became of each task.
    pub(crate) joined: JoinedParts,
    /// The number of pieces, where a report tells it.
    pub(crate) pieces: Option<u32>,
}

/// What came of the reports of tasks.
#[derive(Drop)]
pub(crate) enum TasksEnd {
    /// They are of parts, and were joined.
    Joined(PartsEnd),
    /// Every task refused the same, and this was written.
    Refused(InputRefusal),
}

impl TasksEnd {
    /// The status of the report that was written.
    pub(crate) fn status(&self) -> Status
        ensures { result ≡ status_of self.now }
    {
        match self {
            TasksEnd::Joined(end) => end.joined.status,
            TasksEnd::Refused(_) => Status::Unsupported,
        }
    }
}

/// Reads the instance and the reports of tasks that the line names, joins the reports and writes what they make. Where anything
/// is refused nothing is written, unless every task refused the same: then this refusal is written.
pub(crate) fn join_tasks<'a, F: Files, W: Write>(
    alloc: Global,
    line: &Line<'a>,
    tasks: u32,
    files: &mut F,
    out: &mut Device<W>,
) -> Result<TasksEnd, ReportsFault<'a>>
    requires out { out.old.failed ≡ false }
    ensures joins { IfOk result (JoinsOrRefuses F.reads F.lists line.now tasks files.old files.new (W.contents out.old.held) (W.contents out.new.held)) }
    ensures unwritten { IfErr result (λ fault. fault ≢ ReportsFault.CannotWrite → out.new ≡ out.old) }
    ensures kept { IfErr result (λ fault. (out.new ≡ out.old) ⊎ (out.new.failed ≡ true)) }
{
    match read_instance(alloc, line.format, line.file, files) {
        Ok(whole) => join_read(alloc, line, tasks, &whole, files, out),
        Err(ReportsFault::Refused(file, fault, hint)) => {
            if all_tasks_refuse(alloc, line, tasks, fault, files)? {
                write_refusal(InputRefusal::Input(fault), out)
            } else {
                Err(ReportsFault::Refused(file, fault, hint))
            }
        }
        Err(fault) => Err(fault),
    }
}

/// Reads the reports of tasks that the line names, joins them and writes what they make.
fn join_read<'a, F: Files, W: Write>(
    alloc: Global,
    line: &Line<'a>,
    tasks: u32,
    whole: &Whole,
    files: &mut F,
    out: &mut Device<W>,
) -> Result<TasksEnd, ReportsFault<'a>>
    requires out { out.old.failed ≡ false }
    ensures joins { (before : F) → ReadsInstance F.reads line.now.format line.now.file.now whole.now.instance whole.now.digest before files.old
        → IfOk result (JoinsTasks F.reads F.lists line.now tasks before files.new (W.contents out.old.held) (W.contents out.new.held)) }
    ensures unwritten { IfErr result (λ fault. fault ≢ ReportsFault.CannotWrite → out.new ≡ out.old) }
    ensures kept { IfErr result (λ fault. (out.new ≡ out.old) ⊎ (out.new.failed ≡ true)) }
{
    let named = named_files(alloc, &line.reports, files)?;
    let reports = named.reports;
    let (format, vars) = (line.format, whole.instance.vars());
    let read = read_tasks(alloc, format, vars, &whole.digest, tasks, reports, files)?;
    write_tasks(alloc, format, whole, tasks, read, out)
}

/// Whether the line names as many reports as there are tasks, and each of them can be read and refuses the text of the instance for
/// this fault. Fails only where memory runs out.
fn all_tasks_refuse<'a, F: Files>(
    alloc: Global,
    line: &Line<'a>,
    tasks: u32,
    fault: ReadFault,
    files: &mut F,
) -> Result<bool, ReportsFault<'a>>
    ensures { IfOk result (λ all. IsTrue all → ReadsRefusals F.reads F.lists line.now tasks fault files.old files.new) }
{
    match named_files(alloc, &line.reports, files) {
        Ok(named) => all_refuse_text(alloc, fault, tasks, &named.reports, files),
        Err(ReportsFault::Memory) => Err(ReportsFault::Memory),
        Err(_) => Ok(false),
    }
}

/// Joins what was read of tasks and writes what it makes.
fn write_tasks<'a, W: Write>(
    alloc: Global,
    format: Format,
    whole: &Whole,
    tasks: u32,
    read: TaskReports,
    out: &mut Device<W>,
) -> Result<TasksEnd, ReportsFault<'a>>
    requires out { out.old.failed ≡ false }
    requires fit { AreFitTasks read }
    ensures tells { IfOk result (TellsOfTasks format whole.now.instance whole.now.digest tasks read (W.contents out.old.held) (W.contents out.new.held)) }
    ensures unwritten { IfErr result (λ fault. fault ≢ ReportsFault.CannotWrite → out.new ≡ out.old) }
    ensures kept { IfErr result (λ fault. (out.new ≡ out.old) ⊎ (out.new.failed ≡ true)) }
{
    match read {
        TaskReports::Parts(read) => {
            let end = join_part_reports(alloc, format, whole, tasks, read, out)?;
            Ok(TasksEnd::Joined(end))
        }
        TaskReports::Refused(refusal) => write_refusal(refusal, out),
    }
}

/// Writes what every task refused, as a run on the whole writes it.
fn write_refusal<'a, W: Write>(
    refusal: InputRefusal,
    out: &mut Device<W>,
) -> Result<TasksEnd, ReportsFault<'a>>
    requires out { out.old.failed ≡ false }
    ensures told { IfOk result (λ end. (end ≡ TasksEnd.Refused refusal) × Appends (W.contents out.old.held) (W.contents out.new.held) (refusal_report refusal)) }
    ensures unwritten { IfErr result (λ fault. fault ≢ ReportsFault.CannotWrite → out.new ≡ out.old) }
    ensures kept { IfErr result (λ fault. (out.new ≡ out.old) ⊎ (out.new.failed ≡ true)) }
{
    match report_refusal(out, refusal) {
        Ok(_) => Ok(TasksEnd::Refused(refusal)),
        Err(_) => Err(ReportsFault::CannotWrite),
    }
}

/// Joins these reports of parts and writes what they make.
fn join_part_reports<'a, W: Write>(
    alloc: Global,
    format: Format,
    whole: &Whole,
    tasks: u32,
    read: PartReports,
    out: &mut Device<W>,
) -> Result<PartsEnd, ReportsFault<'a>>
    requires out { out.old.failed ≡ false }
    requires counted { length read.names.items ≡ length read.parts.items }
    requires fit { All (λ part. IsFit part.heading) read.parts.items }
    ensures tells { IfOk result (λ end. TellsOfParts format whole.now.instance whole.now.digest tasks read.parts.items (W.contents out.old.held) (W.contents out.new.held) end.joined) }
    ensures unwritten { IfErr result (λ fault. fault ≢ ReportsFault.CannotWrite → out.new ≡ out.old) }
    ensures kept { IfErr result (λ fault. (out.new ≡ out.old) ⊎ (out.new.failed ≡ true)) }
{
    let Whole { instance, digest } = whole;
    match join_parts(alloc, format, instance, digest, tasks, &read.parts, out) {
        Ok(joined) => Ok(PartsEnd {
            joined,
            pieces: pieces_told(&read.parts),
        }),
        Err(fault) => {
            let other = name_of_other(&fault, &read);
            Err(fault_of(fault, read, tasks, other))
        }
    }
}

/// The number of pieces that the first report tells, if there is one.
fn pieces_told(parts: &[PartReport]) -> Option<u32> {
    Some(parts.first()?.heading.division.pieces)
}

/// The name of the file with the earlier report that the rejected one does not go with, if there is one and memory for it: the
/// first that was read, or that of the same task.
fn name_of_other(fault: &PartsFault, read: &PartReports) -> Option<String> {
    let PartsFault::Report { place, why } = fault else {
        return None;
    };
    let other = match why {
        PartRejection::OtherDivision => 0,
        PartRejection::Doubled => {
            let task = read.parts.get(*place)?.heading.task;
            read.parts
                .iter()
                .position(|part| part.heading.task == task)?
        }
        _ => return None,
    };
    read.names.get(other)?.clone().ok()
}

/// Why these reports of parts were not joined as those of `tasks` tasks. The rejected one may not go with that in another file.
fn fault_of<'a>(
    fault: PartsFault,
    mut read: PartReports,
    tasks: u32,
    other: Option<String>,
) -> ReportsFault<'a>
    requires { (place : ℕ) → (why : Why) → fault ≡ PartsFault.Report place why → place < length read.names.items }
    ensures { fault ≡ PartsFault.Write → result ≡ ReportsFault.CannotWrite }
{
    match fault {
        PartsFault::Write => ReportsFault::CannotWrite,
        PartsFault::Memory => ReportsFault::Memory,
        PartsFault::Report { place, why } => {
            let why = refusal_of(why, read.parts.get(place), tasks);
            let name = read.names.swap_remove(place);
            ReportsFault::of_report(name, why, other)
        }
    }
}

/// Why this report of a part is refused, with the numbers of tasks where it is of another one than `tasks`.
fn refusal_of(why: PartRejection, part: Option<&PartReport>, tasks: u32) -> Refusal {
    match part {
        Some(part) if why == PartRejection::OtherTasks => {
            Refusal::OfOtherTasks(part.heading.division.tasks, tasks)
        }
        _ => Refusal::RejectedPart(why),
    }
}

/// Writes one line to the standard error: that every task refused its input, or which tasks have to be run again, unless every piece
/// is done; and one more where there is no report, or where pieces are in none, though each task has one.
pub(crate) fn tell_tasks<E: Write>(end: &TasksEnd, err: &mut E) {
    match end {
        TasksEnd::Joined(end) if !end.joined.whole => {
            if end.pieces.is_none() {
                tell_of_no_report(err);
            }
            name_tasks_again(&end.joined, end.pieces, err);
        }
        TasksEnd::Joined(_) => {}
        TasksEnd::Refused(_) => {
            let _ = writeln!(
                err,
                "pbcube_join: every task refused its input, and searched nothing"
            );
        }
    }
}

//! The program over any files, any notes and any outputs.
ghost use Rattle.std.specs.Prelude.{◌≡◌, ◌<◌, false, map, IfOk};
ghost use Rattle.clap.specs.Words.{kind_of};
ghost use Rattle.pb_line.specs.Ends.{EndsBy};
ghost use Rattle.pb_report.specs.Statuses.{IsExitStatus};
ghost use Rattle.pbcube_task.specs.Ending.{Ends, EndsWithoutMemory};
ghost use Rattle.pbcube_task.specs.Reporting.{Reports, ReportsFault};

use crate::faults::ProgramFault;
use crate::places::Places;
use crate::reporting::report_part;
use crate::searching::search;
use clap::Error;
use pb_files::{DivisionFault, Folders, prepare};
use pb_hint::hint_on_name;
use pb_line::tasks::{Line, line};
use pb_line::{LastFault, end_at_line, tell_failure, tell_hint, tell_range};
use pb_notes::Notes;
use pb_report::report_refusal;
use pb_solve::{Device, Status, report_memory};
use pb_workers::SolveFault;
use std::alloc::Global;
use std::io::{self, Write};
use std::thread::Threads;

/// The options that take a number.
const OPTIONS: [&str; 5] = ["--workers", "--split", "--nodes", "--task", "--tasks"];

/// Runs the program on its words, of which the first is its own name, and answers its exit status. Whatever the notes say, what
/// is written is right. Where the output notes its faults, these tell why it failed.
pub fn program<
    'a,
    R: Threads + Sync,
    F: Folders,
    N: Notes + Sync + Drop,
    P: Places<N>,
    W: Write,
    E: Write,
>(
    rt: &R,
    alloc: Global,
    words: &'a [&'a str],
    folders: &mut F,
    places: &P,
    faults: &LastFault,
    out: &mut Device<W>,
    err: &mut E,
) -> u8
    requires { out.old.failed ≡ false }
    ensures status { IsExitStatus result }
    ensures ended { Ends F.reads folders.old folders.new (W.contents out.old.held) (W.contents out.new.held) (map (λ word. word.now) words.now) result }
{
    let line = match line(alloc, words) {
        Ok(line) => line,
        Err(fault) => {
            tell_range("pbcube_task", &OPTIONS, &fault, words, err);
            return end_without_run(&fault, faults, out, err);
        }
    };
    match run_task(rt, alloc, &line, folders, places, out, err) {
        Ok(status) => status.exit_status(),
        Err(fault) => end_at_fault(fault, faults.get(), err),
    }
}

/// The program's end where there was no memory for its words.
pub fn out_of_memory<W: Write, E: Write>(faults: &LastFault, out: &mut Device<W>, err: &mut E) -> u8
    requires { out.old.failed ≡ false }
    ensures { EndsWithoutMemory (W.contents out.old.held) (W.contents out.new.held) result }
{
    match report_memory(out) {
        Ok(status) => status.exit_status(),
        Err(_) => end_at_fault(ProgramFault::CannotWrite, faults.get(), err),
    }
}

/// Reads what the line names, searches the pieces of its task, and reports what was found, or why nothing was searched.
fn run_task<
    'a,
    R: Threads + Sync,
    F: Folders,
    N: Notes + Sync + Drop,
    P: Places<N>,
    W: Write,
    E: Write,
>(
    rt: &R,
    alloc: Global,
    line: &Line<'a>,
    folders: &mut F,
    places: &P,
    out: &mut Device<W>,
    err: &mut E,
) -> Result<Status, ProgramFault<'a>>
    requires out { out.old.failed ≡ false }
    requires task { line.now.task < line.now.tasks }
    ensures { IfOk result (Reports F.reads line.now folders.old folders.new (W.contents out.old.held) (W.contents out.new.held)) }
{
    let divided = prepare(
        alloc,
        folders,
        line.format,
        line.file,
        line.cubes,
        line.split,
    );
    let prepared = match divided {
        Ok(prepared) => prepared,
        Err(fault) => return report_undivided(out, fault, err),
    };
    let status = match search(rt, alloc, line, &prepared, places, err) {
        Ok(answer) => report_part(out, line, &prepared, &answer)?,
        Err(SolveFault::Memory) => report_memory(out)?,
    };
    Ok(status)
}

/// Reports why an instance was not divided, unless a file could not be read. The standard error then has what may help.
fn report_undivided<'a, W: Write, E: Write>(
    out: &mut Device<W>,
    fault: DivisionFault<'a>,
    err: &mut E,
) -> Result<Status, ProgramFault<'a>>
    requires { out.old.failed ≡ false }
    ensures { IfOk result (ReportsFault fault.entry (W.contents out.old.held) (W.contents out.new.held)) }
{
    match fault {
        DivisionFault::CannotRead(name, reason) => Err(ProgramFault::CannotRead(name, reason)),
        DivisionFault::Refused(_, refusal, hint) => {
            let status = report_refusal(out, refusal)?;
            tell_hint("pbcube_task", hint, err);
            Ok(status)
        }
        DivisionFault::Memory => Ok(report_memory(out)?),
    }
}

/// The end where the words ask for no run: help, the version, a refusal, or no memory.
fn end_without_run<W: Write, E: Write>(
    fault: &Error,
    faults: &LastFault,
    out: &mut Device<W>,
    err: &mut E,
) -> u8
    requires { out.old.failed ≡ false }
    ensures { EndsBy (EndsWithoutMemory (W.contents out.old.held) (W.contents out.new.held)) (kind_of fault.now) result }
{
    match end_at_line("pbcube_task", fault, out, err) {
        Some(status) => status,
        None => out_of_memory(faults, out, err),
    }
}

/// Writes one line to the standard error with the reason, unless whoever reads the output wants no more of it. A file that
/// cannot be read has a reason of its own, and perhaps a second line with what may help.
fn end_at_fault<E: Write>(fault: ProgramFault<'_>, of_output: Option<io::Error>, err: &mut E) -> u8
    ensures { result ≡ 1 }
{
    let (reason, hint) = match fault {
        ProgramFault::CannotRead(name, reason) => (Some(reason), hint_on_name(name)),
        ProgramFault::CannotWrite => (of_output, None),
    };
    tell_failure("pbcube_task", fault, reason, err);
    tell_hint("pbcube_task", hint, err);
    1
}

//! The program over any files and any outputs.
ghost use Rattle.std.specs.Prelude.{◌≡◌, ◌≢◌, false, true, map, option_map, IfNone, IfOk};
ghost use Rattle.std.specs.Io.KnownBytes.{Appends};
ghost use Rattle.pb_program.specs.Fetching.{FetchesFor, FetchesInOrder, HaveTexts};
ghost use Rattle.clap.specs.Words.{kind_of};
ghost use Rattle.pb_line.specs.Ends.{EndsBy};
ghost use Rattle.pb_report.specs.Statuses.{IsExitStatus, exit_status};
ghost use Rattle.pb_report.specs.Written.{memory_report};
ghost use Rattle.pb_solve.specs.Run.{Reports, ReportsFound};
ghost use Rattle.pb_program.specs.Ending.{Ends, EndsWithoutMemory};

use crate::args::Line;
use crate::diagnose::{diagnose, tell_if_undivided};
use crate::faults::{ProgramFault, tell};
use crate::files::{Files, Rewind};
use crate::parse::line;
use clap::Error;
use pb_hint::hint_on_name;
use pb_line::{Untold, tell_fault, tell_hint, tell_range};
use pb_solve::{Device, Options, Ran, RunFault, Status, report_memory, run};
use std::alloc::Global;
use std::io::{Empty, Read, Write};
use std::thread::Threads;

/// The options that take a number.
const OPTIONS: [&str; 3] = ["--workers", "--split", "--nodes"];

/// Runs the program on its words, of which the first is its own name, and answers its exit status. The input is fetched first,
/// and where it can be opened the cube file, if there is one. After a run the output has the report on the texts of these
/// files, in the format and with the split of the words; without a budget no piece was cut. With status 1 a fault was written
/// to the standard error, and with status 2 nothing was written to the output. Faults of the standard error are ignored.
pub fn program<'a, R: Threads + Sync, F: Files, W: Write, E: Write>(
    rt: &R,
    alloc: Global,
    words: &'a [&'a str],
    files: &mut F,
    out: &mut Device<W>,
    err: &mut E,
) -> u8
    requires { out.old.failed ≡ false }
    ensures status { IsExitStatus result }
    ensures ended { Ends F.fetches F.has files.old (W.contents out.old.held) (W.contents out.new.held) (map (λ word. word.now) words.now) result }
    ensures fetched { FetchesInOrder F.fetches (map (λ word. word.now) words.now) files.old files.new }
    ensures refused { result ≡ 2 → out.new ≡ out.old }
{
    let line = match line(alloc, words) {
        Ok(line) => line,
        Err(fault) => {
            tell_range("pbcube", &OPTIONS, &fault, words, err);
            return end_without_run(&fault, out, err);
        }
    };
    let (mut input, mut cubes) = match fetch_files(&line, files) {
        Ok(fetched) => fetched,
        Err(fault) => return end_at_fault(fault, err),
    };
    match run_on_readers(rt, alloc, line.options, &mut input, &mut cubes, out) {
        Ok(ran) => end_of_run(alloc, &line, ran, &mut input, &mut cubes, err),
        Err(fault) => end_at_fault(fault_on(&line, fault), err),
    }
}

/// The program's end where there was no memory for its words: it reports that, and ends with 1 where the output does not take
/// the report.
pub fn out_of_memory<W: Write, E: Write>(out: &mut Device<W>, err: &mut E) -> u8
    requires { out.old.failed ≡ false }
    ensures { EndsWithoutMemory (W.contents out.old.held) (W.contents out.new.held) result }
{
    match report_memory(out) {
        Ok(status) => status.exit_status(),
        Err(_) => end_at_fault(ProgramFault::CannotWrite, err),
    }
}

/// Runs on the input, and on the cube file, if there is one.
fn run_on_readers<R: Threads + Sync, I: Read + Drop, W: Write>(
    rt: &R,
    alloc: Global,
    options: Options,
    input: &mut I,
    cubes: &mut Option<I>,
    out: &mut Device<W>,
) -> Result<Ran, RunFault>
    requires { out.old.failed ≡ false }
    ensures headline { IfOk result (λ ran. ran.cut ≡ false → ran.status ≢ Status.Unknown
        → Reports options.format (I.remaining input.old) (option_map (λ file. I.remaining file) cubes.old) options.split
        (W.contents out.old.held) (W.contents out.new.held) ran.status) }
    ensures budgeted { IfOk result (λ ran. ran.cut ≡ true
        → ReportsFound options.format (I.remaining input.old) (option_map (λ file. I.remaining file) cubes.old) options.split
        (W.contents out.old.held) (W.contents out.new.held) ran.status) }
    ensures no_budget { IfNone options.nodes (IfOk result (λ ran. ran.cut ≡ false)) }
    ensures memory { IfOk result (λ ran. ran.cut ≡ false → ran.status ≡ Status.Unknown
        → Appends (W.contents out.old.held) (W.contents out.new.held) memory_report) }
{
    let mut input = Device::new(input);
    match cubes {
        Some(cubes) => {
            let mut cubes = Device::new(cubes);
            run(rt, alloc, &mut input, Some(&mut cubes), options, out)
        }
        None => {
            let none = None::<&mut Device<Empty>>;
            run(rt, alloc, &mut input, none, options, out)
        }
    }
}

/// Fetches the input, and after it the cube file where the line names one.
fn fetch_files<'a, F: Files>(
    line: &Line<'a>,
    files: &mut F,
) -> Result<(F::Input, Option<F::Input>), ProgramFault<'a>>
    ensures fetched { FetchesFor F.fetches line.now files.old files.new }
    ensures texts { IfOk result (λ r. HaveTexts F.fetches F.has line.now files.old (F.Input.remaining r.0) (option_map (λ cubes. F.Input.remaining cubes) r.1)) }
{
    let Some(input) = files.fetch(line.file) else {
        return Err(ProgramFault::CannotRead(line.file));
    };
    let Some(name) = line.cubes else {
        return Ok((input, None));
    };
    match files.fetch(name) {
        Some(cubes) => Ok((input, Some(cubes))),
        None => Err(ProgramFault::CannotRead(name)),
    }
}

/// The fault of a run, with the name of the file that failed.
fn fault_on<'a>(line: &Line<'a>, fault: RunFault) -> ProgramFault<'a> {
    match fault {
        RunFault::ReadInput => ProgramFault::CannotRead(line.file),
        RunFault::ReadCubes => ProgramFault::CannotRead(line.cubes.unwrap_or(line.file)),
        RunFault::Write => ProgramFault::CannotWrite,
    }
}

/// The end after a report. Where a text was refused, or workers had no work, a hint goes to the standard error; neither the
/// status nor what was written to the output depends on it.
fn end_of_run<I: Read + Rewind, E: Write>(
    alloc: Global,
    line: &Line<'_>,
    ran: Ran,
    input: &mut I,
    cubes: &mut Option<I>,
    err: &mut E,
) -> u8
    ensures { result ≡ exit_status ran.status }
{
    if ran.status == Status::Unsupported {
        diagnose(alloc, line, input, cubes, err);
    } else {
        tell_if_undivided(line, err);
    }
    ran.status.exit_status()
}

/// The end where the words ask for no run: help, the version, a refusal, or no memory.
fn end_without_run<W: Write, E: Write>(fault: &Error, out: &mut Device<W>, err: &mut E) -> u8
    requires { out.old.failed ≡ false }
    ensures ended { EndsBy (EndsWithoutMemory (W.contents out.old.held) (W.contents out.new.held)) (kind_of fault.now) result }
    ensures refused { result ≡ 2 → out.new ≡ out.old }
{
    match tell_fault(fault, out, err) {
        Ok(status) => status,
        Err(Untold::Memory) => out_of_memory(out, err),
        Err(Untold::Unwritten(_)) => end_at_fault(ProgramFault::CannotWrite, err),
    }
}

/// Writes one line to the standard error, whose own fault is ignored, and perhaps a second one with what may help.
fn end_at_fault<E: Write>(fault: ProgramFault<'_>, err: &mut E) -> u8
    ensures { result ≡ 1 }
{
    let _ = tell(fault, err);
    if let ProgramFault::CannotRead(name) = fault {
        tell_hint("pbcube", hint_on_name(name), err);
    }
    1
}

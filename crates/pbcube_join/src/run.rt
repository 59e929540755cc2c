//! The program over any files and any outputs.
ghost use Rattle.std.specs.Prelude.{◌≡◌, ◌≢◌, ◌≤◌, ◌<◌, ◌⊎◌, ℕ, List, [], length, false, true, map, IfOk, IfErr, IfSome};
ghost use Rattle.clap.specs.Words.{fault_of, kind_of};
ghost use Rattle.pb_inst.specs.Problem.{Problem};
ghost use Rattle.pb_join.specs.declared.faults.Rejection.{Rejection as Why};
ghost use Rattle.pb_line.specs.Ends.{EndsBy, IsShown};
ghost use Rattle.pbcube_join.specs.Ending.{Ends};
ghost use Rattle.pb_join.specs.declared.reports.PieceReport.{PieceReport};
ghost use Rattle.pb_line.specs.Joining.{pbcube_join};
ghost use Rattle.pbcube_join.specs.Joining.{JoinsAsAsked, JoinsFiles, JoinsLine, Tells, TellsOf};
ghost use Rattle.pb_files.specs.Reading.{ReadsReports};
ghost use Rattle.pb_files.specs.Texts.{texts};
ghost use Rattle.pb_report.specs.Statuses.{IsExitStatus};

use crate::again::{name_pieces_again, tell_of_no_report};
use crate::parts::{join_tasks, tell_tasks};
use clap::Error;
use pb_files::{
    Files, Named, Refusal, Reports, ReportsFault, Whole, count_pieces, named_files, read_instance,
    read_reports,
};
use pb_join::{JoinFault, Joined, PieceState, Rejection, join};
use pb_line::joining::{Line, line};
use pb_line::{LastFault, end_at_line, tell_failure, tell_hint, tell_range};
use pb_read::Format;
use pb_report::{Claim, Device, Status};
use std::alloc::Global;
use std::io::{self, Write};

/// The options that take a number.
const OPTIONS: [&str; 2] = ["--pieces", "--tasks"];

/// Runs the program on its words, of which the first is its own name, and answers its exit status. Where the words are refused
/// nothing is written. Nor is anything written after any other fault, unless clap found a fault in the words or the output has
/// failed. Where the output notes its faults, these tell why it failed.
pub fn program<'a, F: Files, W: Write, E: Write>(
    alloc: Global,
    words: &'a [&'a str],
    files: &mut F,
    faults: &LastFault,
    out: &mut Device<W>,
    err: &mut E,
) -> u8
    requires { out.old.failed ≡ false }
    ensures status { IsExitStatus result }
    ensures ended { Ends (map (λ word. word.now) words.now) result }
    ensures joined { fault_of pbcube_join (map (λ word. word.now) words.now) ≡ [] → (result ≡ 1) ⊎ ((result ≡ 2) ⊎ JoinsAsAsked F.reads F.lists (map (λ word. word.now) words.now) files.old files.new (W.contents out.old.held) (W.contents out.new.held) result) }
    ensures refused { result ≡ 2 → out.new ≡ out.old }
    ensures unwritten { fault_of pbcube_join (map (λ word. word.now) words.now) ≡ [] → result ≡ 1 → (out.new ≡ out.old) ⊎ (out.new.failed ≡ true) }
{
    let line = match line(alloc, words) {
        Ok(line) => line,
        Err(fault) => {
            tell_range("pbcube_join", &OPTIONS, &fault, words, err);
            return end_without_run(&fault, out, err);
        }
    };
    match join_asked(alloc, &line, files, out, err) {
        Ok(status) => status.exit_status(),
        Err(fault) => end_at_fault(&fault, faults.get(), err),
    }
}

/// The program's end where there was no memory for its words.
pub fn out_of_memory<E: Write>(err: &mut E) -> u8
    ensures { result ≡ 1 }
{
    end_at_fault(&ReportsFault::Memory, None, err)
}

/// Joins what the line names, the reports of tasks where it tells the number of tasks and else those of pieces, and names what
/// is missing or was cut.
fn join_asked<'a, F: Files, W: Write, E: Write>(
    alloc: Global,
    line: &Line<'a>,
    files: &mut F,
    out: &mut Device<W>,
    err: &mut E,
) -> Result<Status, ReportsFault<'a>>
    requires pieces { IfSome line.now.pieces (λ n. 1 ≤ n) }
    requires out { out.old.failed ≡ false }
    ensures joins { IfOk result (JoinsLine F.reads F.lists line.now line.now.tasks files.old files.new (W.contents out.old.held) (W.contents out.new.held)) }
    ensures unwritten { IfErr result (λ fault. fault ≢ ReportsFault.CannotWrite → out.new ≡ out.old) }
    ensures kept { IfErr result (λ fault. (out.new ≡ out.old) ⊎ (out.new.failed ≡ true)) }
{
    match line.tasks {
        Some(tasks) => {
            let end = join_tasks(alloc, line, tasks, files, out)?;
            tell_tasks(&end, err);
            Ok(end.status())
        }
        None => {
            let joined = join_line(alloc, line, files, out, err)?;
            name_pieces(&joined, err);
            Ok(joined.status)
        }
    }
}

/// Reads what the line names: the instance, then the indexes, then the reports. Joins the reports and writes what they make.
/// Where anything is refused nothing is written. Names on the standard error the reports of runs that refused their input.
fn join_line<'a, F: Files, W: Write, E: Write>(
    alloc: Global,
    line: &Line<'a>,
    files: &mut F,
    out: &mut Device<W>,
    err: &mut E,
) -> Result<Joined, ReportsFault<'a>>
    requires pieces { IfSome line.now.pieces (λ n. 1 ≤ n) }
    requires out { out.old.failed ≡ false }
    ensures tells { IfOk result (λ joined. (p : Problem) × (pieces : ℕ) × Tells line.now.format p pieces (W.contents out.old.held) (W.contents out.new.held) joined) }
    ensures joins { IfOk result (JoinsFiles F.reads F.lists line.now files.old files.new (W.contents out.old.held) (W.contents out.new.held)) }
    ensures unwritten { IfErr result (λ fault. fault ≢ ReportsFault.CannotWrite → out.new ≡ out.old) }
    ensures kept { IfErr result (λ fault. (out.new ≡ out.old) ⊎ (out.new.failed ≡ true)) }
{
    let format = line.format;
    let whole = read_instance(alloc, format, line.file, files)?;
    let named = named_files(alloc, &line.reports, files)?;
    let Named { reports, indexes } = named;
    let pieces = count_pieces(alloc, format, &whole, line.pieces, indexes, &reports, files)?;
    join_files(alloc, format, &whole, pieces, reports, files, out, err)
}

/// Reads the reports from the files of these names, joins them and writes what they make. Names the reports of runs that refused
/// their input.
fn join_files<'a, F: Files, W: Write, E: Write>(
    alloc: Global,
    format: Format,
    whole: &Whole,
    pieces: u32,
    names: Vec<String>,
    files: &mut F,
    out: &mut Device<W>,
    err: &mut E,
) -> Result<Joined, ReportsFault<'a>>
    requires pieces { 1 ≤ pieces }
    requires out { out.old.failed ≡ false }
    ensures tells { IfOk result (Tells format whole.now.instance pieces (W.contents out.old.held) (W.contents out.new.held)) }
    ensures joins { IfOk result (λ joined. (reports : List PieceReport) × ReadsReports F.reads format whole.now.instance.vars (texts names) reports files.old files.new × TellsOf format whole.now.instance pieces reports (W.contents out.old.held) (W.contents out.new.held) joined) }
    ensures unwritten { IfErr result (λ fault. fault ≢ ReportsFault.CannotWrite → out.new ≡ out.old) }
    ensures kept { IfErr result (λ fault. (out.new ≡ out.old) ⊎ (out.new.failed ≡ true)) }
{
    let Whole { instance, digest } = whole;
    let read = read_reports(alloc, format, instance.vars(), digest, names, files)?;
    match join(alloc, format, instance, pieces, &read.reports, out) {
        Ok(joined) => {
            name_refused(&read, err);
            Ok(joined)
        }
        Err(fault) => {
            let other = name_of_other(&fault, &read);
            Err(fault_of(fault, read.names, other))
        }
    }
}

/// The name of the file with the earlier report of the same piece as the rejected one, if there is one and memory for it.
fn name_of_other(fault: &JoinFault, read: &Reports) -> Option<String> {
    let JoinFault::Report {
        place,
        why: Rejection::Doubled,
    } = fault
    else {
        return None;
    };
    let piece = read.reports.get(*place)?.number;
    let other = read
        .reports
        .iter()
        .position(|report| report.number == piece)?;
    read.names.get(other)?.clone().ok()
}

/// Why the reports from the files of these names were not joined. The rejected one may not go with that in another file.
fn fault_of<'a>(fault: JoinFault, mut names: Vec<String>, other: Option<String>) -> ReportsFault<'a>
    requires { (place : ℕ) → (why : Why) → fault ≡ JoinFault.Report place why → place < length names.items }
    ensures { fault ≡ JoinFault.Write → result ≡ ReportsFault.CannotWrite }
{
    match fault {
        JoinFault::Write => ReportsFault::CannotWrite,
        JoinFault::Memory => ReportsFault::Memory,
        JoinFault::Report { place, why } => {
            let name = names.swap_remove(place);
            ReportsFault::of_report(name, Refusal::Rejected(why), other)
        }
    }
}

/// Writes one line to the standard error for each of these reports whose run refused its input.
fn name_refused<E: Write>(read: &Reports, err: &mut E) {
    for (name, report) in read.names.iter().zip(&read.reports) {
        if matches!(report.claim, Claim::Unsupported) {
            let _ = writeln!(err, "pbcube_join: {name}: its run refused its input");
        }
    }
}

/// Writes one line to the standard error for each piece that is missing or was cut, and one that names them all, unless every
/// piece is done; and one more where there is no report.
fn name_pieces<E: Write>(joined: &Joined, err: &mut E) {
    if joined
        .states
        .iter()
        .all(|state| *state == PieceState::Missing)
    {
        tell_of_no_report(err);
    }
    for (number, state) in joined.states.iter().enumerate() {
        let _ = name_piece(number, *state, err);
    }
    if !joined.whole {
        name_pieces_again(&joined.states, err);
    }
}

fn name_piece<E: Write>(number: usize, state: PieceState, err: &mut E) -> io::Result<()> {
    match state {
        PieceState::Missing => writeln!(err, "pbcube_join: piece {number} has no report"),
        PieceState::Cut => writeln!(err, "pbcube_join: piece {number} was not solved to its end"),
        PieceState::Done => Ok(()),
    }
}

/// The end where the words ask for no run: help, the version, a refusal, or no memory.
fn end_without_run<W: Write, E: Write>(fault: &Error, out: &mut Device<W>, err: &mut E) -> u8
    requires { out.old.failed ≡ false }
    ensures ended { EndsBy (λ status. status ≡ 1) (kind_of fault.now) result }
    ensures refused { result ≡ 2 → out.new ≡ out.old }
    ensures kept { (IsShown (kind_of fault.now) → ⊥) → out.new ≡ out.old }
{
    match end_at_line("pbcube_join", fault, out, err) {
        Some(status) => status,
        None => out_of_memory(err),
    }
}

/// Writes one line to the standard error, with the reason where the output failed, unless whoever reads the output wants no
/// more of it. Where the instance is refused, a second line has what may help.
fn end_at_fault<E: Write>(fault: &ReportsFault<'_>, of_output: Option<io::Error>, err: &mut E) -> u8
    ensures { result ≡ 1 }
{
    let reason = match fault {
        ReportsFault::CannotWrite => of_output,
        _ => None,
    };
    tell_failure("pbcube_join", fault, reason, err);
    tell_hint("pbcube_join", fault.hint(), err);
    1
}

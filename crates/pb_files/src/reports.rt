//! Reading the instance and the reports from their files.
ghost use Rattle.std.specs.Prelude.{◌≡◌, ◌<◌, ◌++◌, ℕ, List, length, option_to_list, IfErr, IfOk, OnOk};
ghost use Rattle.pb_files.specs.Reading.{HasIfAny, IfFaulty, IsReportOf, ReadsFaulty, ReadsInstance, ReadsReports};
ghost use Rattle.pb_files.specs.Texts.{texts};

use crate::clue::Clue;
use crate::files::Files;
use crate::hints::hint_on_instance;
use crate::lines::tasks_told;
use crate::listing::piece_number;
use crate::reports_fault::{Refusal, ReportsFault};
use crate::whole::Whole;
use pb_join::PieceReport;
use pb_read::{Format, ReadKind, read};
use pb_report::{ReportFault, ReportKind, read_report};
use sha2::{Digest, Sha256};
use std::alloc::Global;
use std::io::{self, ErrorKind};

/// Reports, and the names of the files that have them, in the same order.
#[derive(Drop)]
pub struct Reports {
    pub names: Vec<String>,
    pub reports: Vec<PieceReport>,
}

/// The whole instance, from the file of this name, and the digest of its text. Its own cubes are no part of it.
pub fn read_instance<'a, F: Files>(
    alloc: Global,
    format: Format,
    file: &'a str,
    files: &mut F,
) -> Result<Whole, ReportsFault<'a>>
    ensures read { IfOk result (λ whole. ReadsInstance F.reads format file.now whole.instance whole.digest files.old files.new) }
    ensures faulty { IfErr result (λ fault. IfFaulty fault (λ why. ReadsFaulty F.reads format file.now why files.old files.new)) }
{
    let text = match files.read(file) {
        Ok(text) => text,
        Err(error) => return Err(unreadable(file, &error)),
    };
    match read(alloc, format, &text) {
        Ok((instance, cubes)) => {
            drop(cubes);
            Ok(Whole {
                instance,
                digest: Sha256::digest(text.as_slice()),
            })
        }
        Err(fault) if fault.kind == ReadKind::Memory => Err(ReportsFault::Memory),
        Err(fault) => {
            let hint = hint_on_instance(alloc, file, format, &text, fault, true);
            Err(ReportsFault::Refused(file, fault, hint))
        }
    }
}

/// Why the file or folder of this name was not read.
pub fn unreadable<'a>(name: &'a str, error: &io::Error) -> ReportsFault<'a>
    ensures { IfFaulty result (λ why. ⊥) }
{
    if error.kind() == ErrorKind::OutOfMemory {
        ReportsFault::Memory
    } else {
        ReportsFault::CannotRead(name, *error)
    }
}

/// The reports from the files of these names, of an instance of `vars` variables with this digest. An empty file has none.
pub fn read_reports<'a, F: Files>(
    alloc: Global,
    format: Format,
    vars: u32,
    digest: &[u8; 32],
    names: Vec<String>,
    files: &mut F,
) -> Result<Reports, ReportsFault<'a>>
    ensures counted { IfOk result (λ read. length read.names.items ≡ length read.reports.items) }
    ensures read { IfOk result (λ read. ReadsReports F.reads format vars (texts names) read.reports.items files.old files.new) }
{
    let mut with_report = Vec::new(alloc);
    let mut reports = Vec::new(alloc);
    for place in 0..names.len() {
        match read_one(alloc, format, vars, digest, &names[place], files) {
            Ok(report) => keep(&names[place], report, &mut with_report, &mut reports)?,
            Err(why) => return Err(fault_at(names, place, why)),
        }
    }
    Ok(Reports {
        names: with_report,
        reports,
    })
}

/// Takes in one more report, if there is one, and the name of the file that has it.
pub fn keep<'a, R: Drop>(
    name: &String,
    report: Option<R>,
    names: &mut Vec<String>,
    reports: &mut Vec<R>,
) -> Result<(), ReportsFault<'a>>
    ensures counted { length names.old.items ≡ length reports.old.items → OnOk result (length names.new.items ≡ length reports.new.items) }
    ensures reports { OnOk result (reports.new.items ≡ reports.old.items ++ option_to_list report) }
{
    if let Some(report) = report {
        names.push(name.clone()?)?;
        reports.push(report)?;
    }
    Ok(())
}

/// Why the file of the name at this place was not taken.
pub fn fault_at<'a>(mut names: Vec<String>, place: usize, why: Unread) -> ReportsFault<'a>
    requires { place < length names.items }
{
    match why {
        Unread::Memory => ReportsFault::Memory,
        Unread::Refused(why) => ReportsFault::Report(names.swap_remove(place), why),
    }
}

/// Why one file was not taken.
#[derive(Drop)]
pub enum Unread {
    Memory,
    Refused(Refusal),
}

/// The report from the file of this name, or none where the file is empty.
fn read_one<F: Files>(
    alloc: Global,
    format: Format,
    vars: u32,
    digest: &[u8; 32],
    name: &str,
    files: &mut F,
) -> Result<Option<PieceReport>, Unread>
    ensures { IfOk result (λ report. (text : List ℕ) × F.reads files.old name.now text files.new × HasIfAny (IsReportOf format vars name.now) text report) }
{
    let Some(number) = piece_number(name) else {
        return Err(Unread::Refused(Refusal::NoNumber));
    };
    let text = read_file(name, files)?;
    if text.is_empty() {
        return Ok(None);
    }
    if let Some(tasks) = tasks_told(&text, digest) {
        return Err(Unread::Refused(Refusal::OfTask(tasks)));
    }
    match read_report(alloc, format, vars, &text) {
        Ok(claim) => Ok(Some(PieceReport { number, claim })),
        Err(fault) if fault.kind == ReportKind::Memory => Err(Unread::Memory),
        Err(fault) => Err(Unread::Refused(refusal_of(fault, &text))),
    }
}

/// Why a text with this fault is not taken. Where it says nothing of the answer, its first bytes may tell why, and else the line of
/// the fault, where that is no line of a report.
fn refusal_of(fault: ReportFault, text: &[u8]) -> Refusal {
    let begun = text.trim_ascii_start();
    if !begun.is_empty() && !tells_status(begun) {
        return Refusal::Stray(fault, Clue::of_foreign(begun));
    }
    let clue = match fault.kind {
        ReportKind::Syntax => Clue::of(text, fault.line, false),
        _ => None,
    };
    match clue {
        Some(clue) => Refusal::Stray(fault, clue),
        None => Refusal::Faulty(fault),
    }
}

/// The first of these files that is the report of a task on the instance of this digest, and the number of tasks that it tells.
/// Files that cannot be read are passed over, unless memory runs out.
pub fn report_of_task<'n, F: Files>(
    digest: &[u8; 32],
    names: &'n [String],
    files: &mut F,
) -> Result<Option<(&'n String, u32)>, Unread> {
    for name in names {
        match read_file(name, files) {
            Ok(text) => {
                if let Some(tasks) = tasks_told(&text, digest) {
                    return Ok(Some((name, tasks)));
                }
            }
            Err(Unread::Memory) => return Err(Unread::Memory),
            Err(Unread::Refused(_)) => {}
        }
    }
    Ok(None)
}

/// Whether a line of the text begins as one of a status does.
pub fn tells_status(text: &[u8]) -> bool {
    text.split(|byte| *byte == b'\n')
        .any(|line| line.starts_with(b"s "))
}

/// All bytes of the file of this name.
pub fn read_file<F: Files>(name: &str, files: &mut F) -> Result<Vec<u8>, Unread>
    ensures { IfOk result (λ text. F.reads files.old name.now text.items files.new) }
{
    match files.read(name) {
        Ok(text) => Ok(text),
        Err(error) if error.kind() == ErrorKind::OutOfMemory => Err(Unread::Memory),
        Err(error) => Err(Unread::Refused(Refusal::Unreadable(error))),
    }
}

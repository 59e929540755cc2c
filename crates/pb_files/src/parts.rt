//! Reading the reports of tasks from their files.
ghost use Rattle.std.specs.Prelude.{◌≡◌, ◌<◌, ℕ, List, drop, length, map, string_bytes, IfOk, IsTrue};
ghost use Rattle.pb_files.specs.Reading.{ReadsSame};
ghost use Rattle.pb_files.specs.Tasks.{AreFitTasks, IsOfDivision, IsReportOfTask, ReadsTasks};
ghost use Rattle.pb_files.specs.Texts.{texts};
ghost use Rattle.pb_report.specs.Written.{refusal_report};

use crate::clue::Clue;
use crate::files::Files;
use crate::lines::{has_line_of_heading, line_at, tells_other_digest};
use crate::quote::Quote;
use crate::refusals::{read_refusal, refusal_text};
use crate::reports::{Unread, fault_at, keep, read_file, report_of_task, tells_status};
use crate::reports_fault::{Refusal, ReportsFault};
use pb_inst::MAX_SPLIT;
use pb_join::PartRejection;
use pb_parts::{PartFault, PartKind, PartReport, read_part};
use pb_read::{Format, ReadFault};
use pb_report::{Refusal as InputRefusal, ReportKind};
use std::alloc::{AllocError, Global};

/// Reports of parts, and the names of the files that have them, in the same order.
#[derive(Drop)]
pub struct PartReports {
    pub names: Vec<String>,
    pub parts: Vec<PartReport>,
}

/// What the reports of all tasks are.
#[derive(Drop)]
pub enum TaskReports {
    /// Reports of parts, of some tasks or all.
    Parts(PartReports),
    /// A report of each task, and all of them refuse this, which is to divide the instance.
    Refused(InputRefusal),
}

/// What the report of one task is.
#[derive(Drop)]
pub enum TaskReport {
    /// The report of a part, or none where the file is empty.
    Part(Option<PartReport>),
    /// A refusal of this, and its first line.
    Refused(InputRefusal, Quote),
}

/// The reports of `tasks` tasks from the files of these names, of an instance of `vars` variables with this digest. An empty file
/// has none.
pub fn read_tasks<'a, F: Files>(
    alloc: Global,
    format: Format,
    vars: u32,
    digest: &[u8; 32],
    tasks: u32,
    names: Vec<String>,
    files: &mut F,
) -> Result<TaskReports, ReportsFault<'a>>
    ensures fit { IfOk result AreFitTasks }
    ensures read { IfOk result (λ read. ReadsTasks F.reads format vars tasks (texts names) read files.old files.new) }
{
    let mut with_part = Vec::new(alloc);
    let mut parts = Vec::new(alloc);
    for place in 0..names.len() {
        match read_one(alloc, format, vars, digest, &names[place], files) {
            Ok(TaskReport::Part(part)) => keep(&names[place], part, &mut with_part, &mut parts)?,
            Ok(TaskReport::Refused(refusal, quote)) => {
                if place == 0 && others_refuse(alloc, refusal, vars, tasks, &names, files)? {
                    return Ok(TaskReports::Refused(refusal));
                }
                let why = Refusal::RefusedTask(quote);
                return Err(fault_at(names, place, Unread::Refused(why)));
            }
            Err(why) => {
                let why = beside_tasks(why, digest, &names, files);
                return Err(fault_at(names, place, why));
            }
        }
    }
    Ok(TaskReports::Parts(PartReports {
        names: with_part,
        parts,
    }))
}

/// Why a file was not taken that seemed to be the report of a piece, where another one of these is the report of a task.
fn beside_tasks<F: Files>(
    why: Unread,
    digest: &[u8; 32],
    names: &[String],
    files: &mut F,
) -> Unread {
    if !matches!(why, Unread::Refused(Refusal::OfPiece)) {
        return why;
    }
    match report_of_task(digest, names, files) {
        Ok(Some(_)) => Unread::Refused(Refusal::OfNoTask),
        Ok(None) => why,
        Err(why) => why,
    }
}

/// Whether there are as many names as tasks, and the files of all but the first refuse this. It has to be a refusal to divide the
/// instance of `vars` variables, since the instance was read. Fails where memory runs out, and where all refuse it and the names or
/// the instance tell that not every task did.
fn others_refuse<'a, F: Files>(
    alloc: Global,
    refusal: InputRefusal,
    vars: u32,
    tasks: u32,
    names: &[String],
    files: &mut F,
) -> Result<bool, ReportsFault<'a>>
    requires { 0 < length names.now }
    ensures of_division { IfOk result (λ all. IsTrue all → IsOfDivision refusal) }
    ensures counted { IfOk result (λ all. IsTrue all → length names.now ≡ tasks) }
    ensures read { IfOk result (λ all. IsTrue all → ReadsSame F.reads (refusal_report refusal) (map string_bytes (drop 1 names.now)) files.old files.new) }
{
    let is_of_instance = matches!(refusal, InputRefusal::Input(_));
    if is_of_instance || names.len() != tasks as usize {
        return Ok(false);
    }
    let all = all_refuse(alloc, refusal, &names[1..], files)?;
    if all {
        check_refusals(alloc, refusal, vars, names)?;
    }
    Ok(all)
}

/// Fails where the reports in the files of these names cannot be those of all tasks on an instance of `vars` variables, though each
/// refuses this: a file is named twice, or the instance has variables enough for every split.
fn check_refusals<'a>(
    alloc: Global,
    refusal: InputRefusal,
    vars: u32,
    names: &[String],
) -> Result<(), ReportsFault<'a>> {
    if let Some(name) = named_twice(alloc, names)? {
        return Err(ReportsFault::Report(name, Refusal::NamedTwice));
    }
    match names.first() {
        Some(name) if refusal == InputRefusal::Split && vars >= MAX_SPLIT => {
            Err(ReportsFault::Report(name.clone()?, Refusal::RefusedOther(vars)))
        }
        _ => Ok(()),
    }
}

/// A name that stands at two places of the list, if there is one.
fn named_twice(alloc: Global, names: &[String]) -> Result<Option<String>, AllocError> {
    let sorted = sorted(alloc, names)?;
    let mut before = None;
    for name in sorted.iter() {
        if before == Some(*name) {
            return Ok(Some(String::from_str(alloc, *name)?));
        }
        before = Some(*name);
    }
    Ok(None)
}

fn sorted<'n>(alloc: Global, names: &'n [String]) -> Result<Vec<&'n str>, AllocError> {
    let mut sorted = Vec::new(alloc);
    for name in names {
        sorted.push(name.as_str())?;
    }
    sorted.sort_unstable();
    Ok(sorted)
}

/// Whether there are as many names as tasks, and the files of all these names refuse the text of the instance for this fault. Fails
/// only where memory runs out.
pub fn all_refuse_text<'a, F: Files>(
    alloc: Global,
    fault: ReadFault,
    tasks: u32,
    names: &[String],
    files: &mut F,
) -> Result<bool, ReportsFault<'a>>
    ensures counted { IfOk result (λ all. IsTrue all → length names.now ≡ tasks) }
    ensures read { IfOk result (λ all. IsTrue all → ReadsSame F.reads (refusal_report (InputRefusal.Input fault)) (map string_bytes names.now) files.old files.new) }
{
    if names.len() != tasks as usize {
        return Ok(false);
    }
    all_refuse(alloc, InputRefusal::Input(fault), names, files)
}

/// Whether the files of these names are reports that refuse this. Fails only where memory runs out.
fn all_refuse<'a, F: Files>(
    alloc: Global,
    refusal: InputRefusal,
    names: &[String],
    files: &mut F,
) -> Result<bool, ReportsFault<'a>>
    ensures { IfOk result (λ all. IsTrue all → ReadsSame F.reads (refusal_report refusal) (map string_bytes names.now) files.old files.new) }
{
    let Ok(report) = refusal_text(alloc, refusal) else {
        return Err(ReportsFault::Memory);
    };
    for name in names {
        let is_same = has_text(name, report.as_slice(), files)?;
        if !is_same {
            return Ok(false);
        }
    }
    Ok(true)
}

/// Whether the file of this name can be read and has this text. Fails only where memory runs out.
fn has_text<'a, F: Files>(name: &str, text: &[u8], files: &mut F) -> Result<bool, ReportsFault<'a>>
    ensures { IfOk result (λ same. IsTrue same → F.reads files.old name.now text.now files.new) }
{
    match read_file(name, files) {
        Ok(found) => Ok(*found.as_slice() == *text),
        Err(Unread::Memory) => Err(ReportsFault::Memory),
        Err(Unread::Refused(_)) => Ok(false),
    }
}

/// The report of a task from the file of this name.
fn read_one<F: Files>(
    alloc: Global,
    format: Format,
    vars: u32,
    digest: &[u8; 32],
    name: &str,
    files: &mut F,
) -> Result<TaskReport, Unread>
    ensures { IfOk result (λ report. (text : List ℕ) × F.reads files.old name.now text files.new × IsReportOfTask format vars text report) }
{
    let text = read_file(name, files)?;
    if text.is_empty() {
        return Ok(TaskReport::Part(None));
    }
    if let Some(refusal) = read_refusal(alloc, &text)? {
        return Ok(TaskReport::Refused(refusal, Quote::of_first_line(&text)));
    }
    match read_part(alloc, format, vars, &text) {
        Ok(part) => Ok(TaskReport::Part(Some(part))),
        Err(fault) if fault.kind == PartKind::Memory => Err(Unread::Memory),
        Err(fault) => Err(Unread::Refused(refusal_of(fault, &text, digest))),
    }
}

/// Why a text with this fault is not taken: first of all, since it is of an instance with another digest.
fn refusal_of(fault: PartFault, text: &[u8], digest: &[u8; 32]) -> Refusal {
    if tells_other_digest(line_at(text, 0), b"c part ", digest) {
        Refusal::RejectedPart(PartRejection::OtherInstance)
    } else if text.starts_with(b"c refused") {
        Refusal::SearchedNothing(Quote::of_first_line(text))
    } else if tells_status(text) && !has_line_of_heading(text) {
        Refusal::OfPiece
    } else {
        match stray_line(fault, text) {
            Some(clue) => Refusal::StrayPart(fault, clue),
            None => Refusal::FaultyPart(fault),
        }
    }
}

/// What the line of the fault tells, where it is no line of the report of a task.
fn stray_line(fault: PartFault, text: &[u8]) -> Option<Clue> {
    match fault.kind {
        PartKind::Heading => Clue::of(text, fault.line, true),
        PartKind::Report(ReportKind::Syntax) => Clue::of(text, fault.line, false),
        _ => None,
    }
}

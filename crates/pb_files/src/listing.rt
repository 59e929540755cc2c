//! The names of the files of reports, and of indexes.
ghost use Rattle.std.specs.Prelude.{◌≡◌, ◌-◌, List, Option, filter, length, map, string_bytes, IfOk, IfSome, IsPermutation};
ghost use Rattle.std.specs.Char.{is_ascii_digit};
ghost use Rattle.std.specs.List.{suffix_len};
ghost use Rattle.pb_files.specs.Reading.{is_index_name, is_report_name, AreNamedBy, IsNumberOf, ListsFiles};
ghost use Rattle.pb_files.specs.Texts.{Text, texts};

use crate::files::Files;
use crate::reports::unreadable;
use crate::reports_fault::ReportsFault;
use std::alloc::Global;
use std::path::Path;

/// The number that ends a file's name before its last dot, if there is one and it fits 32 bits.
pub fn piece_number(name: &str) -> Option<u32>
    ensures { IfSome result (IsNumberOf name.now) }
{
    let stem = Path::new(name).file_stem()?;
    let digits = stem.get(digits_start(stem.as_bytes())..)?;
    digits.parse::<u32>().ok()
}

/// The place where the digits at the end of the text begin.
fn digits_start(text: &[u8]) -> usize
    ensures { result ≡ length text.now - suffix_len is_ascii_digit text.now }
{
    let mut start = text.len();
    while start > 0 && text[start - 1].is_ascii_digit() {
        start -= 1;
    }
    start
}

/// The names of the files that operands name.
#[derive(Drop)]
pub struct Named {
    /// Those of reports.
    pub reports: Vec<String>,
    /// Those of indexes.
    pub indexes: Vec<String>,
}

/// The names of the files that the operands name: an operand that is no folder is the file of a report; for a folder, the reports
/// are its files that end in `.report`, in the order of their names, and its index is listed where it has one.
pub fn named_files<'a, F: Files>(
    alloc: Global,
    operands: &[&'a str],
    files: &mut F,
) -> Result<Named, ReportsFault<'a>>
    ensures { IfOk result (λ named. ListsFiles F.lists (map (λ name. name.now) operands.now) (texts named.reports) (texts named.indexes) files.old files.new) }
{
    let mut reports = Vec::new(alloc);
    let mut indexes = Vec::new(alloc);
    for operand in operands {
        let mut more = named_by(alloc, *operand, files)?;
        reports.append(&mut more.reports)?;
        indexes.append(&mut more.indexes)?;
    }
    Ok(Named { reports, indexes })
}

/// The names of the files that one operand names.
fn named_by<'a, F: Files>(
    alloc: Global,
    operand: &'a str,
    files: &mut F,
) -> Result<Named, ReportsFault<'a>>
    ensures { IfOk result (λ named. (found : Option (List Text)) × F.lists files.old operand.now found files.new × AreNamedBy operand.now found (texts named.reports) (texts named.indexes)) }
{
    match files.list(operand) {
        Ok(None) => {
            let mut reports = Vec::new(alloc);
            reports.push(String::from_str(alloc, operand)?)?;
            let indexes = Vec::new(alloc);
            Ok(Named { reports, indexes })
        }
        Ok(Some(found)) => named_in(alloc, found),
        Err(error) => Err(unreadable(operand, &error)),
    }
}

/// The names of the files among those that were found in a folder.
fn named_in<'a>(alloc: Global, mut found: Vec<String>) -> Result<Named, ReportsFault<'a>>
    ensures reports { IfOk result (λ named. IsPermutation (filter is_report_name (texts found)) (texts named.reports)) }
    ensures indexes { IfOk result (λ named. texts named.indexes ≡ filter is_index_name (texts found)) }
{
    let indexes = indexes_among(alloc, &found)?;
    found.retain(|name| is_report(name.as_str()));
    found.sort_unstable();
    Ok(Named {
        reports: found,
        indexes,
    })
}

/// The names among these that are of indexes.
fn indexes_among<'a>(alloc: Global, found: &[String]) -> Result<Vec<String>, ReportsFault<'a>>
    ensures { IfOk result (λ indexes. texts indexes ≡ filter is_index_name (map string_bytes found.now)) }
{
    let mut indexes = Vec::new(alloc);
    for name in found {
        if is_index(name.as_str()) {
            indexes.push(String::from_str(alloc, name.as_str())?)?;
        }
    }
    Ok(indexes)
}

/// Whether a file of this name in a folder is its index.
fn is_index(name: &str) -> bool
    ensures { result ≡ is_index_name name.now }
{
    name.ends_with("/index")
}

/// Whether a file of this name in a folder is a report.
fn is_report(name: &str) -> bool
    ensures { result ≡ is_report_name name.now }
{
    name.ends_with(".report")
}

//! What may help with inputs that are refused.
use pb_hint::{HintLine, hint_on, hint_on_cubes};
use pb_read::{Format, ReadFault};
use std::alloc::Global;

/// What may help with the instance in this file, whose text was refused, if there is a hint to give and memory for it. The names of
/// reports may follow that of the instance.
pub fn hint_on_instance(
    alloc: Global,
    file: &str,
    format: Format,
    text: &[u8],
    fault: ReadFault,
    reports_follow: bool,
) -> Option<String> {
    let hint = hint_on(format, text, fault)?;
    let line = if reports_follow {
        HintLine::of_first(file, hint)
    } else {
        HintLine::of_file(file, hint)
    };
    written(alloc, line)
}

/// What may help with the cubes over `vars` variables in the file of this name, whose text was refused.
pub fn hint_on_cube_file(
    alloc: Global,
    name: &str,
    text: &[u8],
    vars: u32,
    fault: ReadFault,
) -> Option<String> {
    let hint = hint_on_cubes(text, vars, fault)?;
    written(alloc, HintLine::of_file(name, hint))
}

/// What may help where cubes and a split do not divide the instance of `vars` variables in this file, though each can be read.
pub fn hint_on_division(alloc: Global, file: &str, vars: u32, split: u32) -> Option<String> {
    written(alloc, HintLine::of_division(file, vars, split))
}

/// The line as a text, if there is memory for it.
fn written(alloc: Global, line: HintLine<'_>) -> Option<String> {
    format!(in alloc; "{line}").ok()
}

//! Hints on standard error.
use crate::args::Line;
use crate::files::Rewind;
use pb_hint::{HintLine, hint_on, hint_on_cubes};
use pb_line::{tell_hint, tell_of_one_piece};
use pb_read::{Format, ReadFault, read, read_cubes};
use std::alloc::Global;
use std::io::{Read, Write};

/// Writes one line to the standard error where several workers have one piece. The cubes of an iCNF text are not known yet.
pub fn tell_if_undivided<E: Write>(line: &Line<'_>, err: &mut E) {
    let options = &line.options;
    let has_cubes = line.cubes.is_some() || options.format == Format::Icnf;
    if options.split == 0 && !has_cubes {
        tell_of_one_piece("pbcube", options.workers, err);
    }
}

/// Writes one line to the standard error that may help with inputs that were refused, if there is such a hint. The inputs are
/// read again from their starts for it. An input that cannot go back there, such as a pipe, has no hint, and faults on the way are
/// ignored.
pub fn diagnose<I: Read + Rewind, E: Write>(
    alloc: Global,
    line: &Line<'_>,
    input: &mut I,
    cubes: &mut Option<I>,
    err: &mut E,
) {
    let Some(text) = read_again(alloc, input) else {
        return;
    };
    let vars = match read(alloc, line.options.format, &text) {
        Ok((instance, _)) => instance.vars(),
        Err(fault) => return tell_of_instance(line, &text, fault, err),
    };
    if let (Some(name), Some(cubes)) = (line.cubes, cubes) {
        match read_again(alloc, cubes) {
            Some(text) => {
                if let Err(fault) = read_cubes(alloc, &text, vars) {
                    return tell_of_cubes(name, &text, vars, fault, err);
                }
            }
            None => return,
        }
    }
    let of_division = HintLine::of_division(line.file, vars, line.options.split);
    tell_hint("pbcube", Some(of_division), err);
}

/// All that the input has, from its start.
fn read_again<I: Read + Rewind>(alloc: Global, input: &mut I) -> Option<Vec<u8>> {
    if !input.rewind_to_start() {
        return None;
    }
    let mut text = Vec::new(alloc);
    input.read_to_end(&mut text).ok()?;
    Some(text)
}

/// Writes the hint on the instance, if there is one.
fn tell_of_instance<E: Write>(line: &Line<'_>, text: &[u8], fault: ReadFault, err: &mut E) {
    if let Some(hint) = hint_on(line.options.format, text, fault) {
        let of_instance = HintLine::of_instance(line.file, hint);
        tell_hint("pbcube", Some(of_instance), err);
    }
}

/// Writes the hint on the cubes in the file of this name, if there is one.
fn tell_of_cubes<E: Write>(name: &str, text: &[u8], vars: u32, fault: ReadFault, err: &mut E) {
    if let Some(hint) = hint_on_cubes(text, vars, fault) {
        tell_hint("pbcube", Some(HintLine::of_file(name, hint)), err);
    }
}

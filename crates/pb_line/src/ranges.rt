//! The numbers that options take, for a command line that has another word in place of one.
use crate::options::MAX_NODES;
use crate::tasks::MAX_TASKS;
use clap::Error;
use clap::error::ErrorKind;
use pb_inst::{MAX_PIECES, MAX_SPLIT, MAX_WORKERS};
use std::io::Write;

/// Writes one line to the standard error where one of these options of the program has a word that is no number, or a negative
/// one. What clap tells of such a word has no range, and of a negative number that it is an unknown option.
pub fn tell_range<E: Write>(
    program: &str,
    options: &[&str],
    fault: &Error,
    words: &[&str],
    err: &mut E,
) {
    let mut before = "";
    for word in words {
        let (option, value) = word.split_once("=").unwrap_or((before, *word));
        let is_known = options.iter().any(|it| *it == option);
        if is_known
            && is_refused(value, fault.kind())
            && let Some((least, most)) = range_of(option)
        {
            let _ = writeln!(
                err,
                "{program}: {option} takes a number from {least} to {most}"
            );
            return;
        }
        before = *word;
    }
}

/// Whether a fault of this kind may be that this word stands in place of a number.
fn is_refused(word: &str, kind: ErrorKind) -> bool {
    match kind {
        ErrorKind::UnknownArgument => is_negative(word),
        ErrorKind::ValueValidation => word.parse::<u64>().is_err(),
        _ => false,
    }
}

fn is_negative(word: &str) -> bool {
    match word.strip_prefix("-") {
        Some(digits) => !digits.is_empty() && digits.bytes().all(|byte| byte.is_ascii_digit()),
        None => false,
    }
}

/// The least and the greatest number that the option of this name takes, in each program that has it.
fn range_of(option: &str) -> Option<(u64, u64)> {
    match option {
        "--workers" => Some((1, u64::from(MAX_WORKERS))),
        "--split" => Some((0, u64::from(MAX_SPLIT))),
        "--nodes" => Some((0, MAX_NODES)),
        "--task" => Some((0, MAX_TASKS)),
        "--tasks" => Some((1, MAX_TASKS)),
        "--pieces" => Some((1, MAX_PIECES)),
        _ => None,
    }
}

//! How a program tells what it could not do.
ghost use Rattle.std.specs.Prelude.{◌≡◌, IfSome};
ghost use Rattle.std.specs.IoError.{error_kind};

use pb_inst::Workers;
use std::fmt::Display;
use std::io::{Error, ErrorKind, Write};

/// Writes one line to the standard error, unless the reader of the output has closed it: the program's name, what it could not
/// do, and the system's reason, where it is known. Faults of the standard error are ignored.
pub fn tell_failure<F: Display + Drop, E: Write>(
    program: &str,
    failure: F,
    reason: Option<Error>,
    err: &mut E,
)
    ensures silent { IfSome reason (λ fault. error_kind fault ≡ ErrorKind.BrokenPipe → err.new ≡ err.old) }
{
    let _ = match reason {
        Some(reason) if reason.kind() == ErrorKind::BrokenPipe => Ok(()),
        Some(reason) => writeln!(err, "{program}: {failure}: {reason}"),
        None => writeln!(err, "{program}: {failure}"),
    };
}

/// Writes one line to the standard error that may help with an input that was refused, if there is such a hint. Faults of the
/// standard error are ignored.
pub fn tell_hint<H: Display + Drop, E: Write>(program: &str, hint: Option<H>, err: &mut E) {
    if let Some(hint) = hint {
        let _ = writeln!(err, "{program}: {hint}");
    }
}

/// The end where a word of the command line is no text: writes one line to the standard error, whose own faults are ignored, and
/// answers the exit status.
pub fn end_at_no_text<E: Write>(program: &str, err: &mut E) -> u8
    ensures { result ≡ 2 }
{
    let _ = writeln!(err, "{program}: an argument is not valid UTF-8");
    2
}

/// Writes one line to the standard error on these workers of one piece, if there are several. Faults of the standard error are
/// ignored.
pub fn tell_of_one_piece<E: Write>(program: &str, workers: Workers, err: &mut E) {
    if workers.get() > 1 {
        let _ = writeln!(
            err,
            "{program}: one worker searches the one piece: a greater --split divides the work among several"
        );
    }
}

//! What the lines of a text that is no report tell of its origin.
use crate::lines::line_at;
use crate::quote::Quote;
use pb_hint::{Beginning, foreign_bytes, has_control_bytes};
use thiserror::Error;

/// What may tell why a text is no report.
#[derive(Clone, Copy, Debug, Error)]
pub enum Clue {
    /// Its first bytes, or the ends of its lines, are those of no report.
    #[error("it {0}")]
    Begins(Beginning),
    /// Its lines end with CR and LF.
    #[error("its lines end with carriage returns: end them with LF alone")]
    CarriageReturns,
    /// The line of the fault, which no report has.
    #[error("the line is {0}")]
    Line(Quote),
    /// The first line, where no line is one of a report.
    #[error("its first line is {0}")]
    FirstLine(Quote),
}

impl Clue {
    /// What the text tells of a fault at this line, from 1, of the heading or behind it.
    pub fn of(text: &[u8], line: u64, is_heading: bool) -> Option<Clue> {
        if let Some(begins) = foreign_bytes(text) {
            return Some(Clue::Begins(begins));
        }
        let has_returns = text.windows(2).any(|pair| pair == b"\r\n".as_slice());
        if has_returns && !has_control_bytes(text) {
            return Some(Clue::CarriageReturns);
        }
        let place = usize::try_from(line.checked_sub(1)?).ok()?;
        let found = line_at(text, place);
        let is_stray = !found.is_empty() && (is_heading || !begins_as_report(found));
        is_stray.then(|| Clue::Line(Quote::of_line(found)))
    }

    /// What the text tells, of which no line is one of a report.
    pub fn of_foreign(text: &[u8]) -> Clue {
        match foreign_bytes(text) {
            Some(begins) => Clue::Begins(begins),
            None => Clue::FirstLine(Quote::of_first_line(text)),
        }
    }
}

/// Whether a line begins as one of a report may.
fn begins_as_report(line: &[u8]) -> bool {
    matches!(
        line.trim_ascii_start(),
        [] | [b'c', ..] | [b'o' | b's' | b'v'] | [b'o' | b's' | b'v', b' ' | b'\t', ..]
    )
}

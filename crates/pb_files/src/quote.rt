//! A line of a text, for a message.

use crate::lines::line_at;
use std::fmt;

/// The most bytes that are shown. Chosen by hand, so that a message stays short.
const LONGEST: usize = 60;

/// The first bytes of a line of a text. They are shown with escapes for bytes that do not print or are not ASCII.
#[derive(Clone, Copy, Debug)]
pub struct Quote {
    bytes: [u8; LONGEST],
    len: usize,
}

impl Quote {
    /// The first line of the text, or as much of it as is shown.
    pub fn of_first_line(text: &[u8]) -> Quote {
        Quote::of_line(line_at(text, 0))
    }

    /// The line, or as much of it as is shown.
    pub fn of_line(line: &[u8]) -> Quote {
        let mut bytes = [0; LONGEST];
        let mut len: usize = 0;
        for (place, byte) in bytes.iter_mut().zip(line) {
            *place = *byte;
            len = len.saturating_add(1);
        }
        Quote { bytes, len }
    }
}

impl fmt::Display for Quote {
    fn fmt<W: fmt::Write>(&self, f: &mut fmt::Formatter<W>) -> fmt::Result {
        let shown = self.bytes.get(..self.len).unwrap_or_default();
        write!(f, "'{}'", shown.escape_ascii())
    }
}

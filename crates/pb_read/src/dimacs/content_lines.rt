//! The lines of a text of clauses or cubes that say something.
ghost use Rattle.std.specs.Prelude.{◌≡◌, ◌<◌, ◌+◌, ◌^◌, ◌||◌, ◌∷◌, [], not, length, max, option_map, IfOk, IfErr};
ghost use Rattle.std.specs.List.{list_all};
ghost use Rattle.pb_read.specs.declared.fault.ReadKind.TheVariants.{BadHeader};
ghost use Rattle.pb_read.specs.Text.{is_blank, is_marked, content, clause_lines};
ghost use Rattle.pb_read.specs.ClauseReading.{content_from, lines_from, IsNextLine};

use crate::fault::{ReadFault, ReadKind};
use crate::line::{is_blank, is_marked};
use bstr::{ByteSlice, LinesWithTerminator};

fn is_all_blank(line: &[u8]) -> bool
    ensures { result ≡ list_all is_blank line.now }
{
    for byte in line {
        if !is_blank(*byte) {
            return false;
        }
    }
    true
}

/// Whether the line is neither a comment nor blank.
fn has_content(line: &[u8]) -> bool
    ensures { result ≡ not (is_marked 99 line.now || list_all is_blank line.now) }
{
    !(is_marked(b'c', line) || is_all_blank(line))
}

/// The lines of a text that are left, up to one that begins with `%`.
#[derive(Drop)]
pub(crate) struct ContentLines<'t> {
    pub(crate) rest: LinesWithTerminator<'t>,
    /// How many lines were passed.
    pub(crate) before: u64,
}

impl<'t> ContentLines<'t> {
    /// All lines of the text, none of them passed yet.
    pub(crate) fn new(text: &'t [u8]) -> ContentLines<'t>
        ensures content { content_from (result.before + 1) result.rest ≡ content text.now }
        ensures lines { result.before + length (lines_from (result.before + 1) result.rest) ≡ length (clause_lines text.now) }
        ensures counted { result.before + length result.rest < 2 ^ 64 }
    {
        ContentLines {
            rest: text.lines_with_terminator(),
            before: 0,
        }
    }

    /// The next line that is neither blank nor a comment, with its number.
    pub(crate) fn next(&mut self) -> Option<(&'t [u8], u64)>
        requires counted { self.old.before + length self.old.rest < 2 ^ 64 }
        ensures next { IsNextLine (content_from (self.old.before + 1) self.old.rest) (content_from (self.new.before + 1) self.new.rest) (option_map (λ r. (r.0.now, r.1)) result) }
        ensures lines { self.new.before + length (lines_from (self.new.before + 1) self.new.rest) ≡ self.old.before + length (lines_from (self.old.before + 1) self.old.rest) }
        ensures ended { result ≡ None → length (lines_from (self.new.before + 1) self.new.rest) ≡ 0 }
        ensures counted { self.new.before + length self.new.rest < 2 ^ 64 }
    {
        while let Some(line) = self.rest.next() {
            if is_marked(b'%', line) {
                self.rest = b"".as_slice().lines_with_terminator();
                return None;
            }
            self.before += 1;
            if has_content(line) {
                return Some((line, self.before));
            }
        }
        None
    }

    /// The first line that says something, with its number. It has to be the header.
    pub(crate) fn header(&mut self) -> Result<(&'t [u8], u64), ReadFault>
        requires counted { self.old.before + length self.old.rest < 2 ^ 64 }
        ensures some { IfOk result (λ r. content_from (self.old.before + 1) self.old.rest ≡ record { item = r.0.now; line = r.1 } ∷ content_from (self.new.before + 1) self.new.rest) }
        ensures none { IfErr result (λ f. (content_from (self.old.before + 1) self.old.rest ≡ []) × (f ≡ record { kind = BadHeader; line = max 1 (self.old.before + length (lines_from (self.old.before + 1) self.old.rest)) })) }
        ensures lines { self.new.before + length (lines_from (self.new.before + 1) self.new.rest) ≡ self.old.before + length (lines_from (self.old.before + 1) self.old.rest) }
        ensures counted { self.new.before + length self.new.rest < 2 ^ 64 }
    {
        match self.next() {
            Some(head) => Ok(head),
            None => Err(ReadFault {
                kind: ReadKind::BadHeader,
                line: self.last(),
            }),
        }
    }

    /// The number of the last of the lines that were passed, and 1 where there is none.
    pub(crate) fn last(&self) -> u64
        ensures { result ≡ max 1 self.now.before }
    {
        self.before.max(1)
    }
}

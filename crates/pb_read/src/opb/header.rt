//! The number of variables that the first line may give.
//! Source: [OPB]
ghost use Rattle.std.specs.Prelude.{◌≡◌, ◌≤◌, option_map, length, take, drop, take_while};
ghost use Rattle.pb_read.specs.Capped.{cap_count, ends_word};
ghost use Rattle.pb_read.specs.Runs.{skip_while};
ghost use Rattle.pb_read.specs.Text.{is_digit};
ghost use Rattle.pb_read.specs.Opb as opb;

use crate::digits::{digits_count, is_digit};
use crate::line::{after_gap, after_margin, is_blank};
use bstr::ByteSlice;

/// How many digits the bytes begin with.
fn digits_len(bytes: &[u8]) -> usize
    ensures within { result ≤ length bytes.now }
    ensures front { take result bytes.now ≡ take_while is_digit bytes.now }
    ensures rest { drop result bytes.now ≡ skip_while is_digit bytes.now }
{
    let mut len = 0;
    while len < bytes.len() && is_digit(bytes[len]) {
        len += 1;
    }
    len
}

/// Whether a blank comes next, or the end.
fn ends_word(rest: &[u8]) -> bool
    ensures { result ≡ ends_word rest.now }
{
    match rest {
        [first, ..] => is_blank(*first),
        [] => true,
    }
}

/// The number that one or more digits write, where a blank or the end comes after them.
fn leading_number(bytes: &[u8]) -> Option<u32>
    ensures { result ≡ option_map cap_count (opb.leading_number bytes.now) }
{
    let (digits, rest) = bytes.split_at(digits_len(bytes));
    if !ends_word(rest) {
        return None;
    }
    digits_count(digits)
}

fn header_of(line: &[u8]) -> Option<u32>
    ensures { result ≡ option_map cap_count (opb.header_of line.now) }
{
    let comment = after_margin(line).strip_prefix(b"*".as_slice())?;
    let number = after_gap(comment).strip_prefix(b"#variable=".as_slice())?;
    leading_number(after_gap(number))
}

/// The number of the header, or `GREATEST_COUNT` where it is larger, and 0 where the first line is no header.
pub(crate) fn announced_vars(text: &[u8]) -> u32
    ensures { result ≡ cap_count (opb.header text.now) }
{
    match text.lines_with_terminator().next() {
        Some(line) => header_of(line).unwrap_or(0),
        None => 0,
    }
}

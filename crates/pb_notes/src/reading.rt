//! Reading a note.
ghost use Rattle.std.specs.Prelude.{◌≡◌, ◌++◌, length, map, slice_index, EachIndex, IfSome, IsTrue};
ghost use Rattle.std.specs.Fmt.{signed_decimal};
ghost use Rattle.pb_notes.specs.Notes.{cost_line, instance_line, is_one, note_text, IsDigit, values_line};

use crate::writing::{COST, INSTANCE, VALUES, digits_of};
use itoa::Buffer;
use pb_inst::{Assignment, Number};
use std::marker::Model;
use std::str;

/// What a note tells: the cost of an assignment and its values, which are still in the note's text. Neither is checked against
/// an instance.
#[derive(Drop)]
pub struct Note<'t> {
    cost: Number,
    digits: &'t [u8],
}

impl<'t> Model for Note<'t> {
    ghost use Rattle.pb_notes.specs.Notes.{NoteView};

    ghost Value = { NoteView };

    ghost use Rattle.std.specs.Prelude.{map};
    ghost use Rattle.pb_notes.specs.Notes.{is_one};

    ghost view = { λ n. record { cost = n.cost; values = map is_one n.digits.now } };
}

impl Note<'_> {
    /// The cost that the note tells.
    pub fn cost(&self) -> Number
        ensures { result ≡ self.now.cost }
    {
        self.cost
    }

    /// Copies the values into an assignment of the same number of variables.
    pub fn copy_into(&self, into: &mut Assignment)
        requires { length into.old ≡ length self.now.values }
        ensures { into.new ≡ self.now.values }
    {
        for place in 0..into.len() {
            let digit = self.digits[place as usize];
            into.set(place + 1, digit == b'1');
        }
    }
}

/// What the text tells, where it is a note of the instance with this digest, of `vars` variables; none where it is anything else.
pub fn read_note<'t>(digest: &[u8; 32], vars: u32, text: &'t [u8]) -> Option<Note<'t>>
    ensures count { IfSome result (λ note. length note.values ≡ vars) }
    ensures told { IfSome result (λ note. text.now ≡ note_text digest.now note.cost note.values) }
{
    let rest = after_instance(digest, text)?;
    let (cost, rest) = told_cost(rest)?;
    let digits = told_digits(vars, rest)?;
    Some(Note { cost, digits })
}

/// What comes after the line of the instance.
fn after_instance<'t>(digest: &[u8; 32], text: &'t [u8]) -> Option<&'t [u8]>
    ensures { IfSome result (λ rest. text.now ≡ instance_line digest.now ++ rest.now) }
{
    let digits = digits_of(digest);
    let rest = after(INSTANCE, text)?;
    let rest = after(&digits, rest)?;
    after(b"\n", rest)
}

/// What comes after these bytes, where the text begins with them.
fn after<'t>(start: &[u8], text: &'t [u8]) -> Option<&'t [u8]>
    ensures { IfSome result (λ rest. text.now ≡ start.now ++ rest.now) }
{
    text.strip_prefix(start)
}

/// What comes before these bytes, where the text ends with them.
fn before<'t>(end: &[u8], text: &'t [u8]) -> Option<&'t [u8]>
    ensures { IfSome result (λ rest. text.now ≡ rest.now ++ end.now) }
{
    text.strip_suffix(end)
}

/// The number of the line of the cost, and what comes after it.
fn told_cost(text: &[u8]) -> Option<(Number, &[u8])>
    ensures { IfSome result (λ told. text.now ≡ cost_line told.0 ++ told.1.now) }
{
    let rest = after(COST, text)?;
    let end = rest.iter().position(|byte| *byte == b'\n')?;
    let (digits, rest) = rest.split_at(end);
    let cost = cost_of(digits)?;
    let rest = after(b"\n", rest)?;
    Some((cost, rest))
}

/// The number that is written in just these digits.
fn cost_of(digits: &[u8]) -> Option<Number>
    ensures { IfSome result (λ cost. digits.now ≡ signed_decimal cost) }
{
    let cost = str::from_utf8(digits).ok()?.parse().ok()?;
    let mut written = Buffer::new();
    if written.format(cost).as_bytes() == digits {
        Some(cost)
    } else {
        None
    }
}

/// The digits of the line of the values, where they are `vars` digits and nothing comes after the line.
fn told_digits(vars: u32, text: &[u8]) -> Option<&[u8]>
    ensures count { IfSome result (λ digits. length digits.now ≡ vars) }
    ensures told { IfSome result (λ digits. text.now ≡ values_line (map is_one digits.now)) }
{
    let line = after(VALUES, text)?;
    let digits = before(b"\n", line)?;
    if digits.len() == vars as usize && are_digits(digits) {
        Some(digits)
    } else {
        None
    }
}

/// Whether each of the bytes is `0` or `1`.
fn are_digits(bytes: &[u8]) -> bool
    ensures { IsTrue result → EachIndex bytes.now (λ k. IsDigit (slice_index bytes.now k)) }
{
    bytes.iter().all(|byte| *byte == b'0' || *byte == b'1')
}

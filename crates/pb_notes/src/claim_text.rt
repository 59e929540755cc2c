//! The text of a claim.
ghost use Rattle.std.specs.Prelude.{◌≡◌, ◌+◌, ◌<◌, ◌≤◌, ◌++◌, length, vec_len, vec_capacity, IfSome};
ghost use Rattle.pb_notes.specs.Claims.{claim_line, claim_text, cubes_text, division_line, numbered, task_line};

use crate::claimant::Division;
use crate::writing::{digits_of, put};
use itoa::Buffer;
use std::str;

/// The most bytes of a claim: 90 of the first line, 106 of the second and 30 of the third.
pub(crate) const CLAIM_ROOM: usize = 226;

/// Replaces what the buffer holds by the claim of this task. The buffer has room for it, so no memory is taken.
pub(crate) fn write_claim(text: &mut Vec<u8>, division: &Division, task: u32)
    requires { 226 ≤ vec_capacity text.old }
    ensures written { text.new.items ≡ claim_text division.now task }
    ensures room { vec_capacity text.old ≤ vec_capacity text.new }
{
    text.clear();
    put_instance(text, &division.instance);
    put_division(text, division);
    put_task(text, task, division.tasks);
}

/// The task whose claim on pieces of the division the text is; none where it is anything else. The buffer has room for a claim.
pub(crate) fn claimed_by(division: &Division, text: &[u8], buffer: &mut Vec<u8>) -> Option<u32>
    requires { 226 ≤ vec_capacity buffer.old }
    ensures claimed { IfSome result (λ task. (task < division.now.tasks) × (text.now ≡ claim_text division.now task)) }
    ensures room { vec_capacity buffer.old ≤ vec_capacity buffer.new }
{
    let task = told_task(text)?;
    if task >= division.tasks {
        return None;
    }
    write_claim(buffer, division, task);
    if buffer.as_slice() == text {
        Some(task)
    } else {
        None
    }
}

/// The number after the first word of the last line, where there is one.
fn told_task(text: &[u8]) -> Option<u32> {
    let line = text.strip_suffix(b"\n".as_slice())?;
    let start = line.iter().rposition(|byte| *byte == b'\n')?;
    let (_, line) = line.split_at(start);
    let digits = line.strip_prefix(b"\ntask ".as_slice())?;
    let end = digits.iter().position(|byte| *byte == b' ')?;
    let (digits, _) = digits.split_at(end);
    str::from_utf8(digits).ok()?.parse().ok()
}

/// Adds the line of the instance.
fn put_instance(text: &mut Vec<u8>, instance: &[u8; 32])
    requires { vec_len text.old + 90 ≤ vec_capacity text.old }
    ensures written { text.new.items ≡ text.old.items ++ claim_line instance.now }
    ensures len { vec_len text.new ≡ vec_len text.old + 90 }
    ensures room { vec_capacity text.old ≤ vec_capacity text.new }
{
    let digits = digits_of(instance);
    put(text, b"pbcube claim of instance ");
    put(text, &digits);
    put(text, b"\n");
}

/// Adds the line of the division.
fn put_division(text: &mut Vec<u8>, division: &Division)
    requires { vec_len text.old + 106 ≤ vec_capacity text.old }
    ensures written { text.new.items ≡ text.old.items ++ division_line division.now.pieces division.now.split division.now.cubes }
    ensures len { vec_len text.new ≤ vec_len text.old + 106 }
    ensures room { vec_capacity text.old ≤ vec_capacity text.new }
{
    put_numbered(text, b"pieces ", division.pieces);
    put_numbered(text, b" split ", division.split);
    put(text, b" cubes ");
    put_cubes(text, &division.cubes);
    put(text, b"\n");
}

/// Adds the digest of the cube file, or `none`.
fn put_cubes(text: &mut Vec<u8>, cubes: &Option<[u8; 32]>)
    requires { vec_len text.old + 64 ≤ vec_capacity text.old }
    ensures written { text.new.items ≡ text.old.items ++ cubes_text cubes.now }
    ensures len { vec_len text.new ≤ vec_len text.old + 64 }
    ensures room { vec_capacity text.old ≤ vec_capacity text.new }
{
    match cubes {
        None => put(text, b"none"),
        Some(digest) => put(text, &digits_of(digest)),
    }
}

/// Adds the line of the task.
fn put_task(text: &mut Vec<u8>, task: u32, tasks: u32)
    requires { vec_len text.old + 30 ≤ vec_capacity text.old }
    ensures written { text.new.items ≡ text.old.items ++ task_line task tasks }
    ensures room { vec_capacity text.old ≤ vec_capacity text.new }
{
    put_numbered(text, b"task ", task);
    put_numbered(text, b" of ", tasks);
    put(text, b"\n");
}

/// Adds a short text, and a number after it.
fn put_numbered(text: &mut Vec<u8>, words: &[u8], number: u32)
    requires { vec_len text.old + length words.now + 10 ≤ vec_capacity text.old }
    ensures written { text.new.items ≡ text.old.items ++ numbered words.now number }
    ensures len { vec_len text.new ≤ vec_len text.old + length words.now + 10 }
    ensures room { vec_capacity text.old ≤ vec_capacity text.new }
{
    let mut digits = Buffer::new();
    put(text, words);
    put(text, digits.format(number).as_bytes());
}

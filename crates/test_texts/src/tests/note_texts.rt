//! Worked notes, how they are read, and texts that are none.

use pb_inst::{Assignment, Number};
use pb_notes::{note_room, read_note, write_note};
use std::alloc::Global;
use std::process::Abort;

/// The digest of the tests.
pub const DIGEST: [u8; 32] = [0x9f; 32];

/// The first line of a note with this digest.
const FIRST_LINE: &[u8] =
    b"pbcube note of instance 9f9f9f9f9f9f9f9f9f9f9f9f9f9f9f9f9f9f9f9f9f9f9f9f9f9f9f9f9f9f9f9f\n";

/// The assignment of `vars` variables whose values are the bits of the number, from the lowest on.
pub fn assignment(rt: &impl Abort, alloc: Global, vars: u32, bits: u64) -> Assignment {
    let mut values = Assignment::new(alloc, vars).expect(rt, "memory");
    for place in 0..vars.min(64) {
        if place < values.len() {
            values.set(place + 1, bits >> place & 1 == 1);
        }
    }
    values
}

/// The first 64 values as bits.
pub fn bits_of(values: &Assignment) -> u64 {
    let mut bits = 0;
    for place in 0..values.len().min(64) {
        if values.get(place + 1) {
            bits |= 1 << place;
        }
    }
    bits
}

/// The note of such an assignment.
pub fn note(rt: &impl Abort, alloc: Global, cost: Number, vars: u32, bits: u64) -> Vec<u8> {
    let values = assignment(rt, alloc, vars, bits);
    let mut text = Vec::with_capacity(alloc, note_room(values.len())).expect(rt, "memory");
    write_note(&mut text, &DIGEST, cost, &values);
    text
}

/// The text with the first line of the tests before it.
pub fn below_first_line(rt: &impl Abort, alloc: Global, rest: &[u8]) -> Vec<u8> {
    let mut text = Vec::new(alloc);
    text.extend_from_slice(FIRST_LINE).expect(rt, "memory");
    text.extend_from_slice(rest).expect(rt, "memory");
    text
}

/// The cost of a note of `vars` variables, and its values as bits; none of another text.
fn told(rt: &impl Abort, alloc: Global, vars: u32, text: &[u8]) -> Option<(Number, u64)> {
    let note = read_note(&DIGEST, vars, text)?;
    let mut values = Assignment::new(alloc, vars).expect(rt, "memory");
    note.copy_into(&mut values);
    Some((note.cost(), bits_of(&values)))
}

/// Costs, numbers of variables and values as bits, and what their notes have below the first line.
const NOTES: &[(Number, u32, u64, &[u8])] = &[
    (5, 4, 0b0110, b"cost 5\nvalues 0110\n"),
    (-12, 4, 0b0110, b"cost -12\nvalues 0110\n"),
    (0, 3, 0b001, b"cost 0\nvalues 100\n"),
    (7, 0, 0, b"cost 7\nvalues \n"),
    (
        Number::MIN,
        1,
        1,
        b"cost -170141183460469231731687303715884105728\nvalues 1\n",
    ),
    (
        Number::MAX,
        2,
        0b10,
        b"cost 170141183460469231731687303715884105727\nvalues 01\n",
    ),
];

#[test]
fn notes_are_written_and_read(rt: HostRuntime) {
    for (cost, vars, bits, rest) in NOTES {
        let text = note(&rt, rt.alloc(), *cost, *vars, *bits);
        assert!(rt; text == below_first_line(&rt, rt.alloc(), *rest), "{cost}");
        assert!(rt;
            told(&rt, rt.alloc(), *vars, &text) == Some((*cost, *bits)),
            "{cost}"
        );
    }
}

/// What may come after the first line, of four variables, and makes no note.
const NO_NOTES: &[&[u8]] = &[
    b"",
    b"cost 5\n",
    b"cost 5\nvalues 0110",
    b"cost 5\nvalues 0110\n\n",
    b"cost 5\nvalues 0110\nvalues 0110\n",
    b"cost 5\nvalues 011\n",
    b"cost 5\nvalues 01100\n",
    b"cost 5\nvalues 0112\n",
    b"cost 5\nvalues 01-0\n",
    b"cost 5\nvalues 01\x000\n",
    b"cost 5\nvalues 0110\r\n",
    b"cost 5\r\nvalues 0110\n",
    b"cost 5\nvalue 0110\n",
    b"cost 5\nvalues  0110\n",
    b"cost 5 \nvalues 0110\n",
    b"cost  5\nvalues 0110\n",
    b"cost +5\nvalues 0110\n",
    b"cost 05\nvalues 0110\n",
    b"cost -0\nvalues 0110\n",
    b"cost -\nvalues 0110\n",
    b"cost \nvalues 0110\n",
    b"cost five\nvalues 0110\n",
    b"cost 5\xff\nvalues 0110\n",
    b"cost 170141183460469231731687303715884105728\nvalues 0110\n",
    b"Cost 5\nvalues 0110\n",
    b"values 0110\ncost 5\n",
    b"\ncost 5\nvalues 0110\n",
];

#[test]
fn other_texts_are_no_notes(rt: HostRuntime) {
    for (place, rest) in NO_NOTES.iter().enumerate() {
        let text = below_first_line(&rt, rt.alloc(), *rest);
        assert!(rt; told(&rt, rt.alloc(), 4, &text).is_none(), "{place}");
    }
}

fn is_note(digest: &[u8; 32], vars: u32, text: &[u8]) -> bool {
    read_note(digest, vars, text).is_some()
}

/// Whether no text that this one only begins with is a note.
fn has_no_shorter_note(text: &[u8]) -> bool {
    for len in 0..text.len() {
        if is_note(&DIGEST, 4, &text[..len]) {
            return false;
        }
    }
    true
}

#[test]
fn notes_of_other_instances_are_none(rt: HostRuntime) {
    let mut other = DIGEST;
    other[31] = 0x9e;
    let text = note(&rt, rt.alloc(), 5, 4, 0b0110);
    assert!(rt; is_note(&DIGEST, 4, &text) && !is_note(&other, 4, &text));
    assert!(rt; !is_note(&DIGEST, 3, &text) && !is_note(&DIGEST, 5, &text));
    assert!(rt; has_no_shorter_note(&text));
}

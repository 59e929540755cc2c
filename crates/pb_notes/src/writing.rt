//! Writing a note.
ghost use Rattle.std.specs.Prelude.{◌≡◌, ◌+◌, ◌≤◌, ◌++◌, ◌∷◌, [], length, map, vec_len, vec_capacity};
ghost use Rattle.hex.specs.Hex.{encode_lower};
ghost use Rattle.pb_notes.specs.Notes.{cost_line, digit_of, instance_line, note_text, values_line};

use itoa::Buffer;
use pb_inst::{Assignment, Number};

/// How the first line begins.
pub(crate) const INSTANCE: &[u8] = b"pbcube note of instance ";

/// How the second line begins.
pub(crate) const COST: &[u8] = b"cost ";

/// How the third line begins.
pub(crate) const VALUES: &[u8] = b"values ";

/// The most bytes of a note beside the digits of its values: 89 of the first line, 46 of the second and 8 of the third.
const LONGEST_FRAME: usize = 143;

/// The most bytes that a note of an assignment of `vars` variables can have.
pub fn note_room(vars: u32) -> usize
    ensures { result ≡ 143 + vars }
{
    LONGEST_FRAME + vars as usize
}

/// Replaces what the buffer holds by the note of an assignment and its cost. The digest is the SHA-256 of the instance's text.
/// The buffer has room for it, so no memory is taken.
pub fn write_note(text: &mut Vec<u8>, digest: &[u8; 32], cost: Number, values: &Assignment)
    requires { 143 + length values.now ≤ vec_capacity text.old }
    ensures written { text.new.items ≡ note_text digest.now cost values.now }
    ensures room { vec_capacity text.old ≤ vec_capacity text.new }
{
    text.clear();
    put_instance(text, digest);
    put_cost(text, cost);
    put_values(text, values);
}

/// The digest's hex digits.
pub(crate) fn digits_of(digest: &[u8; 32]) -> [u8; 64]
    ensures { result ≡ encode_lower digest.now }
{
    let mut digits = [0; 64];
    // This fails only where the lengths differ.
    let _ = hex::encode_to_slice(digest.as_slice(), &mut digits);
    digits
}

/// Adds the line of the instance.
fn put_instance(text: &mut Vec<u8>, digest: &[u8; 32])
    requires { vec_len text.old + 89 ≤ vec_capacity text.old }
    ensures written { text.new.items ≡ text.old.items ++ instance_line digest.now }
    ensures len { vec_len text.new ≡ vec_len text.old + 89 }
    ensures room { vec_capacity text.old ≤ vec_capacity text.new }
{
    let digits = digits_of(digest);
    put(text, INSTANCE);
    put(text, &digits);
    put(text, b"\n");
}

/// Adds the line of the cost.
fn put_cost(text: &mut Vec<u8>, cost: Number)
    requires { vec_len text.old + 46 ≤ vec_capacity text.old }
    ensures written { text.new.items ≡ text.old.items ++ cost_line cost }
    ensures len { vec_len text.new ≤ vec_len text.old + 46 }
    ensures room { vec_capacity text.old ≤ vec_capacity text.new }
{
    let mut digits = Buffer::new();
    put(text, COST);
    put(text, digits.format(cost).as_bytes());
    put(text, b"\n");
}

/// Adds the line of the values.
fn put_values(text: &mut Vec<u8>, values: &Assignment)
    requires { vec_len text.old + 8 + length values.now ≤ vec_capacity text.old }
    ensures written { text.new.items ≡ text.old.items ++ values_line values.now }
    ensures room { vec_capacity text.old ≤ vec_capacity text.new }
{
    put(text, VALUES);
    put_digits(text, values);
    put(text, b"\n");
}

/// Adds a digit for each variable.
fn put_digits(text: &mut Vec<u8>, values: &Assignment)
    requires { vec_len text.old + length values.now ≤ vec_capacity text.old }
    ensures written { text.new.items ≡ text.old.items ++ map digit_of values.now }
    ensures len { vec_len text.new ≡ vec_len text.old + length values.now }
    ensures room { vec_capacity text.old ≤ vec_capacity text.new }
{
    for place in 0..values.len() {
        put(text, digit_of(values.get(place + 1)));
    }
}

/// The digit of a value.
fn digit_of(value: bool) -> &'static [u8]
    ensures { result.now ≡ digit_of value ∷ [] }
{
    if value { b"1" } else { b"0" }
}

/// Adds bytes for which there is room.
pub(crate) fn put(text: &mut Vec<u8>, bytes: &[u8])
    requires { vec_len text.old + length bytes.now ≤ vec_capacity text.old }
    ensures written { text.new.items ≡ text.old.items ++ bytes.now }
    ensures len { vec_len text.new ≡ vec_len text.old + length bytes.now }
    ensures room { vec_capacity text.old ≤ vec_capacity text.new }
{
    // This fails only where there is no room.
    let _ = text.extend_from_slice(bytes);
}

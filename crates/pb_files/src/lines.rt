//! Lines of a text, and what they seem to tell. Nothing here is proved, since it decides only what is said of a fault.
use hex::FromHex;
use std::str;

/// The line of this number, from 0, without its end. It is empty where the text has no such line.
pub fn line_at(text: &[u8], number: usize) -> &[u8] {
    text.split(|byte| *byte == b'\n')
        .nth(number)
        .unwrap_or_default()
}

/// Whether the line begins so and ends in a digest, in hex digits after a space, which is another one than this.
pub fn tells_other_digest(line: &[u8], beginning: &[u8], digest: &[u8; 32]) -> bool {
    match digest_told(line) {
        Some(told) => line.starts_with(beginning) && told != *digest,
        None => false,
    }
}

/// The digest at the end of the line, in hex digits after a space.
fn digest_told(line: &[u8]) -> Option<[u8; 32]> {
    let word = line.rsplit(|byte| *byte == b' ').next()?;
    <[u8; 32] as FromHex>::from_hex(word).ok()
}

/// The number of tasks that the text tells, where it begins as the report of a task does, of an instance with this digest.
pub fn tasks_told(text: &[u8], digest: &[u8; 32]) -> Option<u32> {
    let line = line_at(text, 0);
    if !line.starts_with(b"c part ") || digest_told(line)? != *digest {
        return None;
    }
    let word = line.split(|byte| *byte == b' ').nth(4)?;
    str::from_utf8(word).ok()?.parse().ok()
}

/// Whether a line of the text begins as one of the heading of a task's report does.
pub fn has_line_of_heading(text: &[u8]) -> bool {
    text.split(|byte| *byte == b'\n').any(|line| line.starts_with(b"c part")
        || line.starts_with(b"c done"))
}

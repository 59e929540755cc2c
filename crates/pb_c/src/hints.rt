//! Hints on texts that are refused.
ghost use Rattle.std.specs.Prelude.{◌≡◌, List, ℕ, length};
ghost use Rattle.pb_c.specs.Copied.{copied_into};

use crate::copying::copy_out;
use crate::literals::format_of;
use pb_hint::{HintLine, hint_on};
use pb_read::{Format, read};
use std::alloc::Global;
use std::io::Write;

/// Writes the hint that the program gives where it refuses this text, as far as there is room, and answers the number of its bytes:
/// 0 where it gives none, and where memory is refused.
#[unsafe(no_mangle)]
pub extern "C" fn pb_c_hint(alloc: Global, format: i32, text: &[u8], room: &mut [u8]) -> usize
    ensures { (hint : List ℕ) × (result ≡ length hint) × (room.new ≡ copied_into room.old hint) }
{
    let Some(format) = format_of(format) else {
        return copy_out(b"", room);
    };
    match written_hint(alloc, format, text) {
        Some(hint) => copy_out(&hint, room),
        None => copy_out(b"", room),
    }
}

/// The hint, if there is one. What the program says of its file is said of the text.
fn written_hint(alloc: Global, format: Format, text: &[u8]) -> Option<Vec<u8>> {
    let fault = read(alloc, format, text).err()?;
    let mut written = Vec::new(alloc);
    let line = HintLine::of_instance("the text", hint_on(format, text, fault)?);
    write!(written, "{line}").ok()?;
    Some(written)
}

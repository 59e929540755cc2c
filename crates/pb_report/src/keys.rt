//! The kind of a line, by its first word.
//! Source: [OPB]
ghost use Rattle.std.specs.Prelude.{◌≡◌};
ghost use Rattle.pb_report.specs.Lines.{begins_with_c, key_of};

/// The kind of a line.
#[derive(Clone, Copy, Debug, PartialEq, Eq)]
pub(crate) enum Key {
    Cost,
    Status,
    Values,
    Comment,
    Other,
}

/// The kind of a line that begins with the word. A comment begins with `c`, which other letters may follow at once.
pub(crate) fn key_of(word: &[u8]) -> Key
    ensures { result ≡ key_of word.now }
{
    if word == b"o".as_slice() {
        Key::Cost
    } else if word == b"s".as_slice() {
        Key::Status
    } else if word == b"v".as_slice() {
        Key::Values
    } else if begins_with_c(word) {
        Key::Comment
    } else {
        Key::Other
    }
}

fn begins_with_c(word: &[u8]) -> bool
    ensures { result ≡ begins_with_c word.now }
{
    match word {
        [first, ..] => *first == b'c',
        [] => false,
    }
}

//! What a command line asks for.
use pb_read::Format;

/// What the words of the command line ask for.
#[derive(Clone, Copy)]
pub struct Line<'a> {
    /// The file of the instance.
    pub file: &'a str,
    /// The format in which it is written.
    pub format: Format,
    /// The file of cubes, if there is one.
    pub cubes: Option<&'a str>,
    /// The number of variables of the split, 0 to `MAX_SPLIT`.
    pub split: u32,
    /// The folder in which the pieces are written.
    pub out: &'a str,
}

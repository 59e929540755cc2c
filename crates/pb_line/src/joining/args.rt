//! What a command line asks for.
use pb_read::Format;

/// What the words of the command line ask for.
#[derive(Drop)]
pub struct Line<'a> {
    /// The file of the whole instance.
    pub file: &'a str,
    /// The format in which it and the reports are written.
    pub format: Format,
    /// The number of pieces, 1 to `MAX_PIECES`, where the line gives it. Then it gives no number of tasks.
    pub pieces: Option<u32>,
    /// The number of tasks among which the pieces were dealt, at least 1, where the reports are those of tasks.
    pub tasks: Option<u32>,
    /// The files of the reports, and the folders in which they lie.
    pub reports: Vec<&'a str>,
}

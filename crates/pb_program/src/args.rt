//! What a command line asks for.
use pb_solve::Options;

/// What the words of the command line ask for.
#[derive(Clone, Copy)]
pub struct Line<'a> {
    /// The file of the instance.
    pub file: &'a str,
    /// The file of cubes, if there is one.
    pub cubes: Option<&'a str>,
    /// How the instance is written, and how it is solved: with a split of 0 to `MAX_SPLIT`, and a budget of 0 to `MAX_NODES`.
    pub options: Options,
}

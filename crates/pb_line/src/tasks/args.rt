//! What a command line asks for.
use pb_inst::Workers;
use pb_read::Format;

/// The most tasks among which a command line may deal the pieces: the greatest number of 32 bits, in which reports count tasks.
pub const MAX_TASKS: u64 = 4_294_967_295;

/// What the words of the command line ask for.
#[derive(Clone, Copy)]
pub struct Line<'a> {
    /// The file of the instance.
    pub file: &'a str,
    /// The format in which it is written.
    pub format: Format,
    /// The file of cubes, if there is one.
    pub cubes: Option<&'a str>,
    /// The number of threads that may search at the same time.
    pub workers: Workers,
    /// The number of variables of the split, 0 to `MAX_SPLIT`.
    pub split: u32,
    /// The most decisions in each piece, 0 to `MAX_NODES`; none sets no limit.
    pub nodes: Option<u64>,
    /// The number of the task, from 0 and below `tasks`.
    pub task: u32,
    /// The number of tasks.
    pub tasks: u32,
    /// The folder in which the tasks exchange notes, if there is one.
    pub exchange: Option<&'a str>,
}

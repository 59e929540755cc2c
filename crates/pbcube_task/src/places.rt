//! The places where tasks exchange notes.
use std::alloc::Global;
use std::io;

/// Opens places of notes, of the type `N`, by the names of their folders.
pub trait Places<N> {
    /// The notes of `tasks` tasks, numbered from 0, in the folder of this name, for the `workers` workers of the task of number
    /// `task`. The folder is made where it does not exist. Fails with the kind `OutOfMemory` for want of memory.
    fn open(
        &self,
        alloc: Global,
        folder: &str,
        task: u32,
        tasks: u32,
        workers: u32,
    ) -> io::Result<N>;
}

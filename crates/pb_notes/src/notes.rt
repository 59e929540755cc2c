//! The place where notes lie.
ghost use Rattle.std.specs.Prelude.{◌≤◌, length, IfOk, IfSome};

use crate::claimant::Block;
use std::io;

/// A place with a note of each task, and with claims of pieces, which many processes see. Several workers of a process share it.
pub trait Notes {
    /// Reads the note of a task into the room, from its beginning, and answers how many bytes it has there; none where the task
    /// has no note. A note with more bytes than the room fills the room, and the rest of it is not read.
    fn read(&self, task: u32, room: &mut [u8]) -> io::Result<Option<usize>>
        ensures { IfOk result (λ found. IfSome found (λ n. n ≤ length room.new)) };

    /// Replaces the note of this process's task. A reader meanwhile gets one of the two notes whole. One worker makes no two
    /// calls at a time.
    fn write(&self, worker: u32, text: &[u8]) -> io::Result<()>;

    /// Claims a block of pieces for this process's task by this text, where nobody has claimed it, and then answers none. Of all
    /// who claim a block one does. Else reads the claim into the room, as `read` does a note. One worker makes no two calls at a time.
    fn claim(
        &self,
        worker: u32,
        block: Block,
        text: &[u8],
        room: &mut [u8],
    ) -> io::Result<Option<usize>>
        ensures { IfOk result (λ found. IfSome found (λ n. n ≤ length room.new)) };

    /// Reports that what lies in the place of a block's claim is no claim of the division. Of many such places it reports one.
    fn tell_foreign(&self, block: Block);

    /// Reports a fault of the other calls. Of many faults, whichever workers meet them, it reports one.
    fn tell(&self, fault: &io::Error);
}

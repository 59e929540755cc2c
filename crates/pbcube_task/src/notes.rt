//! The notes and claims of tasks, with one line that names the file of the first one that failed.
ghost use Rattle.std.specs.Prelude.{◌≤◌, length, IfOk, IfSome};

use pb_notes::{Block, Folder, Notes};
use std::io;
use std::sync::atomic::{AtomicBool, Ordering};

/// The notes and claims in a folder. A line on standard error names the file of the first one that could not be read or written.
#[derive(Drop)]
pub struct TaskNotes<'a> {
    rt: &'a HostRuntime,
    folder: Folder<'a, HostRuntime>,
    name: String,
    task: u32,
    has_told: AtomicBool,
}

impl<'a> TaskNotes<'a> {
    /// The notes in this folder, of this name, for the workers of this task.
    pub fn new(
        rt: &'a HostRuntime,
        folder: Folder<'a, HostRuntime>,
        name: String,
        task: u32,
    ) -> TaskNotes<'a> {
        TaskNotes {
            rt,
            folder,
            name,
            task,
            has_told: AtomicBool::new(false),
        }
    }

    /// Whether nothing was told before.
    fn may_tell(&self) -> bool {
        !self.has_told.swap(true, Ordering::SeqCst)
    }

    /// Tells why the note of this task was not read or written.
    fn tell_of(&self, task: u32, fault: &io::Error) {
        if self.may_tell() {
            let name = &self.name;
            let _ = eprintln!(self.rt; "pbcube_task: cannot exchange {name}/{task}.note: {fault}");
        }
    }

    /// Tells why a block was not claimed.
    fn tell_of_claim(&self, block: Block, fault: &io::Error) {
        if self.may_tell() {
            let (name, Block { task, number }) = (&self.name, block);
            let _ = eprintln!(self.rt;
                "pbcube_task: cannot claim {name}/{task}.{number}.claim: {fault}"
            );
        }
    }
}

impl Notes for TaskNotes<'_> {
    fn read(&self, task: u32, room: &mut [u8]) -> io::Result<Option<usize>> {
        match self.folder.read(task, room) {
            Ok(found) => Ok(found),
            Err(fault) => {
                self.tell_of(task, &fault);
                Err(fault)
            }
        }
    }

    fn write(&self, worker: u32, text: &[u8]) -> io::Result<()> {
        match self.folder.write(worker, text) {
            Ok(()) => Ok(()),
            Err(fault) => {
                self.tell_of(self.task, &fault);
                Err(fault)
            }
        }
    }

    fn claim(
        &self,
        worker: u32,
        block: Block,
        text: &[u8],
        room: &mut [u8],
    ) -> io::Result<Option<usize>> {
        match self.folder.claim(worker, block, text, room) {
            Ok(found) => Ok(found),
            Err(fault) => {
                self.tell_of_claim(block, &fault);
                Err(fault)
            }
        }
    }

    fn tell_foreign(&self, block: Block) {
        if self.may_tell() {
            let (name, Block { task, number }) = (&self.name, block);
            let _ = eprintln!(self.rt;
                "pbcube_task: {name}/{task}.{number}.claim is of another instance or division: give --exchange a folder of its own"
            );
        }
    }

    // The faults of the other calls are told there, with their files.
    fn tell(&self, fault: &io::Error) {
        if self.may_tell() {
            let name = &self.name;
            let _ = eprintln!(self.rt;
                "pbcube_task: cannot exchange assignments in {name}: {fault}"
            );
        }
    }
}

//! Notes in a folder of the system.
ghost use Rattle.std.specs.Prelude.{◌≤◌, length, IfOk, IfSome};

use crate::claimant::Block;
use crate::notes::Notes;
use pb_inst::Memory;
use std::alloc::Global;
use std::fs::{self, File};
use std::io::{self, Error, ErrorKind, Read, Write};
use std::rt::Files;
use std::sync::atomic::{AtomicBool, Ordering};

/// How often a worker tries to write a note or a claim. Where it fails but for the last time, another run of the same task may have
/// taken its draft away. Chosen by hand.
const MOST_TRIES: u32 = 16;

/// A folder of notes and claims. The note of task 3 is the file `3.note`. Worker 2 first writes it whole to `3.2.new` and then
/// renames that file, so that no reader sees half a note. The claim on block 5 of task 4 is the file `4.5.claim`. Worker 2 first
/// writes it to `3.2.claim.new`, and then gives that file its second name, which one of all workers can. Where the folder knows no
/// second names, that is a fault, and nobody claims anything. Two runs of a task at a time have the same drafts. Where one takes
/// away a draft of the other, the other writes it again. All claims of a task have the same text, whichever run writes them.
#[derive(Drop)]
pub struct Folder<'a, R> {
    rt: &'a R,
    alloc: Global,
    folder: String,
    task: u32,
    /// The paths of the notes of all tasks.
    notes: Vec<String>,
    /// The paths of the files to which the workers write notes.
    drafts: Vec<String>,
    has_told: AtomicBool,
}

impl<'a, R: Files> Folder<'a, R> {
    /// The notes in the folder of this name, of `tasks` tasks with the numbers from 0 on, for the workers of one of them. No file
    /// is touched. Fails where memory is refused.
    pub fn new(
        alloc: Global,
        rt: &'a R,
        folder: &str,
        task: u32,
        tasks: u32,
        workers: u32,
    ) -> Result<Folder<'a, R>, Memory> {
        let name = String::from_str(alloc, folder)?;
        let mut notes = Vec::new(alloc);
        for number in 0..tasks {
            notes.push(format!(in alloc; "{folder}/{number}.note")?)?;
        }
        let mut drafts = Vec::new(alloc);
        for worker in 0..workers {
            drafts.push(format!(in alloc; "{folder}/{task}.{worker}.new")?)?;
        }
        Ok(Folder {
            rt,
            alloc,
            folder: name,
            task,
            notes,
            drafts,
            has_told: AtomicBool::new(false),
        })
    }

    /// Makes the folder, and those that it lies in, where they are missing.
    pub fn make(&self) -> io::Result<()> {
        fs::create_dir_all(self.rt, self.folder.as_str())
    }

    /// Reads a file into the room, if there is one. What is not a file is a fault, since reading a pipe might wait for ever.
    fn read_file(&self, path: &str, room: &mut [u8]) -> io::Result<Option<usize>>
        ensures { IfOk result (λ found. IfSome found (λ n. n ≤ length room.new)) }
    {
        match fs::metadata(self.rt, path) {
            Ok(found) if found.is_file() => {}
            Ok(_) => return Err(Error::from(ErrorKind::InvalidInput)),
            Err(fault) => return none_where_missing(fault),
        }
        match File::open(self.rt, path) {
            Ok(mut file) => {
                let len = fill(&mut file, room)?;
                Ok(Some(len))
            }
            Err(fault) => none_where_missing(fault),
        }
    }

    /// Writes a draft.
    fn write_draft(&self, draft: &str, text: &[u8]) -> io::Result<()> {
        let mut file = create_anew(self.rt, draft)?;
        file.write_all(text)
    }

    /// Writes a note of this path, by way of a draft. A fault may pass.
    fn try_to_write(&self, draft: &str, path: &str, text: &[u8]) -> io::Result<()> {
        self.write_draft(draft, text)?;
        fs::rename(self.rt, draft, path)
    }

    /// Reads the claim of this path, where there is one, and else makes it, by way of a draft. A fault may pass.
    fn try_to_claim(
        &self,
        draft: &str,
        path: &str,
        text: &[u8],
        room: &mut [u8],
    ) -> io::Result<Option<usize>>
        ensures { IfOk result (λ found. IfSome found (λ n. n ≤ length room.new)) }
    {
        if let Some(len) = self.read_file(path, room)? {
            return Ok(Some(len));
        }
        self.make_claim(draft, path, text)?;
        Ok(None)
    }

    /// Makes a claim of this path. Fails with the kind `AlreadyExists` where there is one.
    fn make_claim(&self, draft: &str, path: &str, text: &[u8]) -> io::Result<()> {
        self.write_draft(draft, text)?;
        let made = fs::hard_link(self.rt, draft, path);
        // A draft that stays is replaced by the next one.
        let _ = fs::remove_file(self.rt, draft);
        made
    }
}

impl<R: Files + Eprint> Notes for Folder<'_, R> {
    fn read(&self, task: u32, room: &mut [u8]) -> io::Result<Option<usize>> {
        match self.notes.get(task as usize) {
            Some(path) => self.read_file(path.as_str(), room),
            None => Ok(None),
        }
    }

    fn write(&self, worker: u32, text: &[u8]) -> io::Result<()> {
        let (Some(note), Some(draft)) = (
            self.notes.get(self.task as usize),
            self.drafts.get(worker as usize),
        ) else {
            return Err(Error::from(ErrorKind::InvalidInput));
        };
        for _ in 1..MOST_TRIES {
            match self.try_to_write(draft.as_str(), note.as_str(), text) {
                Err(fault) if may_pass(&fault) => {}
                ended => return ended,
            }
        }
        self.try_to_write(draft.as_str(), note.as_str(), text)
    }

    fn claim(
        &self,
        worker: u32,
        block: Block,
        text: &[u8],
        room: &mut [u8],
    ) -> io::Result<Option<usize>> {
        if self.drafts.get(worker as usize).is_none() {
            return Err(Error::from(ErrorKind::InvalidInput));
        }
        let (folder, own) = (&self.folder, self.task);
        let (Ok(path), Ok(draft)) = (
            format!(in self.alloc; "{folder}/{}.{}.claim", block.task, block.number),
            format!(in self.alloc; "{folder}/{own}.{worker}.claim.new"),
        ) else {
            return Err(Error::from(ErrorKind::OutOfMemory));
        };
        // Where another worker was first, the next try reads its claim. A name that leads nowhere is nobody's claim.
        for _ in 1..MOST_TRIES {
            match self.try_to_claim(draft.as_str(), path.as_str(), text, room) {
                Err(fault) if may_pass(&fault) => {}
                ended => return ended,
            }
        }
        self.try_to_claim(draft.as_str(), path.as_str(), text, room)
    }

    // Writes one line to the standard error, as for a fault.
    fn tell_foreign(&self, block: Block) {
        if !self.has_told.swap(true, Ordering::SeqCst) {
            let folder = &self.folder;
            let _ = eprintln!(self.rt;
                "{folder}/{}.{}.claim is no claim of this division",
                block.task, block.number
            );
        }
    }

    // Writes one line to the standard error, whose own faults are ignored.
    fn tell(&self, fault: &io::Error) {
        if !self.has_told.swap(true, Ordering::SeqCst) {
            let folder = &self.folder;
            let _ = eprintln!(self.rt; "cannot exchange notes in {folder}: {fault}");
        }
    }
}

/// Makes a file of this name. What has the name already, such as a draft that was left there, is removed and never opened, since
/// a pipe might wait for ever and a link might lead to another file.
fn create_anew<R: Files>(rt: &R, path: &str) -> io::Result<R::File> {
    match File::create_new(rt, path) {
        Err(fault) if fault.kind() == ErrorKind::AlreadyExists => {
            fs::remove_file(rt, path)?;
            File::create_new(rt, path)
        }
        made => made,
    }
}

/// Whether the fault is that a file is there or is not, which another run of the same task may have brought about.
fn may_pass(fault: &io::Error) -> bool {
    matches!(fault.kind(), ErrorKind::AlreadyExists | ErrorKind::NotFound)
}

/// No note where the file is missing, and else the fault.
fn none_where_missing(fault: io::Error) -> io::Result<Option<usize>>
    ensures { IfOk result (λ found. IfSome found (λ n. n ≤ 0)) }
{
    if fault.kind() == ErrorKind::NotFound {
        Ok(None)
    } else {
        Err(fault)
    }
}

/// Reads a file into the room until that is full, and answers how many bytes it got.
fn fill<F: Read>(file: &mut F, room: &mut [u8]) -> io::Result<usize>
    ensures { IfOk result (λ n. n ≤ length room.new) }
{
    let mut filled = 0;
    while filled < room.len() {
        match file.read(&mut room[filled..]) {
            Ok(0) => return Ok(filled),
            Ok(more) => filled += more,
            Err(fault) => return Err(fault),
        }
    }
    Ok(filled)
}

//! Notes and claims in a folder of the system.

use pb_notes::{Block, Folder, Notes};
use std::alloc::AllocError;
use std::os::unix::fs::symlink;
use std::{env, fs, io};

/// How many tasks there are, and how many workers of each.
const TASKS: u32 = 3;

const WORKERS: u32 = 2;

/// The block that is claimed.
const BLOCK: Block = Block { task: 0, number: 5 };

/// What is read of a note or a claim.
#[derive(Clone, Copy)]
enum Found {
    /// All that it has, or its first ten bytes, for which there is room.
    Text(&'static [u8]),
    Nothing,
    Fault,
}

/// What the notes of a task are asked for.
#[derive(Clone, Copy)]
enum Call {
    Make,
    /// A worker writes this text.
    Write(u32, &'static [u8]),
    /// A worker cannot write.
    WriteFails(u32),
    /// The note of a task is read, and this is found.
    Read(u32, Found),
    /// A worker claims the block by this text, and this is found there.
    Claim(u32, &'static [u8], Found),
}

/// What is put under a name, or is to be there.
#[derive(Clone, Copy)]
enum Thing {
    /// A link to this file.
    Link(&'static str),
    Folder,
    Nothing,
}

/// What happens in a folder of notes.
#[derive(Clone, Copy)]
enum Step {
    /// The notes of this task are asked.
    Ask(u32, Call),
    /// This is put there under a name, or is to be there.
    Name(&'static str, Thing),
    /// There are this number of files.
    Files(usize),
}

/// Whether reading the note of a task finds what is expected.
fn finds(notes: &Folder<'_, HostRuntime>, task: u32, expected: Found) -> bool {
    let mut room = [0; 10];
    let answer = notes.read(task, &mut room);
    is_as_expected(answer, &room, expected)
}

/// Whether claiming the block finds what is expected.
fn claims(notes: &Folder<'_, HostRuntime>, worker: u32, text: &[u8], expected: Found) -> bool {
    let mut room = [0; 10];
    let answer = notes.claim(worker, BLOCK, text, &mut room);
    is_as_expected(answer, &room, expected)
}

/// Whether what was read into the room is what is expected.
fn is_as_expected(answer: io::Result<Option<usize>>, room: &[u8; 10], expected: Found) -> bool {
    match (answer, expected) {
        (Ok(Some(len)), Found::Text(text)) => &room[..len.min(10)] == text,
        (Ok(None), Found::Nothing) | (Err(_), Found::Fault) => true,
        _ => false,
    }
}

fn goes(notes: &Folder<'_, HostRuntime>, call: Call) -> bool {
    match call {
        Call::Make => notes.make().is_ok(),
        Call::Write(worker, text) => notes.write(worker, text).is_ok(),
        Call::WriteFails(worker) => notes.write(worker, b"text").is_err(),
        Call::Read(task, expected) => finds(notes, task, expected),
        Call::Claim(worker, text, expected) => claims(notes, worker, text, expected),
    }
}

fn lies(rt: &HostRuntime, path: &str, thing: Thing) -> bool {
    match thing {
        Thing::Link(target) => symlink(rt, target, path).is_ok(),
        Thing::Folder => fs::create_dir_all(rt, path).is_ok(),
        Thing::Nothing => fs::metadata(rt, path).is_err(),
    }
}

/// The path of this name in a folder.
fn within(rt: &HostRuntime, folder: &str, name: &str) -> Result<String, AllocError> {
    format!(in rt.alloc(); "{folder}/{name}")
}

/// How many files a folder has, and none where it cannot be read.
fn files(rt: &HostRuntime, folder: &str) -> usize {
    match fs::read_dir(rt, folder) {
        Ok(files) => files.count(),
        Err(_) => 0,
    }
}

/// Makes a step, and answers whether it went as it says.
fn makes(rt: &HostRuntime, folder: &str, step: Step) -> bool {
    match step {
        Step::Ask(task, call) => {
            match Folder::new(rt.alloc(), rt, folder, task, TASKS, WORKERS) {
                Ok(notes) => goes(&notes, call),
                Err(_) => false,
            }
        }
        Step::Name(name, thing) => match within(rt, folder, name) {
            Ok(path) => lies(rt, &path, thing),
            Err(_) => false,
        },
        Step::Files(count) => files(rt, folder) == count,
    }
}

/// The place of the first step that went otherwise than it says.
fn first_otherwise(rt: &HostRuntime, folder: &str, steps: &[Step]) -> Option<usize> {
    for (place, step) in steps.iter().enumerate() {
        if !makes(rt, folder, *step) {
            return Some(place);
        }
    }
    None
}

const SCENES: &[(&str, &[Step])] = &[
    (
        "notes are written and read",
        &[
            Step::Ask(1, Call::Read(1, Found::Nothing)),
            Step::Ask(1, Call::WriteFails(0)),
            Step::Ask(1, Call::Make),
            Step::Ask(2, Call::Make),
            Step::Ask(1, Call::Read(1, Found::Nothing)),
            Step::Ask(1, Call::Read(3, Found::Nothing)),
            Step::Ask(1, Call::Write(0, b"first")),
            Step::Ask(2, Call::Read(1, Found::Text(b"first"))),
            Step::Ask(2, Call::Read(2, Found::Nothing)),
            Step::Ask(1, Call::Write(1, b"a longer one")),
            Step::Ask(1, Call::Read(1, Found::Text(b"a longer o"))),
            Step::Ask(2, Call::Read(1, Found::Text(b"a longer o"))),
            Step::Ask(2, Call::Write(0, b"")),
            Step::Ask(1, Call::Read(2, Found::Text(b""))),
            Step::Ask(1, Call::Read(1, Found::Text(b"a longer o"))),
            Step::Ask(1, Call::WriteFails(2)),
            Step::Files(2),
        ],
    ),
    // Of all who claim a block one does, and the others find its claim. No draft stays.
    (
        "a block is claimed once",
        &[
            Step::Ask(1, Call::Claim(0, b"of 1", Found::Fault)),
            Step::Ask(1, Call::Make),
            Step::Ask(1, Call::Claim(2, b"of 1", Found::Fault)),
            Step::Ask(1, Call::Claim(0, b"of 1", Found::Nothing)),
            Step::Ask(2, Call::Claim(0, b"of 2", Found::Text(b"of 1"))),
            Step::Ask(1, Call::Claim(1, b"of 1", Found::Text(b"of 1"))),
            Step::Files(1),
        ],
    ),
    (
        "what leads nowhere is nobody's claim",
        &[
            Step::Ask(1, Call::Make),
            Step::Name("0.5.claim", Thing::Link("nowhere")),
            Step::Ask(1, Call::Claim(0, b"of 1", Found::Fault)),
            Step::Files(1),
        ],
    ),
    (
        "a folder is no claim",
        &[
            Step::Ask(1, Call::Make),
            Step::Name("0.5.claim/in", Thing::Folder),
            Step::Ask(1, Call::Claim(0, b"of 1", Found::Fault)),
        ],
    ),
    // A file that lies in the place of a draft is not opened: nothing is written through a link.
    (
        "drafts are made anew",
        &[
            Step::Ask(1, Call::Make),
            Step::Name("1.0.new", Thing::Link("outside")),
            Step::Ask(1, Call::Write(0, b"text")),
            Step::Ask(1, Call::Read(1, Found::Text(b"text"))),
            Step::Name("outside", Thing::Nothing),
        ],
    ),
    (
        "what is no file is a fault",
        &[
            Step::Ask(1, Call::Make),
            Step::Name("0.note", Thing::Link("/dev/zero")),
            Step::Ask(1, Call::Read(0, Found::Fault)),
            Step::Name("2.note/in", Thing::Folder),
            Step::Ask(1, Call::Read(2, Found::Fault)),
            Step::Name("1.note/in", Thing::Folder),
            Step::Ask(1, Call::WriteFails(0)),
        ],
    ),
];

/// Makes a folder of a new name in the folder of temporary files.
fn new_folder(rt: &HostRuntime) -> Option<String> {
    let above = env::temp_dir(rt).ok()?;
    let above = above.as_str();
    for number in 0..10_000 {
        let name = format!(in rt.alloc(); "{above}/pbcube_notes_{number}").ok()?;
        if fs::create_dir(rt, name.as_str()).is_ok() {
            return Some(name);
        }
    }
    None
}

#[test]
fn notes_in_a_folder(rt: HostRuntime) {
    for (name, steps) in SCENES {
        let above = new_folder(&rt).expect(&rt, "a folder");
        let folder = within(&rt, &above, "in/it").expect(&rt, "memory");
        let otherwise = first_otherwise(&rt, &folder, *steps);
        assert!(rt; fs::remove_dir_all(&rt, above.as_str()).is_ok());
        assert!(rt; otherwise.is_none(), "{name}: {otherwise:?}");
    }
}

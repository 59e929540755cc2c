//! What an exchange reads and writes, and when, over a place of the tests' own that notes the calls.
ghost use Rattle.std.specs.Prelude.{◌≤◌, length};

use crate::tests::note_texts::{DIGEST, assignment, below_first_line, bits_of, note};
use pb_inst::{Assignment, Number};
use pb_notes::{Block, Exchange, Notes, looks_apart};
use std::alloc::Global;
use std::cell::{Cell, RefCell};
use std::io::{self, Error, ErrorKind};
use std::process::Abort;

/// The variables of all notes.
const VARS: u32 = 4;

/// The task whose exchange is tested.
const TASK: u32 = 1;

/// Three notes, empty where there is none, and the calls so far: `r0` for a read of task 0, `w` for a write, and `!` where a
/// fault was told.
#[derive(Drop)]
struct Shelf {
    first: RefCell<Vec<u8>>,
    second: RefCell<Vec<u8>>,
    third: RefCell<Vec<u8>>,
    calls: RefCell<Vec<u8>>,
    fails: Cell<bool>,
}

impl Shelf {
    fn new(alloc: Global) -> Shelf {
        Shelf {
            first: RefCell::new(Vec::new(alloc)),
            second: RefCell::new(Vec::new(alloc)),
            third: RefCell::new(Vec::new(alloc)),
            calls: RefCell::new(Vec::new(alloc)),
            fails: Cell::new(false),
        }
    }

    /// The place of a task's note.
    fn place(&self, task: u32) -> Option<&RefCell<Vec<u8>>> {
        match task {
            0 => Some(&self.first),
            1 => Some(&self.second),
            2 => Some(&self.third),
            _ => None,
        }
    }

    /// Puts a text in the place of a task's note.
    fn put(&self, task: u32, text: &[u8]) {
        if let Some(note) = self.place(task)
            && let Ok(mut note) = note.try_borrow_mut()
        {
            note.clear();
            let _ = note.extend_from_slice(text);
        }
    }

    /// Whether this is the note of a task.
    fn has(&self, task: u32, text: &[u8]) -> bool {
        let Some(note) = self.place(task) else {
            return false;
        };
        match note.try_borrow() {
            Ok(note) => note.as_slice() == text,
            Err(_) => false,
        }
    }

    fn call(&self, what: &[u8]) {
        if let Ok(mut calls) = self.calls.try_borrow_mut() {
            let _ = calls.extend_from_slice(what);
        }
    }

    /// Whether these were the calls since this was asked last.
    fn had_calls(&self, expected: &[u8]) -> bool {
        let Ok(mut calls) = self.calls.try_borrow_mut() else {
            return false;
        };
        let is_so = calls.as_slice() == expected;
        calls.clear();
        is_so
    }
}

/// Copies as many bytes as there is room for, and answers how many these are.
fn copy(text: &[u8], room: &mut [u8]) -> usize
    ensures { result ≤ length room.new }
{
    let len = text.len().min(room.len());
    room[..len].copy_from_slice(&text[..len]);
    len
}

impl Notes for Shelf {
    fn read(&self, task: u32, room: &mut [u8]) -> io::Result<Option<usize>> {
        self.call(match task {
            0 => b"r0",
            1 => b"r1",
            2 => b"r2",
            _ => b"r?",
        });
        if self.fails.get() {
            return Err(Error::from(ErrorKind::Other));
        }
        let Some(note) = self.place(task) else {
            return Ok(None);
        };
        match note.try_borrow() {
            Ok(note) if !note.is_empty() => Ok(Some(copy(&note, room))),
            _ => Ok(None),
        }
    }

    fn write(&self, _worker: u32, text: &[u8]) -> io::Result<()> {
        self.call(b"w");
        if self.fails.get() {
            return Err(Error::from(ErrorKind::Other));
        }
        self.put(TASK, text);
        Ok(())
    }

    fn claim(
        &self,
        _worker: u32,
        _block: Block,
        _text: &[u8],
        _room: &mut [u8],
    ) -> io::Result<Option<usize>> {
        self.call(b"c");
        Ok(None)
    }

    fn tell_foreign(&self, _block: Block) {
        self.call(b"?");
    }

    fn tell(&self, _fault: &io::Error) {
        self.call(b"!");
    }
}

/// What happens to an exchange, or what is asked of the place.
#[derive(Clone, Copy)]
enum Move {
    /// A task's note tells this cost, and values of these bits.
    Put(u32, Number, u64),
    /// A task's note has this text below its first line.
    PutText(u32, &'static [u8]),
    /// The search found an assignment.
    Offer(Number, u64),
    /// A call while the best assignment of the search has this cost, which lends these bits or nothing.
    Borrow(Number, Option<u64>),
    /// All calls before the next look. They lend nothing.
    Pause(Number),
    /// A call with an assignment of one more variable, of these bits, lends nothing. Then that assignment is offered.
    Longer(u64),
    /// A piece begins.
    Begin,
    /// The place has a fault from now on, or has none.
    Fail(bool),
    /// These were the calls of the place since the last such move.
    Calls(&'static [u8]),
    /// A task's note is this one.
    Note(u32, Number, u64),
}

/// What a call of `borrow` lends.
fn lent(
    rt: &impl Abort,
    alloc: Global,
    exchange: &mut Exchange<'_, Shelf>,
    below: Number,
) -> Option<u64> {
    let mut values = Assignment::new(alloc, VARS).expect(rt, "memory");
    if exchange.borrow(below, &mut values) {
        Some(bits_of(&values))
    } else {
        None
    }
}

/// Whether none of the calls before the next look lends anything.
fn is_quiet(
    rt: &impl Abort,
    alloc: Global,
    exchange: &mut Exchange<'_, Shelf>,
    below: Number,
) -> bool {
    let mut is_quiet = true;
    for _ in 1..looks_apart(VARS) {
        is_quiet &= lent(rt, alloc, exchange, below).is_none();
    }
    is_quiet
}

/// Whether an assignment of one variable more is lent nothing. It is offered too.
fn passes_over_longer(
    rt: &impl Abort,
    alloc: Global,
    exchange: &mut Exchange<'_, Shelf>,
    bits: u64,
) -> bool {
    let mut longer = assignment(rt, alloc, VARS + 1, bits);
    let is_lent = exchange.borrow(100, &mut longer);
    exchange.offer(3, &longer);
    !is_lent && bits_of(&longer) == bits
}

/// Makes a move, and answers whether it went as it says.
fn goes(
    rt: &impl Abort,
    alloc: Global,
    exchange: &mut Exchange<'_, Shelf>,
    shelf: &Shelf,
    step: Move,
) -> bool {
    match step {
        Move::Put(task, cost, bits) => shelf.put(task, &note(rt, alloc, cost, VARS, bits)),
        Move::PutText(task, text) => shelf.put(task, &below_first_line(rt, alloc, text)),
        Move::Offer(cost, bits) => exchange.offer(cost, &assignment(rt, alloc, VARS, bits)),
        Move::Borrow(below, bits) => return lent(rt, alloc, exchange, below) == bits,
        Move::Pause(below) => return is_quiet(rt, alloc, exchange, below),
        Move::Longer(bits) => return passes_over_longer(rt, alloc, exchange, bits),
        Move::Begin => exchange.begin(),
        Move::Fail(fails) => shelf.fails.set(fails),
        Move::Calls(calls) => return shelf.had_calls(calls),
        Move::Note(task, cost, bits) => return shelf.has(task, &note(rt, alloc, cost, VARS, bits)),
    }
    true
}

/// The place of the first move that went otherwise than it says, in an exchange of `tasks` tasks, each of `workers` workers.
fn first_otherwise(
    rt: &impl Abort,
    alloc: Global,
    tasks: u32,
    workers: u32,
    moves: &[Move],
) -> Option<usize> {
    let shelf = Shelf::new(alloc);
    let mut exchange = Exchange::new(alloc, &shelf, DIGEST, VARS, TASK, tasks, 0, workers).expect(
        rt, "memory",
    );
    let mut first = None;
    for (place, step) in moves.iter().enumerate() {
        if !goes(rt, alloc, &mut exchange, &shelf, *step) {
            first = Some(place);
            break;
        }
    }
    first
}

const SCENES: &[(&str, u32, u32, &[Move])] = &[
    (
        "looks are apart, and other tasks have their turns",
        3,
        2,
        &[
            Move::Borrow(100, None),
            Move::Calls(b"r1r0r2"),
            Move::Pause(100),
            Move::Calls(b""),
            Move::Borrow(100, None),
            Move::Calls(b"r0"),
            Move::Pause(100),
            Move::Borrow(100, None),
            Move::Calls(b"r2"),
            Move::Pause(100),
            Move::Put(0, 5, 0b1010),
            Move::Borrow(100, Some(0b1010)),
            Move::Calls(b"r0"),
        ],
    ),
    (
        "the first call of a piece looks",
        3,
        2,
        &[
            Move::Borrow(100, None),
            Move::Calls(b"r1r0r2"),
            Move::Borrow(100, None),
            Move::Calls(b""),
            Move::Begin,
            Move::Borrow(100, None),
            Move::Calls(b"r0"),
            Move::Pause(100),
            Move::Calls(b""),
        ],
    ),
    (
        "the first look is at the task's own note",
        3,
        2,
        &[
            Move::Put(1, 5, 0b0001),
            Move::Put(0, 3, 0b0010),
            Move::Borrow(100, Some(0b0001)),
            Move::Calls(b"r1"),
            Move::Pause(5),
            Move::Borrow(5, Some(0b0010)),
            Move::Calls(b"r0"),
        ],
    ),
    (
        "the first look goes on where there is no note",
        3,
        2,
        &[
            Move::PutText(1, b"cost 5\nvalues 0\n"),
            Move::Put(2, 3, 0b0010),
            Move::Borrow(100, Some(0b0010)),
            Move::Calls(b"r1r0r2"),
        ],
    ),
    (
        "the first look ends at a note that is too dear",
        3,
        2,
        &[
            Move::Put(1, 5, 0b0001),
            Move::Put(0, 3, 0b0010),
            Move::Borrow(5, None),
            Move::Calls(b"r1"),
        ],
    ),
    (
        "what is found is written at the next look",
        3,
        2,
        &[
            Move::Borrow(100, None),
            Move::Calls(b"r1r0r2"),
            Move::Offer(9, 0b0100),
            Move::Offer(7, 0b1000),
            Move::Offer(8, 0b0001),
            Move::Pause(7),
            Move::Calls(b""),
            Move::Borrow(7, None),
            Move::Calls(b"r1wr0"),
            Move::Note(1, 7, 0b1000),
            Move::Offer(7, 0b0001),
            Move::Offer(-2, 0b0011),
            Move::Begin,
            Move::Borrow(-2, None),
            Move::Calls(b"r2"),
            Move::Note(1, 7, 0b1000),
            Move::Begin,
            Move::Borrow(-2, None),
            Move::Calls(b"r1wr0"),
            Move::Note(1, -2, 0b0011),
            Move::Begin,
            Move::Borrow(-2, None),
            Move::Calls(b"r2"),
        ],
    ),
    (
        "from one writing to the next there are as many looks as other tasks",
        5,
        2,
        &[
            Move::Borrow(100, None),
            Move::Calls(b"r1r0r?r?r2"),
            Move::Offer(9, 0b0100),
            Move::Begin,
            Move::Borrow(9, None),
            Move::Calls(b"r1wr0"),
            Move::Offer(8, 0b1000),
            Move::Begin,
            Move::Borrow(8, None),
            Move::Begin,
            Move::Borrow(8, None),
            Move::Offer(7, 0b0010),
            Move::Begin,
            Move::Borrow(7, None),
            Move::Calls(b"r?r?r2"),
            Move::Note(1, 9, 0b0100),
            Move::Begin,
            Move::Borrow(7, None),
            Move::Calls(b"r1wr0"),
            Move::Note(1, 7, 0b0010),
        ],
    ),
    (
        "the only worker of a task knows what it has written",
        2,
        1,
        &[
            Move::Borrow(100, None),
            Move::Calls(b"r1r0"),
            Move::Offer(9, 0b0100),
            Move::Begin,
            Move::Borrow(9, None),
            Move::Calls(b"r1wr0"),
            Move::Offer(8, 0b1000),
            Move::Begin,
            Move::Borrow(8, None),
            Move::Calls(b"wr0"),
            Move::Note(1, 8, 0b1000),
        ],
    ),
    (
        "what is taken over is passed on",
        3,
        2,
        &[
            Move::Put(0, 5, 0b1010),
            Move::Borrow(100, Some(0b1010)),
            Move::Calls(b"r1r0"),
            Move::Pause(5),
            Move::Borrow(5, None),
            Move::Calls(b"r1wr2"),
            Move::Note(1, 5, 0b1010),
            Move::Pause(5),
            Move::Borrow(5, None),
            Move::Calls(b"r0"),
        ],
    ),
    (
        "what was not as it was told is not passed on",
        3,
        2,
        &[
            Move::Put(0, -99, 0b1010),
            Move::Borrow(100, Some(0b1010)),
            Move::Pause(100),
            Move::Offer(7, 0b0001),
            Move::Calls(b"r1r0"),
            Move::Borrow(7, None),
            Move::Calls(b"r1wr2"),
            Move::Note(1, 7, 0b0001),
        ],
    ),
    (
        "an own note that was not as it was told is written over",
        3,
        2,
        &[
            Move::Put(1, -99, 0b1010),
            Move::Borrow(100, Some(0b1010)),
            Move::Calls(b"r1"),
            Move::Pause(100),
            Move::Offer(7, 0b0001),
            Move::Borrow(7, None),
            Move::Calls(b"wr0"),
            Move::Note(1, 7, 0b0001),
        ],
    ),
    (
        "a better note of another worker of the task stays",
        3,
        2,
        &[
            Move::Borrow(100, None),
            Move::Calls(b"r1r0r2"),
            Move::Put(1, 3, 0b0011),
            Move::Offer(7, 0b0001),
            Move::Begin,
            Move::Borrow(7, Some(0b0011)),
            Move::Calls(b"r1r1"),
            Move::Note(1, 3, 0b0011),
            Move::Put(1, 1, 0b0110),
            Move::Offer(2, 0b0001),
            Move::Begin,
            Move::Borrow(2, Some(0b0110)),
            Move::Calls(b"r1r1"),
            Move::Note(1, 1, 0b0110),
            Move::Offer(0, 0b0001),
            Move::Begin,
            Move::Borrow(0, None),
            Move::Calls(b"r1wr0"),
            Move::Note(1, 0, 0b0001),
        ],
    ),
    (
        "a better own note is looked at before it is written over",
        3,
        2,
        &[
            Move::Borrow(100, None),
            Move::Calls(b"r1r0r2"),
            Move::Put(1, 3, 0b0011),
            Move::Offer(7, 0b0001),
            Move::Pause(7),
            Move::Borrow(7, Some(0b0011)),
            Move::Calls(b"r1r1"),
            Move::Pause(3),
            Move::Borrow(3, None),
            Move::Calls(b"r0"),
            Move::Note(1, 3, 0b0011),
        ],
    ),
    (
        "an own note that came to tell what is not so is written over",
        3,
        2,
        &[
            Move::Borrow(100, None),
            Move::Calls(b"r1r0r2"),
            Move::Put(1, -99, 0b1010),
            Move::Offer(7, 0b0001),
            Move::Pause(7),
            Move::Borrow(7, Some(0b1010)),
            Move::Calls(b"r1r1"),
            Move::Pause(7),
            Move::Borrow(7, None),
            Move::Calls(b"wr0"),
            Move::Note(1, 7, 0b0001),
        ],
    ),
    (
        "texts that are no notes are passed over",
        3,
        2,
        &[
            Move::Borrow(100, None),
            Move::PutText(0, b"cost 5\nvalues 01100\n"),
            Move::PutText(
                2,
                b"cost 5\nvalues 0110\nand more than there is room for, since a cost may have forty digits\n",
            ),
            Move::Pause(100),
            Move::Borrow(100, None),
            Move::Pause(100),
            Move::Borrow(100, None),
            Move::Calls(b"r1r0r2r0r2"),
        ],
    ),
    (
        "faults are told, and later looks try again",
        3,
        2,
        &[
            Move::Fail(true),
            Move::Borrow(100, None),
            Move::Calls(b"r1!"),
            Move::Offer(7, 0b0001),
            Move::Pause(7),
            Move::Borrow(7, None),
            Move::Calls(b"r1!w!r0!"),
            Move::Fail(false),
            Move::Pause(7),
            Move::Put(2, 3, 0b0011),
            Move::Borrow(7, Some(0b0011)),
            Move::Calls(b"r1wr2"),
            Move::Note(1, 7, 0b0001),
        ],
    ),
    (
        "one task alone reads its own note",
        1,
        2,
        &[
            Move::Put(1, 5, 0b0001),
            Move::Borrow(100, Some(0b0001)),
            Move::Pause(5),
            Move::Borrow(5, None),
            Move::Offer(3, 0b0001),
            Move::Pause(3),
            Move::Borrow(3, None),
            Move::Calls(b"r1r1w"),
            Move::Note(1, 3, 0b0001),
        ],
    ),
    (
        "no task at all reads its own note",
        0,
        2,
        &[Move::Borrow(100, None), Move::Calls(b"r1")],
    ),
    (
        "other lengths are passed over",
        3,
        2,
        &[
            Move::Put(1, 5, 0b0110),
            Move::Longer(0b1_0000),
            Move::Calls(b""),
            Move::Borrow(100, Some(0b0110)),
            Move::Calls(b"r1"),
        ],
    ),
];

#[test]
fn exchanges_go_as_told(rt: HostRuntime) {
    for (name, tasks, workers, moves) in SCENES {
        let otherwise = first_otherwise(&rt, rt.alloc(), *tasks, *workers, *moves);
        assert!(rt; otherwise.is_none(), "{name}: {otherwise:?}");
    }
}

/// Numbers of variables, and how many calls looks are apart.
const APART: &[(u32, u32)] = &[
    (0, 8),
    (1024, 8),
    (1025, 7),
    (3000, 2),
    (8192, 1),
    (100_000, 1),
];

#[test]
fn more_variables_are_looked_for_more_often(rt: HostRuntime) {
    for (vars, apart) in APART {
        assert!(rt; looks_apart(*vars) == *apart, "{vars}");
    }
}

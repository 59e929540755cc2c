//! One worker's side of the exchange of notes.
ghost use Rattle.std.specs.Prelude.{◌≡◌, ◌≤◌, length, IfOk, IfSome};

use crate::notes::Notes;
use crate::reading::{Note, read_note};
use crate::writing::{note_room, write_note};
use pb_inst::{Assignment, Memory, Number, next_in_turn, next_other};
use std::alloc::Global;
use std::io;
use std::marker::Model;

/// The most calls of `borrow` from one look to the next. Chosen by hand.
const MOST_APART: u32 = 8;

/// About the number of variables times the calls of `borrow` from one look to the next, so that large instances look at each
/// call: on one of them, four tasks took half as long again with looks 2,048 decisions apart as with looks 256 apart.
const VARIABLES_OF_A_LOOK: u32 = 8192;

/// The number of calls of `borrow` from one look to the next, where no piece begins in between. Successive calls are the same
/// number of decisions apart, and a decision takes longer where there are more variables. So the more variables there are, the
/// fewer calls lie between two looks: from 4,097 variables on each call looks.
pub fn looks_apart(vars: u32) -> u32
    ensures in_range { (1 ≤ result) × (result ≤ 8) }
{
    (VARIABLES_OF_A_LOOK / vars.max(1)).clamp(1, MOST_APART)
}

/// What came of a look at the note of one task.
#[derive(Clone, Copy)]
enum Look {
    /// There is no note of the instance.
    Nothing,
    /// There is one, whose cost is not low enough.
    Declined,
    /// There is one, and it was lent.
    Lent,
    /// The place has a fault, which was reported.
    Fault,
}

/// What a worker of a task exchanges with other tasks: it writes the best assignments of its search as the task's note, and lends
/// the search those of other notes. It takes all its memory at the start. It reports a fault of the place and goes on: the next
/// look tries again. Contracts see the number of variables.
#[derive(Drop)]
pub struct Exchange<'n, N> {
    notes: &'n N,
    digest: [u8; 32],
    task: u32,
    tasks: u32,
    worker: u32,
    /// Whether the task has no other worker.
    is_alone: bool,
    /// The assignment that is to be written, if one is, or else the last one that was lent from another task's note.
    values: Assignment,
    /// The cost of what is to be written.
    due: Option<Number>,
    /// The cost that the note told of the assignment that was lent. The next call shows whether the search took it over.
    lent: Option<Number>,
    /// The least cost that the task's note is known to tell.
    written: Option<Number>,
    /// Whether the task's own note was looked at and its assignment was not what it told.
    own_was_wrong: bool,
    /// The task whose note was looked at last.
    last: u32,
    has_looked: bool,
    /// The number of calls that pass before the next look.
    pause: u32,
    /// The number of looks that pass before the next writing.
    rest: u32,
    text: Vec<u8>,
    /// Room for a note that is read, and one byte more.
    room: Vec<u8>,
}

impl<'n, N> Model for Exchange<'n, N> {
    ghost use Rattle.std.specs.Prelude.{ℕ, ◌+◌, ◌≤◌, length, vec_capacity};

    ghost Value = { ℕ };

    ghost view = { λ e. length e.values };

    ghost invariant = { λ e. 143 + length e.values ≤ vec_capacity e.text };
}

impl<'n, N: Notes> Exchange<'n, N> {
    /// The side of this worker of this task, which has `workers` workers, of `tasks` tasks with the numbers from 0 on. The digest is
    /// the SHA-256 of the instance's text, and `vars` its number of variables. Fails where memory is refused.
    pub fn new(
        alloc: Global,
        notes: &'n N,
        digest: [u8; 32],
        vars: u32,
        task: u32,
        tasks: u32,
        worker: u32,
        workers: u32,
    ) -> Result<Exchange<'n, N>, Memory>
        ensures { IfOk result (λ exchange. exchange ≡ vars) }
    {
        let values = Assignment::new(alloc, vars)?;
        let text = Vec::with_capacity(alloc, note_room(vars))?;
        let room = vec![in alloc; 0u8; note_room(vars) + 1]?;
        Ok(Exchange {
            notes,
            digest,
            task,
            tasks,
            worker,
            is_alone: workers <= 1,
            values,
            due: None,
            lent: None,
            written: None,
            own_was_wrong: false,
            last: task,
            has_looked: false,
            pause: 0,
            rest: 0,
            text,
            room,
        })
    }

    /// A piece is about to be searched: the next call of `borrow` looks. No file is touched.
    pub fn begin(&mut self)
        ensures { self.new ≡ self.old }
    {
        self.pause = 0;
    }

    /// Keeps an assignment of the search, to be written at the next look, where it costs less than what is written or to be
    /// written. An assignment to another number of variables is ignored. No file is touched.
    pub fn offer(&mut self, cost: Number, assignment: &Assignment)
        ensures { self.new ≡ self.old }
    {
        if assignment.len() != self.values.len() || !self.is_news(cost) {
            return;
        }
        self.values.copy_from(assignment);
        self.due = Some(cost);
    }

    /// Whether a cost is below the one that is written, and the one that is to be written.
    fn is_news(&self, cost: Number) -> bool {
        is_below(cost, self.written) && is_below(cost, self.due)
    }

    /// Looks, at the first call after `begin` and then at each `looks_apart`-th one: writes what is to be written, and reads one
    /// note. From one writing to the next there are as many looks as there are other tasks, each of which reads the note about once
    /// in as many looks of its own. At the first look the note that is read is the task's own, or, where it has none, that of the
    /// next task that has one; at a later look it is that of the next other task in turn. Where the task's own note turns out to
    /// tell less than what is to be written, that one is read.
    ///
    /// Where the note tells a cost below the given one, which is that of the best assignment of the search, answers true and
    /// copies its values into the assignment. They need not cost what the note tells, nor be feasible. Where the search takes
    /// them over, which the next call's cost shows, they are to be written as the task's own note, so that news spreads.
    ///
    /// For an assignment of another number of variables it does nothing.
    pub fn borrow(&mut self, below: Number, into: &mut Assignment) -> bool
        ensures same { self.new ≡ self.old }
        ensures same_length { length into.new ≡ length into.old }
    {
        self.settle(below);
        if into.len() != self.values.len() || !self.is_time_to_look() {
            return false;
        }
        self.write_due();
        if self.has_looked {
            self.look_at_next(below, into)
        } else {
            self.has_looked = true;
            self.look_at_first(below, into)
        }
    }

    /// Settles what becomes of the assignment that was lent. It is to be written where the search took it over, so that its best
    /// assignment costs no more, and has offered none since. An assignment that was not what its note told goes no further, and
    /// one of the task's own note is written already. An assignment that costs more than the best one is no longer to be written.
    fn settle(&mut self, best: Number)
        ensures { self.new ≡ self.old }
    {
        if let Some(cost) = self.lent {
            self.lent = None;
            self.settle_lent(cost, best);
        }
        if is_below(best, self.due) {
            self.due = None;
        }
    }

    /// Settles what becomes of a lent assignment, whose note told this cost, where the best assignment costs `best`.
    fn settle_lent(&mut self, cost: Number, best: Number)
        ensures { self.new ≡ self.old }
    {
        let is_own = self.last == self.task;
        if best > cost {
            self.own_was_wrong |= is_own;
        } else if !is_own && self.due.is_none() && is_below(cost, self.written) {
            self.due = Some(cost);
        }
    }

    /// Whether this call looks at the notes.
    fn is_time_to_look(&mut self) -> bool
        ensures { self.new ≡ self.old }
    {
        if self.pause > 0 {
            self.pause -= 1;
            return false;
        }
        self.pause = looks_apart(self.values.len()) - 1;
        true
    }

    /// Writes what is to be written as the task's note. A note there that tells less stays until it is looked at, which comes
    /// next: another worker of the task may have written it, or the task in an earlier run, or it is wrong. Where it was the only
    /// worker that wrote the note, it knows what that tells.
    fn write_due(&mut self)
        ensures { self.new ≡ self.old }
    {
        if self.rest > 0 {
            self.rest -= 1;
            return;
        }
        let Some(cost) = self.due else {
            return;
        };
        if self.is_alone && self.written.is_some() {
            self.write(cost);
            return;
        }
        match self.own_cost() {
            Some(own) if own < cost => {
                self.last = self.task;
                self.has_looked = false;
            }
            Some(own) if own == cost => self.is_written(cost),
            _ => self.write(cost),
        }
    }

    /// Writes what is to be written, with this cost, as the task's note.
    fn write(&mut self, cost: Number)
        ensures { self.new ≡ self.old }
    {
        write_note(&mut self.text, &self.digest, cost, &self.values);
        match self.notes.write(self.worker, &self.text) {
            Ok(()) => {
                self.is_written(cost);
                self.rest = self.tasks.saturating_sub(2);
            }
            Err(fault) => self.notes.tell(&fault),
        }
    }

    /// Records that the task's note tells this cost.
    fn is_written(&mut self, cost: Number)
        ensures { self.new ≡ self.old }
    {
        self.written = Some(cost);
        self.due = None;
        self.own_was_wrong = false;
    }

    /// The cost that the task's own note tells, if there is one and it was not found wrong.
    fn own_cost(&mut self) -> Option<Number>
        ensures { self.new ≡ self.old }
    {
        if self.own_was_wrong {
            return None;
        }
        let vars = self.values.len();
        match note_of(self.notes, &self.digest, vars, self.task, &mut self.room) {
            Ok(found) => found.map(|note| note.cost()),
            Err(fault) => {
                self.notes.tell(&fault);
                None
            }
        }
    }

    /// The first look: goes through the tasks, from its own on, to the first that has a note.
    fn look_at_first(&mut self, below: Number, into: &mut Assignment) -> bool
        requires { length into.old ≡ self.old }
        ensures same { self.new ≡ self.old }
        ensures same_length { length into.new ≡ length into.old }
    {
        for _ in 0..self.tasks.max(1) {
            match self.look_at(self.last, below, into) {
                Look::Nothing => self.last = next_in_turn(self.tasks, self.last),
                Look::Lent => return true,
                Look::Declined | Look::Fault => return false,
            }
        }
        false
    }

    /// A later look, at the note of the next other task.
    fn look_at_next(&mut self, below: Number, into: &mut Assignment) -> bool
        requires { length into.old ≡ self.old }
        ensures same { self.new ≡ self.old }
        ensures same_length { length into.new ≡ length into.old }
    {
        if self.tasks <= 1 {
            return false;
        }
        self.last = next_other(self.tasks, self.task, self.last);
        matches!(self.look_at(self.last, below, into), Look::Lent)
    }

    /// Lends the note of a task where it tells a cost below the given one.
    fn look_at(&mut self, task: u32, below: Number, into: &mut Assignment) -> Look
        requires { length into.old ≡ self.old }
        ensures same { self.new ≡ self.old }
        ensures same_length { length into.new ≡ length into.old }
    {
        let vars = self.values.len();
        let note = match note_of(self.notes, &self.digest, vars, task, &mut self.room) {
            Ok(Some(note)) => note,
            Ok(None) => return Look::Nothing,
            Err(fault) => {
                self.notes.tell(&fault);
                return Look::Fault;
            }
        };
        if note.cost() >= below {
            return Look::Declined;
        }
        note.copy_into(into);
        self.lent = Some(note.cost());
        if task != self.task {
            self.values.copy_from(into);
            self.due = None;
        }
        Look::Lent
    }
}

/// Whether a cost is below another one, or there is no other.
fn is_below(cost: Number, other: Option<Number>) -> bool {
    match other {
        Some(other) => cost < other,
        None => true,
    }
}

/// The note of a task, read into the room, if it has one of the instance.
fn note_of<'r, N: Notes>(
    notes: &N,
    digest: &[u8; 32],
    vars: u32,
    task: u32,
    room: &'r mut [u8],
) -> io::Result<Option<Note<'r>>>
    ensures { IfOk result (λ found. IfSome found (λ note. length note.values ≡ vars)) }
{
    match notes.read(task, room) {
        Ok(Some(len)) => Ok(read_note(digest, vars, &room[..len])),
        Ok(None) => Ok(None),
        Err(fault) => Err(fault),
    }
}

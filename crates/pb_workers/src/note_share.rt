//! The share of a worker with tasks that are not on its board: the notes that they exchange, and the pieces that they claim.
ghost use Rattle.std.specs.Prelude.{◌≡◌, ⊤, true};

use pb_inst::{Assignment, Memory, Number};
use pb_notes::{Block, Claims, Division, Exchange, Notes};
use pb_search::{Alone, Share};
use std::alloc::Global;
use std::io;

/// A worker's share with others who are not on its board.
pub trait OuterShare: Share {
    /// A piece is about to be searched.
    fn begin(&mut self)
        ensures { Self.lends self.new ≡ Self.lends self.old };

    /// Whether the worker may search a piece, which it claims among those others.
    fn may_search(&mut self, piece: u32) -> bool
        ensures { Self.lends self.new ≡ Self.lends self.old };
}

impl OuterShare for Alone {
    fn begin(&mut self) {}

    fn may_search(&mut self, _piece: u32) -> bool {
        true
    }
}

/// Where the workers of a task exchange notes with other tasks on the same pieces and claim these, and which task is theirs.
#[derive(Clone, Copy)]
pub struct Correspondence<'n, N> {
    pub notes: &'n N,
    /// How the instance was divided among the tasks.
    pub division: Division,
    /// The task's number, from 0 on.
    pub task: u32,
}

/// A worker's share beyond its board: an exchange of notes, where its task has one, and claims of pieces. What comes in may be
/// any bits, as with every share.
#[derive(Drop)]
pub struct NoteShare<'n, N: Notes> {
    beyond: Option<Beyond<'n, N>>,
}

/// What a worker shares with other tasks.
#[derive(Drop)]
struct Beyond<'n, N: Notes> {
    exchange: Exchange<'n, N>,
    claims: Claims<'n, N>,
}

impl<'n, N: Notes> NoteShare<'n, N> {
    /// The share of the worker of number `worker`, of `workers`, on an instance of `vars` variables. Without a correspondence there
    /// is nobody to share with. Fails where memory is refused.
    pub fn new(
        alloc: Global,
        correspondence: Option<&Correspondence<'n, N>>,
        vars: u32,
        worker: u32,
        workers: u32,
    ) -> Result<NoteShare<'n, N>, Memory> {
        let Some(with) = correspondence else {
            return Ok(NoteShare { beyond: None });
        };
        let exchange = Exchange::new(
            alloc,
            with.notes,
            with.division.instance,
            vars,
            with.task,
            with.division.tasks,
            worker,
            workers,
        )?;
        let claims = Claims::new(alloc, with.notes, with.division, with.task, worker)?;
        Ok(NoteShare {
            beyond: Some(Beyond { exchange, claims }),
        })
    }
}

impl<'n, N: Notes> Share for NoteShare<'n, N> {
    ghost keeps = { λ s t. ⊤ };

    ghost lends = { λ s. true };

    ghost keeps_itself = { λ s. tt };

    ghost keeps_onward = { λ s t u h k. tt };

    fn offer(&mut self, cost: Number, assignment: &Assignment) {
        if let Some(beyond) = &mut self.beyond {
            beyond.exchange.offer(cost, assignment);
        }
    }

    fn borrow(&mut self, below: Number, into: &mut Assignment) -> bool {
        match &mut self.beyond {
            Some(beyond) => beyond.exchange.borrow(below, into),
            None => false,
        }
    }

    fn is_over(&self) -> bool {
        false
    }
}

impl<'n, N: Notes> OuterShare for NoteShare<'n, N> {
    /// The next borrowing looks at notes, so that what others found bounds the piece from its root on.
    fn begin(&mut self) {
        if let Some(beyond) = &mut self.beyond {
            beyond.exchange.begin();
        }
    }

    fn may_search(&mut self, piece: u32) -> bool {
        match &mut self.beyond {
            Some(beyond) => beyond.claims.may_search(piece),
            None => true,
        }
    }
}

/// No place for notes.
#[derive(Clone, Copy)]
pub struct NoNotes;

impl Notes for NoNotes {
    fn read(&self, _task: u32, _room: &mut [u8]) -> io::Result<Option<usize>> {
        Ok(None)
    }

    fn write(&self, _worker: u32, _text: &[u8]) -> io::Result<()> {
        Ok(())
    }

    fn claim(
        &self,
        _worker: u32,
        _block: Block,
        _text: &[u8],
        _room: &mut [u8],
    ) -> io::Result<Option<usize>> {
        Ok(None)
    }

    fn tell_foreign(&self, _block: Block) {}

    fn tell(&self, _fault: &io::Error) {}
}

//! The share through which workers lend each other what they found: rows and the least word of the board, and what is known
//! beside it.
ghost use Rattle.std.specs.Prelude.{◌≡◌, ◌<◌, ◌≤◌, ◌+◌, ◌^◌, ◌++◌, ◌∷◌, [], refl, length, nat_lt, ◌||◌, ℕ, ℤ, ◌≤ℤ◌, true, IsTrue};
ghost use Rattle.std.proofs.Common.{◌∙◌};
ghost use Rattle.pb_board.specs.Seats.{BoardView, SeatView};
ghost use Rattle.pb_workers.specs.Keys.{IsKeyOf};
ghost use Rattle.pb_workers.specs.Sharing.{BoardShareView, KeepsClaims};

use crate::note_share::OuterShare;
use pb_board::{Board, Seat};
use pb_inst::{Assignment, Number, next_other};
use pb_search::Share;
use std::marker::Model;

/// What is added to a cost to make a key of the board, 2^63: so the costs of 64 bits with a sign become words without one.
const KEY_OFFSET: Number = 9_223_372_036_854_775_808;

/// The least cost with a key of its own, -2^63; `HIGHEST` is the greatest one. A key has 64 bits, since it is one atomic word.
const LOWEST: Number = -9_223_372_036_854_775_808;

const HIGHEST: Number = 9_223_372_036_854_775_807;

/// The signal of the board: all pieces were searched but for those of one worker, so that worker need not go on with the whole.
const PIECES_ARE_DONE: u64 = 1;

/// The signal of the board: the whole was searched, so no piece need be.
const WHOLE_IS_DONE: u64 = 2;

/// How many times a worker that stays apart asks and is lent nothing. A search asks after every 256th decision. Chosen by hand.
const LOOKS_APART: u32 = 128;

/// How a worker reaches the others: by its seat on the board, by its own row, and by the rows of the others, which it reads in
/// turn. Beside the board it has a share with others who are not on it, `Alone` where there are none.
#[derive(Drop)]
pub struct BoardShare<'b, S: OuterShare + Drop> {
    board: &'b Board,
    seat: Seat,
    worker: u32,
    // the worker whose row was read last, and at first this worker itself
    last_read: u32,
    // the least signal that ends the search
    ends_at: u64,
    // how many more times nothing is borrowed
    looks_apart: u32,
    beside: S,
}

impl<'b, S: OuterShare + Drop> Model for BoardShare<'b, S> {
    ghost Value = { BoardShareView };

    ghost view = { λ s. record { board = s.board.now; worker = s.worker; seat = s.seat; lends_beside = S.lends s.beside } };

    ghost invariant = { λ s. (s.worker < s.board.now.workers) × (s.last_read < s.board.now.workers) × (s.seat.board ≡ s.board.now.id) };
}

impl<'b, S: OuterShare + Drop> BoardShare<'b, S> {
    /// The share of a worker below the board's number of workers, with a seat of the board. The share beside the board is told
    /// of each assignment that is offered, and is asked where the board has nothing to lend.
    pub fn beside(board: &'b Board, seat: Seat, worker: u32, beside: S) -> BoardShare<'b, S>
        requires seat { seat.board ≡ board.now.id }
        requires worker { worker < board.now.workers }
        ensures { result ≡ record { board = board.now; worker = worker; seat = seat; lends_beside = S.lends beside } }
    {
        BoardShare {
            board,
            seat,
            worker,
            last_read: worker,
            ends_at: PIECES_ARE_DONE,
            looks_apart: 0,
            beside,
        }
    }

    /// The worker's number.
    pub fn worker(&self) -> u32
        ensures { result ≡ self.now.worker }
    {
        self.worker
    }

    /// The seat, with all that it claimed and offered.
    pub fn into_seat(self) -> Seat
        ensures { result ≡ self.entry.seat }
    {
        let BoardShare {
            board: _,
            seat,
            worker: _,
            last_read: _,
            ends_at: _,
            looks_apart: _,
            beside: _,
        } = self;
        seat
    }

    /// Claims the next number of the board, whose piece is about to be searched. Asks that the seat has fewer than 2^32 claims.
    pub fn claim(&mut self) -> u64
        requires { length self.old.seat.claimed < 2 ^ 32 }
        ensures { self.new ≡ record self.old { seat = record self.old.seat { claimed = self.old.seat.claimed ++ result ∷ [] } } }
    {
        self.beside.begin();
        self.ends_at = WHOLE_IS_DONE;
        self.looks_apart = 0;
        self.board.claim(&mut self.seat)
    }

    /// Whether the worker may search a piece whose number it claimed on the board. Whoever is beside the board may have claimed it.
    pub(crate) fn may_search(&mut self, piece: u32) -> bool
        ensures { self.new ≡ self.old }
    {
        self.beside.may_search(piece)
    }

    /// Borrows nothing for some time, so that the search begins as that of one worker does: what is closed by then takes no longer,
    /// whatever the others find. A better assignment may also have a search do less at its root, and then take longer.
    pub(crate) fn stay_apart(&mut self)
        ensures { self.new ≡ self.old }
    {
        self.looks_apart = LOOKS_APART;
    }

    /// Tells all workers that the whole was searched.
    pub(crate) fn tell_whole(&mut self)
        ensures { self.new ≡ self.old }
    {
        self.board.signal(&mut self.seat, WHOLE_IS_DONE);
    }

    /// Of `count` numbers all are claimed, and the worker drew this one. Where all workers but one drew such a number, their pieces
    /// are done, and the one that is left need not go on with the whole.
    pub(crate) fn tell_end(&mut self, count: u32, number: u64)
        ensures { self.new ≡ self.old }
    {
        let workers = u64::from(self.board.workers().get());
        if number.saturating_sub(u64::from(count)).saturating_add(2) == workers {
            self.board.signal(&mut self.seat, PIECES_ARE_DONE);
        }
    }
}

impl<'b, S: OuterShare + Drop> Share for BoardShare<'b, S> {
    ghost keeps = { KeepsClaims };

    // A board of one worker has no other row to read.
    ghost lends = { λ s. nat_lt 1 s.board.workers || s.lends_beside };

    ghost keeps_itself = { λ s. record { board = refl; worker = refl; seat_of = refl; parts = refl; claimed = refl; lending = refl } };

    ghost keeps_onward = { λ s t u h k. record { board = k.board ∙ h.board; worker = k.worker ∙ h.worker; seat_of = k.seat_of ∙ h.seat_of; parts = k.parts ∙ h.parts; claimed = k.claimed ∙ h.claimed; lending = k.lending ∙ h.lending } };

    /// Writes the assignment into the worker's own row, and then offers the key of its cost. Tells whoever is beside the board.
    fn offer(&mut self, cost: Number, assignment: &Assignment) {
        self.beside.offer(cost, assignment);
        if assignment.len() != self.board.vars() {
            return;
        }
        self.board
            .write_row(&mut self.seat, self.worker, assignment);
        self.board.offer(&mut self.seat, key_of(cost));
    }

    /// Where some worker offered a lesser key than that of `below`, reads the row of the next other worker in turn. Else asks
    /// whoever is beside the board.
    fn borrow(&mut self, below: Number, into: &mut Assignment) -> bool {
        if self.looks_apart > 0 {
            self.looks_apart -= 1;
            return false;
        }
        self.borrow_from_row(below, into) || self.beside.borrow(below, into)
    }

    /// By the board's signal.
    fn is_over(&self) -> bool {
        self.board.signalled() >= self.ends_at
    }
}

impl<'b, S: OuterShare + Drop> BoardShare<'b, S> {
    /// Where some worker offered a lesser key than that of `below`, reads the row of the next other worker in turn.
    fn borrow_from_row(&mut self, below: Number, into: &mut Assignment) -> bool
        ensures kept { KeepsClaims self.old self.new }
        ensures lent { IsTrue result → nat_lt 1 self.old.board.workers ≡ true }
        ensures same_length { length into.new ≡ length into.old }
    {
        if into.len() != self.board.vars() {
            return false;
        }
        let workers = self.board.workers().get();
        if self.board.least(&mut self.seat) >= key_of(below) || workers == 1 {
            return false;
        }
        self.last_read = next_other(workers, self.worker, self.last_read);
        self.board.read_row(&mut self.seat, self.last_read, into);
        true
    }
}

/// The key of a cost on the board: the cost plus 2^63, clamped to 64 bits. So keys never fall where costs grow, and costs from
/// -2^63 to 2^63 - 1 have keys of their own. Of two costs with one key neither is lent for the other.
fn key_of(cost: Number) -> u64
    ensures key { IsKeyOf cost result }
    ensures rising { (other : ℤ) (key : ℕ) → IsKeyOf other key → cost ≤ℤ other → result ≤ key }
{
    let within = cost.clamp(LOWEST, HIGHEST);
    (within + KEY_OFFSET) as u64
}

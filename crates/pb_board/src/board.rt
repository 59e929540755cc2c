//! The board that workers share. Each call that steps on it makes single atomic steps, waits for nobody and tries
//! nothing again.

ghost use Rattle.std.specs.Prelude.{◌≡◌, ◌+◌, ◌-◌, ◌*◌, ◌^◌, ◌<◌, ◌≤◌, [], ◌∷◌, ◌++◌, length, All, Contains, IfOk, min};
ghost use Rattle.pb_inst.specs.declared.limits.TheConstants.{MAX_WORKERS};
ghost use Rattle.pb_board.specs.Seats.{BoardView, SeatView, words_for};
ghost use Rattle.pb_board.specs.Numbers.{IsEachOnceBelow, IsLeast};
ghost use Rattle.pb_board.specs.Rule.{most_claims, top_key};
ghost use Rattle.pb_board.specs.declared.board.TheConstants.{ROWS};

use crate::plays::{Both, Claim, Count, Cut, Keep, Offer, Read, Rule, Stay};
use crate::seat::Seat;
use crate::view::View;
use atomic_table::Table;
use pb_inst::{Assignment, MAX_WORKERS, Memory, Workers};
use std::alloc::Global;
use std::marker::{Brand, Model};

// The words of the table: the claim counter, the least word, the signal, and then the rows, one after the other.
const COUNTER: usize = 0;

const LEAST: usize = 1;

const SIGNAL: usize = 2;

const ROWS: usize = 3;

const WORD_BITS: usize = 64;

/// What workers share: a counter from which they claim numbers, the least of the keys that they offered, and a row of
/// words for each worker.
///
/// A worker steps on it with a [`Seat`], which has to be one of this board. Between any two steps, whichever seats step
/// and in whatever order, the claimed numbers are those below the counter, each once, and the least word is the least
/// of `u64::MAX` and all offered keys. Nothing is promised of rows and of the signal between threads.
#[derive(Drop)]
pub struct Board {
    table: Table<(), View, u32, Rule, Global>,
    workers: Workers,
    vars: u32,
    // the words of one row
    row_len: usize,
}

impl Model for Board {
    ghost Value = { BoardView };

    ghost view = { λ b. record { id = b.table.shared.table_id; workers = b.workers; vars = b.vars } };

    ghost invariant = { λ b. (b.table.shared.key ≡ b.workers) × (b.workers ≤ MAX_WORKERS) × (b.vars < 2 ^ 32) × (b.row_len ≡ words_for b.vars) × (b.table.shared.table_id.slots ≡ 0) × (b.table.shared.table_id.words ≡ ROWS + b.workers * b.row_len) };
}

/// What all seats of a board did.
#[derive(Clone, Copy, Debug, PartialEq, Eq)]
pub struct Totals {
    /// How many numbers were claimed.
    pub claims: u64,
    /// The least key that was offered, and `u64::MAX` without one.
    pub least: u64,
}

impl Board {
    /// A board with a row of `vars` bits for each worker, and its whole seat, which has as many parts as there are
    /// workers. Nothing is claimed or offered yet, and the rows are 0. Only this call takes memory; at `Memory` there
    /// is no board.
    pub fn new(alloc: Global, workers: Workers, vars: u32) -> Result<(Board, Seat), Memory>
        ensures board { IfOk result (λ made. (made.0.workers ≡ workers) × (made.0.vars ≡ vars)) }
        ensures seat { IfOk result (λ made. made.1 ≡ record { board = made.0.id; parts = workers; claimed = []; offered = []; seen = top_key }) }
    {
        let row_len = (vars as usize).div_ceil(WORD_BITS);
        let parts = workers.get();
        let mut words = Vec::from_elem(alloc, 0, ROWS + parts as usize * row_len)?;
        words[LEAST] = u64::MAX;
        let (table, token) = Table::of_words(alloc, &words, &parts)?;
        let board = Board {
            table,
            workers,
            vars,
            row_len,
        };
        let seat = Seat {
            token,
            parts,
            claims: 0,
        };
        Ok((board, seat))
    }

    /// The number of workers that the board was made for, which is the number of its rows.
    pub fn workers(&self) -> Workers
        ensures { result ≡ self.now.workers }
    {
        self.workers
    }

    /// The number of bits of a row.
    pub fn vars(&self) -> u32
        ensures { result ≡ self.now.vars }
    {
        self.vars
    }

    /// Cuts a seat in two. The first has `keep` parts and all claims and offers; the second has the other parts and
    /// begins with neither. Both keep what was seen. Asks that `keep` is at least 1 and leaves a part. One load of the
    /// claim counter, whose value is not used.
    pub fn split(&self, seat: Seat, keep: u32) -> (Seat, Seat)
        requires board { seat.board ≡ self.now.id }
        requires parts { (0 < keep) × (keep < seat.parts) }
        ensures first { result.0 ≡ record seat { parts = keep } }
        ensures second { result.1 ≡ record seat { parts = seat.parts - keep; claimed = []; offered = [] } }
    {
        self.cut::<Brand>(seat, keep)
    }

    // The type of a cut names, for the proof alone, the number of parts that stay: `K` is picked where `keep` is known.
    fn cut<K: Keep>(&self, seat: Seat, keep: u32) -> (Seat, Seat)
        requires board { seat.board ≡ self.now.id }
        requires parts { (0 < keep) × (keep < seat.parts) }
        requires kept { K.parts ≡ keep }
        ensures first { result.0 ≡ record seat { parts = keep } }
        ensures second { result.1 ≡ record seat { parts = seat.parts - keep; claimed = []; offered = [] } }
    {
        let Seat {
            token: mut kept,
            parts,
            claims,
        } = seat;
        let given = self.table.shared.split_seat::<Cut<K>>(&mut kept);
        let first = Seat {
            token: kept,
            parts: keep,
            claims,
        };
        let second = Seat {
            token: given,
            parts: parts - keep,
            claims: 0,
        };
        (first, second)
    }

    /// Makes two seats one, with the parts, claims and offers of both and the lesser of what they saw. Asks that they
    /// have at most 2^57 claims together. One load of the claim counter, whose value is not used.
    pub fn join(&self, seat: Seat, other: Seat) -> Seat
        requires boards { (seat.board ≡ self.now.id) × (other.board ≡ self.now.id) }
        requires room { length seat.claimed + length other.claimed ≤ most_claims }
        ensures { result ≡ record { board = self.now.id; parts = seat.parts + other.parts; claimed = seat.claimed ++ other.claimed; offered = seat.offered ++ other.offered; seen = min seat.seen other.seen } }
    {
        let Seat {
            token: mut both,
            parts,
            claims,
        } = seat;
        let Seat {
            token: other,
            parts: more_parts,
            claims: more_claims,
        } = other;
        self.table.shared.join_seat::<Both>(&mut both, other);
        let parts = parts + more_parts;
        if parts > MAX_WORKERS {
            // No run comes here, so each run makes the one load of `join_seat` alone. All seats together have no more
            // parts than there are workers, but of two seats only the board's rule knows that, and the rule speaks
            // through a step of the joined seat.
            self.table.shared.load::<Count>(&mut both, COUNTER);
            unreachable!()
        }
        Seat {
            token: both,
            parts,
            claims: claims + more_claims,
        }
    }

    /// Claims the next number: 0 at first, and then each number once, whichever seats claim. Asks that the seat has fewer
    /// than 2^32 claims. One `fetch_add` of the claim counter.
    pub fn claim(&self, seat: &mut Seat) -> u64
        requires board { seat.old.board ≡ self.now.id }
        requires room { length seat.old.claimed < 2 ^ 32 }
        ensures claims { seat.new ≡ record seat.old { claimed = seat.old.claimed ++ result ∷ [] } }
        ensures rises { All (λ n. n < result) seat.old.claimed }
    {
        let words = &self.table.shared;
        let number = words.fetch_add::<Claim>(&mut seat.token, COUNTER, 1);
        seat.claims += 1;
        number
    }

    /// Offers a key, which lowers the least word where it is less. One `fetch_min` of the least word.
    pub fn offer(&self, seat: &mut Seat, key: u64)
        requires { seat.old.board ≡ self.now.id }
        ensures { seat.new ≡ record seat.old { offered = seat.old.offered ++ key ∷ []; seen = min seat.old.seen key } }
    {
        let words = &self.table.shared;
        words.fetch_min::<Offer>(&mut seat.token, LEAST, key);
    }

    /// The least key that any seat has offered so far, and `u64::MAX` before the first offer. It is at most each key that
    /// this seat has seen or offered. One load of the least word.
    pub fn least(&self, seat: &mut Seat) -> u64
        requires { seat.old.board ≡ self.now.id }
        ensures sees { seat.new ≡ record seat.old { seen = result } }
        ensures seen { result ≤ seat.old.seen }
        ensures offered { All (λ key. result ≤ key) seat.old.offered }
    {
        self.table.shared.load::<Read>(&mut seat.token, LEAST)
    }

    /// Writes the bits into a row. Asks for a row below the number of workers, and for `vars` bits. One store for each
    /// word; another worker that reads the row meanwhile may get old words and new ones together.
    pub fn write_row(&self, seat: &mut Seat, row: u32, bits: &Assignment)
        requires board { seat.old.board ≡ self.now.id }
        requires row { row < self.now.workers }
        requires bits { length bits.now ≡ self.now.vars }
        ensures { seat.new ≡ seat.old }
    {
        for j in 0..bits.words() {
            self.store_word(seat, self.row_word(row, j), bits.word(j));
        }
    }

    /// Reads a row. Asks for a row below the number of workers, and for `vars` bits. One load for each word. The bits
    /// may be a mixture of several assignments that were written, so the caller has to check them before use.
    pub fn read_row(&self, seat: &mut Seat, row: u32, bits: &mut Assignment)
        requires board { seat.old.board ≡ self.now.id }
        requires row { row < self.now.workers }
        requires bits { length bits.old ≡ self.now.vars }
        ensures seat { seat.new ≡ seat.old }
        ensures bits { length bits.new ≡ length bits.old }
    {
        for j in 0..bits.words() {
            let word = self.load_word(seat, self.row_word(row, j));
            bits.set_word(j, word);
        }
    }

    /// Raises the signal, which is 0 at first, where it is less than this. One `fetch_max`.
    pub fn signal(&self, seat: &mut Seat, value: u64)
        requires { seat.old.board ≡ self.now.id }
        ensures { seat.new ≡ seat.old }
    {
        let words = &self.table.shared;
        words.fetch_max::<Stay>(&mut seat.token, SIGNAL, value);
    }

    /// The signal, as workers may have raised it. One load.
    pub fn signalled(&self) -> u64 {
        self.table.shared.peek(SIGNAL)
    }

    /// Ends the board. Asks for the whole seat, which is then the only one.
    pub fn close(self, seat: Seat) -> Totals
        requires board { seat.board ≡ self.id }
        requires whole { seat.parts ≡ self.workers }
        ensures count { result.claims ≡ length seat.claimed }
        ensures numbers { IsEachOnceBelow result.claims seat.claimed }
        ensures least { IsLeast result.least (top_key ∷ seat.offered) }
        ensures seen { Contains (top_key ∷ seat.offered) seat.seen }
    {
        let Board {
            table,
            workers: _,
            vars: _,
            row_len: _,
        } = self;
        let Seat {
            token,
            parts: _,
            claims: _,
        } = seat;
        let closed = table.close_with(token);
        let claims = closed.word(COUNTER);
        let least = closed.word(LEAST);
        closed.free();
        Totals { claims, least }
    }

    fn row_word(&self, row: u32, j: usize) -> usize
        requires { (row < self.now.workers) × (j < words_for self.now.vars) }
        ensures { (ROWS ≤ result) × (result < self.now.id.words) }
    {
        ROWS + row as usize * self.row_len + j
    }

    fn store_word(&self, seat: &mut Seat, at: usize, bits: u64)
        requires board { seat.old.board ≡ self.now.id }
        requires row { (ROWS ≤ at) × (at < self.now.id.words) }
        ensures { seat.new ≡ seat.old }
    {
        self.table.shared.store::<Stay>(&mut seat.token, at, bits);
    }

    fn load_word(&self, seat: &mut Seat, at: usize) -> u64
        requires board { seat.old.board ≡ self.now.id }
        requires row { (ROWS ≤ at) × (at < self.now.id.words) }
        ensures { seat.new ≡ seat.old }
    {
        self.table.shared.load::<Stay>(&mut seat.token, at)
    }
}

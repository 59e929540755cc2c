//! What a worker's share lends of what another one offered.

use pb_board::Board;
use pb_inst::{Assignment, Number, Workers};
use pb_search::{Alone, Share};
use pb_workers::BoardShare;
use std::alloc::Global;
use std::process::Abort;

/// How many variables there are.
const VARS: u32 = 70;

/// The words of an assignment.
type Words = [u64; 2];

/// Whether something was borrowed, and the assignment after it, which was 0 before.
type Borrowed = (bool, Words);

/// What one of `workers` workers offers, in turn, and what another one may then borrow below two costs.
#[derive(Clone, Copy)]
struct Exchange {
    workers: u32,
    borrower: u32,
    offerer: u32,
    offers: &'static [(Number, Words)],
    below: [Number; 2],
    lent: &'static [[Borrowed; 2]],
}

const NOTHING: Borrowed = (false, [0, 0]);

const UNWRITTEN: Borrowed = (true, [0, 0]);

const WRITTEN: Borrowed = (true, [5, 33]);

const TWO: Exchange = Exchange {
    workers: 2,
    borrower: 0,
    offerer: 1,
    offers: &[],
    below: [Number::MAX, 0],
    lent: &[[NOTHING, NOTHING]],
};

/// The rows of the others are read in turn: that of the one who offered is as it was written, and the third's as it was before.
const THREE: Exchange = Exchange {
    workers: 3,
    borrower: 0,
    offerer: 1,
    offers: &[(-5, [5, 33])],
    below: [0, 0],
    lent: &[[WRITTEN, UNWRITTEN], [UNWRITTEN, WRITTEN]],
};

const EXCHANGES: &[Exchange] = &[
    TWO,
    // lent where an offer is below what was asked for, and only there
    Exchange {
        offers: &[(-5, [2, 0])],
        below: [-5, -4],
        lent: &[[NOTHING, (true, [2, 0])]],
        ..TWO
    },
    // a second offer, which is less, is lent to a worker that already holds the first one
    Exchange {
        offers: &[(-5, [2, 0]), (-7, [3, 0])],
        below: [-5, -7],
        lent: &[[(true, [3, 0]), NOTHING]],
        ..TWO
    },
    Exchange {
        offers: &[(-5, [5, 33])],
        below: [0, 0],
        lent: &[[WRITTEN, WRITTEN]],
        ..TWO
    },
    THREE,
    Exchange {
        offerer: 2,
        ..THREE
    },
    Exchange {
        borrower: 1,
        offerer: 0,
        ..THREE
    },
    Exchange {
        borrower: 1,
        offerer: 2,
        ..THREE
    },
    Exchange {
        borrower: 2,
        offerer: 0,
        ..THREE
    },
    Exchange {
        borrower: 2,
        ..THREE
    },
];

/// What is lent in the exchange.
fn lent(rt: &impl Abort, alloc: Global, exchange: &Exchange) -> [Borrowed; 2] {
    let (count, borrower, offerer) = (exchange.workers, exchange.borrower, exchange.offerer);
    assert!(rt; 1 < count && borrower < count && offerer < count);
    let workers = Workers::new(count).expect(rt, "a number of workers");
    let (board, seat) = Board::new(alloc, workers, VARS).expect(rt, "a board");
    let (low, high) = board.split(seat, 1);
    let mut share = BoardShare::beside(&board, low, borrower, Alone);
    let mut other = BoardShare::beside(&board, high, offerer, Alone);
    offer_each(rt, alloc, &mut other, exchange.offers);
    [
        borrow(rt, alloc, &mut share, exchange.below[0]),
        borrow(rt, alloc, &mut share, exchange.below[1]),
    ]
}

fn offer_each(rt: &impl Abort, alloc: Global, share: &mut impl Share, offers: &[(Number, Words)]) {
    for (cost, words) in offers {
        let mut assignment = Assignment::new(alloc, VARS).expect(rt, "memory");
        assignment.set_word(0, words[0]);
        assignment.set_word(1, words[1]);
        share.offer(*cost, &assignment);
    }
}

fn borrow(rt: &impl Abort, alloc: Global, share: &mut impl Share, below: Number) -> Borrowed {
    let mut assignment = Assignment::new(alloc, VARS).expect(rt, "memory");
    let is_lent = share.borrow(below, &mut assignment);
    (is_lent, [assignment.word(0), assignment.word(1)])
}

/// Whether what is lent is what may be.
fn lends(rt: &impl Abort, alloc: Global, exchange: &Exchange) -> bool {
    exchange.lent.contains(&lent(rt, alloc, exchange))
}

#[test]
fn a_share_lends_what_was_offered(rt: HostRuntime) {
    for (place, exchange) in EXCHANGES.iter().enumerate() {
        assert!(rt; lends(&rt, rt.alloc(), exchange), "exchange {place}");
    }
}

/// The key that a share of a board without other workers offers for the cost.
fn offered_key(rt: &impl Abort, alloc: Global, cost: Number) -> u64 {
    let worker = Workers::new(1).expect(rt, "a number of workers");
    let nothing = Assignment::new(alloc, 0).expect(rt, "memory");
    let (board, seat) = Board::new(alloc, worker, 0).expect(rt, "a board");
    let mut share = BoardShare::beside(&board, seat, 0, Alone);
    share.offer(cost, &nothing);
    let mut seat = share.into_seat();
    board.least(&mut seat)
}

/// Costs in their order, with their keys: the ends of all costs, and both sides of each end of the keys.
const KEYS: [(Number, u64); 14] = [
    (-85_070_591_730_234_615_865_843_651_857_942_052_863, 0),
    (-9_223_372_036_854_775_809, 0),
    (-9_223_372_036_854_775_808, 0),
    (-9_223_372_036_854_775_807, 1),
    (-2, 9_223_372_036_854_775_806),
    (-1, 9_223_372_036_854_775_807),
    (0, 9_223_372_036_854_775_808),
    (3, 9_223_372_036_854_775_811),
    (9_223_372_036_854_775_806, 18_446_744_073_709_551_614),
    (9_223_372_036_854_775_807, 18_446_744_073_709_551_615),
    (9_223_372_036_854_775_808, 18_446_744_073_709_551_615),
    (9_223_372_036_854_775_809, 18_446_744_073_709_551_615),
    (18_446_744_073_709_551_616, 18_446_744_073_709_551_615),
    (
        85_070_591_730_234_615_865_843_651_857_942_052_863,
        18_446_744_073_709_551_615,
    ),
];

// Keys never fall, and rise with each cost of 64 bits. The greatest key is also what a board without an offer has.
#[test]
fn keys_keep_the_order_of_costs(rt: HostRuntime) {
    for (cost, key) in KEYS {
        assert!(rt; offered_key(&rt, rt.alloc(), cost) == key, "cost {cost}");
    }
}

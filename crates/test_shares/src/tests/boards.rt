//! Worked steps of two seats, and claims of two threads at once. Rows are read back where shares lend them.

ghost use Rattle.std.specs.Prelude.{◌≡◌, ◌+◌, ◌<◌, ◌≤◌, [], length, vec_len, IfOk};

use pb_board::{Board, Seat, Totals};
use pb_inst::Workers;
use std::alloc::{AllocError, Global};
use std::process::Abort;
use std::thread;
use std::thread::Threads;

/// What two seats claim, and the least word as they see it: before the first offer, after that by the same seat, after a lesser
/// one by either, and after a greater one.
fn claims_and_least_words(rt: &impl Abort, alloc: Global) -> ([u64; 3], [u64; 6]) {
    let workers = Workers::new(2).expect(rt, "a number of workers");
    let (board, mut whole) = Board::new(alloc, workers, 3).expect(rt, "a board");
    let of_all = board.least(&mut whole);
    let (mut a, mut b) = board.split(whole, 1);
    let claims = [
        board.claim(&mut a),
        board.claim(&mut b),
        board.claim(&mut a),
    ];
    let none = board.least(&mut a);
    board.offer(&mut a, 9);
    let first = board.least(&mut a);
    board.offer(&mut b, 7);
    let lesser = board.least(&mut b);
    let seen = board.least(&mut a);
    board.offer(&mut a, 8);
    let last = board.least(&mut a);
    (claims, [of_all, none, first, lesser, seen, last])
}

// Worked by hand: the numbers come in turn, and the lesser offer is the least word.
#[test]
fn two_seats_claim_and_offer(rt: HostRuntime) {
    let (claims, least_words) = claims_and_least_words(&rt, rt.alloc());
    assert!(rt; claims == [0, 1, 2]);
    assert!(rt; least_words == [u64::MAX, u64::MAX, 9, 7, 7, 7]);
}

// A seat that claims `count` numbers, and the numbers.
fn claim_many(
    board: &Board,
    alloc: Global,
    mut seat: Seat,
    count: usize,
) -> Result<(Seat, Vec<u64>), AllocError>
    requires board { seat.board ≡ board.now.id }
    requires room { (seat.claimed ≡ []) × (count < 65536) }
    ensures seat { IfOk result (λ r. (r.0.board ≡ board.now.id) × (r.0.parts ≡ seat.parts)) }
    ensures claims { IfOk result (λ r. (r.0.claimed ≡ r.1.items) × (length r.0.claimed ≡ count)) }
{
    let mut numbers = Vec::new(alloc);
    for _turn in 0..count {
        numbers.push(board.claim(&mut seat))?;
    }
    Ok((seat, numbers))
}

// Two threads claim `count` numbers each.
fn claim_apart<R: Abort + Threads + Sync>(rt: &R, alloc: Global, count: usize) -> (Totals, Vec<u64>)
    requires { count < 65536 }
{
    let workers = Workers::new(2).expect(rt, "a number of workers");
    let (board, whole) = Board::new(alloc, workers, 0).expect(rt, "a board");
    let (a, b) = board.split(whole, 1);
    let shared = &board;
    let (a, b) = thread::join(
        rt,
        move ||
            requires { (a.board ≡ shared.now.id) × (a.claimed ≡ []) × (count < 65536) }
            ensures { IfOk result (λ r. (r.0.board ≡ shared.entry.now.id) × (r.0.parts ≡ a.parts) × (length r.0.claimed ≡ count)) }
        { claim_many(shared, alloc, a, count) },
        move ||
            requires { (b.board ≡ shared.now.id) × (b.claimed ≡ []) × (count < 65536) }
            ensures { IfOk result (λ r. (r.0.board ≡ shared.entry.now.id) × (r.0.parts ≡ b.parts) × (length r.0.claimed ≡ count)) }
        { claim_many(shared, alloc, b, count) },
    );
    let (a, mut numbers) = a.expect(rt, "memory");
    let (b, more) = b.expect(rt, "memory");
    let whole = shared.join(a, b);
    numbers.extend_from_slice(&more).expect(rt, "memory");
    (board.close(whole), numbers)
}

#[test]
fn claims_each_once(rt: HostRuntime) {
    let (totals, mut numbers) = claim_apart(&rt, rt.alloc(), 1000);
    numbers.sort().expect(&rt, "memory");
    assert!(rt; totals.claims == 2000 && totals.least == u64::MAX);
    assert!(rt; numbers.iter().copied().eq(0..2000));
}

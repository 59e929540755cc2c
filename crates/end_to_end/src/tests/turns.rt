//! The turn in which a worker reads the rows of the others goes on from piece to piece.
ghost use Rattle.std.specs.Prelude.{◌<◌};

use pb_board::Board;
use pb_inst::{Assignment, Workers};
use pb_search::{Alone, Share};
use pb_workers::BoardShare;
use std::alloc::Global;
use std::process::Abort;

/// Whether the first of three workers, which claims a piece before each of its two borrows, is lent what the offerer offered.
fn is_lent_between_claims(rt: &impl Abort, alloc: Global, offerer: u32) -> bool
    requires { offerer < 3 }
{
    let workers = Workers::new(3).expect(rt, "a number of workers");
    let mut offer = Assignment::new(alloc, 1).expect(rt, "an assignment");
    let mut row = Assignment::new(alloc, 1).expect(rt, "a row");
    let (board, seat) = Board::new(alloc, workers, 1).expect(rt, "a board");
    let (seat, others) = board.split(seat, 1);
    offer.set(1, true);
    BoardShare::beside(&board, others, offerer, Alone).offer(0, &offer);
    let mut share = BoardShare::beside(&board, seat, 0, Alone);
    share.claim();
    let in_first_piece = share.borrow(1, &mut row) && row.get(1);
    share.claim();
    let in_second_piece = share.borrow(1, &mut row) && row.get(1);
    in_first_piece || in_second_piece
}

// A claim does not start the turn again: where pieces are short and little is borrowed in each, every other row is read.
#[test]
fn a_claim_leaves_the_turn_of_the_rows(rt: HostRuntime) {
    for offerer in 1..3 {
        let is_lent = is_lent_between_claims(&rt, rt.alloc(), offerer);
        assert!(rt; is_lent, "worker {offerer}");
    }
}

//! A set of workers, as those who fork it know it.
ghost use Rattle.std.specs.Prelude.{◌≡◌, ℕ, Bool, Option, IfOk};
ghost use Rattle.pb_inst.specs.Problem.{Problem};
ghost use Rattle.pb_cubes.specs.Pieces.{CubeList};
ghost use Rattle.pb_board.specs.Seats.{BoardView};
ghost use Rattle.pb_workers.specs.Claims.{IsWorkWith, MayWork};
ghost use Rattle.pb_workers.specs.Dealing.{TaskView};

use crate::part::Part;
use pb_board::{Board, Seat};
use pb_inst::Memory;
use std::alloc::Global;

/// Workers on the pieces of one instance, all of them or those of a task. They share a board, and have the same budget of
/// decisions for each piece or none.
///
/// A closure of the library's `join` keeps its clauses where it captures a type parameter, and loses them where it captures a
/// type with a lifetime. So `fork` knows workers by this trait alone, and what all are lent stands behind it.
pub(crate) trait WorkerSet {
    ghost problem: { Self → Problem };

    ghost pieces: { Self → CubeList };

    ghost meets_on: { Self → BoardView };

    ghost task: { Self → Option TaskView };

    ghost nodes: { Self → Option ℕ };

    ghost race: { Self → Bool };

    /// The board that the workers share.
    fn board(&self) -> &Board
        ensures { result.now ≡ meets_on self.now };

    /// The whole work of one worker. Asks for a seat of the board without claims, and a worker below the board's number of
    /// workers. At `Memory` the seat is dropped.
    fn work(&self, alloc: Global, seat: Seat, worker: u32) -> Result<(Part<'_>, Seat), Memory>
        requires { MayWork (meets_on self.now) seat worker }
        ensures { IfOk result (λ done. IsWorkWith (problem self.now) (pieces self.now) (task self.now) (nodes self.now) (race self.now) seat done.0 done.1) };
}

//! Workers on threads of their own, forked by halves.
ghost use Rattle.std.specs.Prelude.{IfOk};
ghost use Rattle.std.specs.Thread.{IsSync};
ghost use Rattle.pb_workers.specs.Claims.{AreWorkWith, MayFork};

use crate::part::Part;
use crate::worker_set::WorkerSet;
use pb_board::Seat;
use pb_inst::Memory;
use std::alloc::Global;
use std::thread;
use std::thread::Threads;

/// Runs as many workers of the set as the seat has parts, from the worker `first` on, each on a thread of its own where the
/// system gives one. Answers the parts of all, and their seats joined into one.
pub(crate) fn fork<'c, R: Threads + Sync, C: WorkerSet + Sync>(
    rt: &R,
    alloc: Global,
    set: &'c C,
    seat: Seat,
    first: u32,
) -> Result<(Vec<Part<'c>>, Seat), Memory>
    requires { MayFork (C.meets_on set.now) seat first }
    ensures { IfOk result (λ done. AreWorkWith (C.problem set.now) (C.pieces set.now) (C.task set.now) (C.nodes set.now) (C.race set.now) seat done.0.items done.1) }
{
    let parts = seat.parts();
    if parts == 1 {
        let (part, seat) = set.work(alloc, seat, first)?;
        let mut parts = Vec::new(alloc);
        parts.push(part)?;
        return Ok((parts, seat));
    }
    let (low, high) = set.board().split(seat, parts / 2);
    let middle = first + parts / 2;
    let (low, high) = thread::join(
        rt,
        move || -> Result<(Vec<Part<'_>>, Seat), Memory>
            requires { IsSync R.row × IsSync C.row × MayFork (C.meets_on set.now) low first }
            ensures { IfOk result (λ done. AreWorkWith (C.problem set.entry.now) (C.pieces set.entry.now) (C.task set.entry.now) (C.nodes set.entry.now) (C.race set.entry.now) low done.0.items done.1) }
        { fork(rt, alloc, set, low, first) },
        move || -> Result<(Vec<Part<'_>>, Seat), Memory>
            requires { IsSync R.row × IsSync C.row × MayFork (C.meets_on set.now) high middle }
            ensures { IfOk result (λ done. AreWorkWith (C.problem set.entry.now) (C.pieces set.entry.now) (C.task set.entry.now) (C.nodes set.entry.now) (C.race set.entry.now) high done.0.items done.1) }
        { fork(rt, alloc, set, high, middle) },
    );
    let (mut parts, low) = low?;
    let (mut more, high) = high?;
    parts.append(&mut more)?;
    Ok((parts, set.board().join(low, high)))
}

//! Workers on one board: what they claim, and that they run at the same time.
ghost use Rattle.std.specs.Prelude.{◌≡◌};

use super::gates::{Passes, Rule};
use pb_board::Board;
use pb_cubes::Pieces;
use pb_inst::{Best, Instance, Number, Workers};
use pb_normal::normalise;
use pb_read::{read_cubes, read_opb};
use pb_workers::{OpenGate, Part, solve, work};
use std::alloc::Global;
use std::process::Abort;
use std::thread::Threads;

/// The clauses `x1 or x2` and `~x1 or x2`, whose first assignment makes x2 alone true.
const TWO_CLAUSES: &[u8] = b"1 x1 1 x2 >= 1 ;\n1 ~x1 1 x2 >= 1 ;\n";

/// Either variable alone is enough, and the first one costs more.
const DEAR_AND_CHEAP: &[u8] = b"min: 9 x1 1 x2 ;\n1 x1 1 x2 >= 1 ;\n";

/// The cubes `x1` and `~x1`.
const TWO_CUBES: &[u8] = b"a 1 0\na -1 0\n";

/// What is held: the cost, and the values as bits, that of x1 first.
fn held(best: &Best<'_>) -> Option<(Number, u64)> {
    let cost = best.cost()?;
    let assignment = best.assignment()?;
    let bits = if assignment.len() == 0 {
        0
    } else {
        assignment.word(0)
    };
    Some((cost, bits))
}

/// The pieces of the instance by the cubes of this file.
fn pieces_of(rt: &impl Abort, alloc: Global, instance: &Instance, file: &[u8]) -> Pieces
    ensures { result.vars ≡ instance.now.vars }
{
    let cubes = read_cubes(alloc, file, instance.vars()).expect(rt, "a file of cubes");
    Pieces::new(instance.vars(), cubes).expect(rt, "pieces")
}

/// What one worker is to do on the two clauses.
struct Alone {
    cubes: &'static [u8],
    nodes: Option<u64>,
    done: &'static [u32],
    cut: &'static [u32],
    decisions: &'static [u64],
    cut_decisions: &'static [u64],
    held: (Number, u64),
}

// A cube of either value of x1 leaves no decision, since x2 follows by propagation.
const ALONE: [Alone; 3] = [
    Alone {
        cubes: TWO_CUBES,
        nodes: None,
        done: &[0, 1, 2],
        cut: &[],
        decisions: &[],
        cut_decisions: &[],
        held: (0, 2),
    },
    Alone {
        cubes: TWO_CUBES,
        nodes: Some(1000),
        done: &[0, 1, 2],
        cut: &[],
        decisions: &[0, 0, 0],
        cut_decisions: &[],
        held: (0, 2),
    },
    // Without a decision the piece of the empty cube can't be ended. That of x1 can, by propagation, and nothing remains.
    Alone {
        cubes: b"a 0\na 1 0\n",
        nodes: Some(0),
        done: &[1, 2],
        cut: &[0],
        decisions: &[0, 0],
        cut_decisions: &[0],
        held: (0, 3),
    },
];

impl Alone {
    /// Whether one worker does this. Its seat has a claim more than there are pieces.
    fn comes_out(&self, rt: &impl Abort, alloc: Global) -> bool {
        let workers = Workers::new(1).expect(rt, "a number of workers");
        let instance = read_opb(alloc, TWO_CLAUSES).expect(rt, "an instance");
        let normal = normalise(alloc, &instance).expect(rt, "a normal form");
        let pieces = pieces_of(rt, alloc, &instance, self.cubes);
        let (board, seat) = Board::new(alloc, workers, instance.vars()).expect(rt, "a board");
        let nodes = self.nodes;
        let (part, seat) = work(
            alloc, &instance, &normal, &pieces, &board, seat, 0, &OpenGate, nodes,
        )
        .expect(rt, "a part");
        let claims = seat.claims();
        board.close(seat);
        self.is_part(&part) && claims == 4
    }

    /// Whether the part names and holds this.
    fn is_part(&self, part: &Part<'_>) -> bool {
        part.pieces() == self.done
            && part.cut() == self.cut
            && part.decisions() == self.decisions
            && part.cut_decisions() == self.cut_decisions
            && held(part.best()) == Some(self.held)
    }
}

// One worker names all pieces, those that were cut apart.
#[test]
fn work_alone(rt: HostRuntime) {
    for alone in &ALONE {
        assert!(rt; alone.comes_out(&rt, rt.alloc()), "{:?}", alone.nodes);
    }
}

/// A text and its cubes, the number of workers, their budget, what is held at their gate, how many pieces there are, how many
/// of them each of the first two workers may get where that is told, and what is to be held. No piece is to be cut.
#[derive(Clone, Copy)]
struct Together {
    text: &'static [u8],
    cubes: &'static [u8],
    workers: u32,
    nodes: Option<u64>,
    rule: Rule,
    pieces: usize,
    shares: &'static [(u64, u64)],
    held: (Number, u64),
}

impl Together {
    /// Whether the workers answer this, those that were held met, and each piece passed once.
    fn comes_out<R: Abort + Threads + Sync>(&self, rt: &R, alloc: Global) -> bool {
        let workers = Workers::new(self.workers).expect(rt, "a number of workers");
        let instance = read_opb(alloc, self.text).expect(rt, "an instance");
        let pieces = pieces_of(rt, alloc, &instance, self.cubes);
        let (gate, nodes) = (Passes::new(self.rule), self.nodes);
        let answer = solve(rt, alloc, &instance, &pieces, workers, &gate, nodes).expect(
            rt,
            "an answer",
        );
        !answer.cut && held(&answer.best) == Some(self.held) && self.is_passed(&gate)
    }

    fn is_passed(&self, gate: &Passes) -> bool {
        gate.are_met()
            && gate.are_each_once(self.pieces)
            && (self.shares.is_empty() || self.shares.contains(&gate.shares()))
    }
}

const FREE: Rule = Rule {
    meeting: 0,
    first: None,
    order: &[],
    crowd: 0,
};

const TWO: Together = Together {
    text: TWO_CLAUSES,
    cubes: TWO_CUBES,
    workers: 2,
    nodes: None,
    rule: Rule { meeting: 2, ..FREE },
    pieces: 3,
    shares: &[],
    held: (0, 2),
};

#[test]
fn two_workers_meet(rt: HostRuntime) {
    for first in [None, Some(0), Some(1)] {
        let rule = Rule { first, ..TWO.rule };
        let together = Together { rule, ..TWO };
        assert!(rt; together.comes_out(&rt, rt.alloc()), "{first:?}");
    }
}

/// The very first pass is held until all five have begun. While one worker is held at its first piece the other one gets all
/// the other pieces: with fixed shares both would wait in vain.
const CROWD: Together = Together {
    cubes: b"a 0\na 0\na 0\na 0\n",
    rule: Rule { crowd: 5, ..FREE },
    pieces: 5,
    shares: &[(1, 4), (4, 1)],
    ..TWO
};

#[test]
fn pieces_are_claimed(rt: HostRuntime) {
    assert!(rt; CROWD.comes_out(&rt, rt.alloc()));
}

/// Piece 0 finds the best assignment while the worker on piece 1 is held. That one then needs no decision, since what it
/// borrows closes its piece at the root: without borrowing it would be cut. Nothing remains.
const BORROWED: Together = Together {
    text: DEAR_AND_CHEAP,
    cubes: b"a -1 2 0\na 1 0\n",
    nodes: Some(0),
    rule: Rule {
        order: &[(0, 1), (1, 2)],
        ..FREE
    },
    held: (1, 2),
    ..TWO
};

#[test]
fn borrowed_bound(rt: HostRuntime) {
    assert!(rt; BORROWED.comes_out(&rt, rt.alloc()));
}

/// As many pieces as workers, of which each has a number of its own, and all of them work at the same time.
const FOUR: Together = Together {
    cubes: b"a 0\na 0\na 0\n",
    workers: 4,
    rule: Rule { meeting: 4, ..FREE },
    pieces: 4,
    ..TWO
};

#[test]
fn four_workers_meet(rt: HostRuntime) {
    assert!(rt; FOUR.comes_out(&rt, rt.alloc()));
}

//! A gate that notes which workers and pieces pass, and holds workers until others have passed.

use pb_workers::Gate;
use std::sync::atomic::{AtomicBool, AtomicU64, Ordering};

/// How often a gate looks again before it gives up.
const MOST_TURNS: u32 = 100_000_000;

/// What is held at a gate, and until when.
#[derive(Clone, Copy)]
pub struct Rule {
    /// Each pass is held until this number of workers have begun.
    pub meeting: usize,
    /// The worker, if any, that the others wait for before they begin.
    pub first: Option<u32>,
    /// Of each pair the pass of the first piece is held until that of the second one has begun.
    pub order: &'static [(u32, u32)],
    /// The very first pass is held until this number of passes have begun.
    pub crowd: u64,
}

/// How many passes each of four workers and each of five pieces had, and whether one was held in vain.
#[derive(Drop)]
pub struct Passes {
    rule: Rule,
    workers: [AtomicU64; 4],
    pieces: [AtomicU64; 5],
    begun: AtomicU64,
    late: AtomicBool,
}

impl Passes {
    pub fn new(rule: Rule) -> Passes {
        Passes {
            rule,
            workers: [
                AtomicU64::new(0),
                AtomicU64::new(0),
                AtomicU64::new(0),
                AtomicU64::new(0),
            ],
            pieces: [
                AtomicU64::new(0),
                AtomicU64::new(0),
                AtomicU64::new(0),
                AtomicU64::new(0),
                AtomicU64::new(0),
            ],
            begun: AtomicU64::new(0),
            late: AtomicBool::new(false),
        }
    }

    /// Whether each of the pieces below `count` passed once, and no other one did.
    pub fn are_each_once(&self, count: usize) -> bool {
        for (i, passes) in self.pieces.iter().enumerate() {
            let want = if i < count { 1 } else { 0 };
            if passes.load(Ordering::SeqCst) != want {
                return false;
            }
        }
        true
    }

    /// Whether nothing was held in vain.
    pub fn are_met(&self) -> bool {
        !self.late.load(Ordering::SeqCst)
    }

    /// How many pieces the worker passed.
    fn share(&self, worker: usize) -> u64 {
        let Some(passes) = self.workers.get(worker) else {
            return 0;
        };
        passes.load(Ordering::SeqCst)
    }

    /// How many pieces the first two workers passed.
    pub fn shares(&self) -> (u64, u64) {
        (self.share(0), self.share(1))
    }

    /// Waits until the counter is no longer 0.
    fn wait(&self, counter: Option<&AtomicU64>) {
        if let Some(counter) = counter {
            self.wait_for(counter, 1);
        }
    }

    /// Waits until the counter is at least this.
    fn wait_for(&self, counter: &AtomicU64, count: u64) {
        for _ in 0..MOST_TURNS {
            if counter.load(Ordering::SeqCst) >= count {
                return;
            }
        }
        self.late.store(true, Ordering::SeqCst);
    }

    fn wait_for_workers(&self) {
        for worker in self.workers.iter().take(self.rule.meeting) {
            self.wait(Some(worker));
        }
    }

    fn wait_for_pieces(&self, piece: u32) {
        for (held, awaited) in self.rule.order {
            if *held == piece {
                self.wait(self.pieces.get(*awaited as usize));
            }
        }
    }
}

impl Gate for Passes {
    fn pass(&self, worker: u32, piece: u32) {
        if let Some(first) = self.rule.first
            && worker != first
        {
            self.wait(self.workers.get(first as usize));
        }
        count(self.workers.get(worker as usize));
        count(self.pieces.get(piece as usize));
        if self.begun.fetch_add(1, Ordering::SeqCst) == 0 {
            self.wait_for(&self.begun, self.rule.crowd);
        }
        self.wait_for_workers();
        self.wait_for_pieces(piece);
    }
}

fn count(counter: Option<&AtomicU64>) {
    if let Some(counter) = counter {
        counter.fetch_add(1, Ordering::SeqCst);
    }
}

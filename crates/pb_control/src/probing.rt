//! Which literals are tried at the root, and how many may be. No answer depends on it, so nothing is promised.
//! Source: [S94]

use pb_inst::Lit;

// What the search did pays for probes, and so do literals that failed: each literal that the search puts on the trail lets
// probes put one there. So a search that is soon over makes none.

/// How many literals probes may put on the trail for each literal that failed. A failure pays for more probes, because the root
/// that it changed may make others fail. Chosen by hand.
const CREDIT_OF_A_FAILURE: u64 = 4_096;

/// How many they may put there at most before the next one fails, so that a long search does not save up for an endless round.
/// Chosen by hand.
const MOST_CREDIT: u64 = 1 << 24;

/// How many they may put there at least where a round begins. It does not grow with the instance: at 16 for each variable, probes
/// of 600 variables cost more than the whole refutation of 7 others.
const LEAST_CREDIT: u64 = 64;

/// How many they may put there at least where a round begins and nothing is minimised. With `FIRST_CREDIT` a search has
/// it after 128 literals.
const LEAST_CREDIT_OF_A_DECISION: u64 = 2_048;

/// By what the credit is multiplied at the first conflict of a search in which nothing is minimised: instances that probes decide
/// come to it after some 150 literals, less than a round needs.
const FIRST_CREDIT: u64 = 16;

/// How many they may put there at least for each variable once a better assignment is known: 32 for each of its two literals.
/// Chosen by hand.
const CREDIT_OF_A_DIVE: u64 = 64;

/// Which literal is tried next, and how many more may be.
#[derive(Clone, Copy)]
pub struct Probing {
    /// The place of the next literal, of two for each variable.
    place: u32,
    /// How many literals were passed since the round began, or since the last one failed.
    passed: u32,
    /// How many literals probes may still put on the trail: as many as the search did, and more for those that failed.
    credit: u64,
    /// How many they may put there at least where a round begins.
    least: u64,
    /// How many probes the budget of the piece still has room for.
    probes: u64,
}

impl Probing {
    /// From the first literal on.
    pub fn new(is_decision: bool) -> Probing {
        let least = if is_decision {
            LEAST_CREDIT_OF_A_DECISION
        } else {
            LEAST_CREDIT
        };
        Probing {
            place: 0,
            passed: 0,
            credit: 0,
            least,
            probes: 0,
        }
    }

    /// The search of a piece begins, whose budget has room for `probes` probes.
    pub fn begin(&mut self, probes: u64) {
        self.passed = 0;
        self.credit = 0;
        self.probes = probes;
    }

    /// The search put `literals` literals on the trail by propagation at a node, and one by the decision before it: probes may
    /// put as many there.
    pub fn earn(&mut self, literals: usize) {
        let credit = self
            .credit
            .saturating_add(literals as u64)
            .saturating_add(1);
        self.credit = credit.min(MOST_CREDIT);
    }

    /// A better assignment over `vars` variables is known: a round is due, and gets its credit.
    pub fn grant(&mut self, vars: u32) {
        let credit = CREDIT_OF_A_DIVE.saturating_mul(vars as u64);
        self.credit = self.credit.max(credit).min(MOST_CREDIT);
        self.passed = 0;
    }

    /// Multiplies the credit of what was searched so far.
    pub fn raise(&mut self) {
        let credit = self.credit.saturating_mul(FIRST_CREDIT);
        self.credit = credit.min(MOST_CREDIT);
    }

    /// Whether the search did enough for a round to begin.
    pub fn pays(&self) -> bool {
        self.credit >= self.least
    }

    /// No literal failed in the round that ends here.
    pub fn end_round(&mut self) {
        self.passed = 0;
    }

    /// How many literals the round still passes; 0 where none may begin.
    pub fn left_of_round(&self, vars: u32) -> u32 {
        if self.passed == 0 && !self.pays() {
            return 0;
        }
        vars.saturating_mul(2).saturating_sub(self.passed)
    }

    /// Whether one more literal may be tried.
    pub fn may_probe(&self) -> bool {
        self.credit != 0 && self.probes != 0
    }

    /// A literal was tried, which put `literals` literals on the trail. Where it failed, the round begins again, since literals
    /// that passed before may fail now.
    pub fn note_probe(&mut self, literals: usize, has_failed: bool) {
        self.probes = self.probes.saturating_sub(1);
        self.credit = self.credit.saturating_sub(literals as u64);
        if has_failed {
            self.passed = 0;
            self.credit = self.credit.saturating_add(CREDIT_OF_A_FAILURE);
        }
    }

    /// The literal to try next, over `vars` variables.
    pub fn next_literal(&mut self, vars: u32) -> Option<Lit> {
        let place = self.place;
        let next = place.saturating_add(1);
        self.place = if next < vars.saturating_mul(2) {
            next
        } else {
            0
        };
        self.passed = self.passed.saturating_add(1);
        Lit::new(place / 2 + 1, place % 2 == 0).ok()
    }
}

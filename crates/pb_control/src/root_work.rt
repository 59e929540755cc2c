//! When the search works at its root, where no decision on the trail has another value to try. A search that goes deep, as by
//! rows of thousands of terms, may never come back there by itself. So it steps back early, while little was closed.

ghost use Rattle.std.specs.Prelude.{◌≡◌, ◌+◌, ◌≤◌, length, IfNone, IfSome};

use crate::branch::Branch;
use crate::goal::Goal;
use crate::looks::Looks;
use crate::probing::Probing;
use crate::pruning::Pruning;
use crate::ties::Ties;
use pb_inst::{Lit, Number};
use std::marker::Model;

/// From how many variables on work at the root may pay where nothing is minimised. Fewer are searched without it. Chosen by hand.
const LEAST_VARIABLES: u32 = 512;

/// How many decisions stand at least where a search that minimises steps back to its root: all rows are shifted at once after
/// 20 nodes in any case, so a search that is over sooner pays for nothing.
const LEAST_DECISIONS: usize = 20;

/// One in this many decisions of a budget may be a probe at the root, so that the search keeps most of it. Chosen by hand.
const PROBES_OF_A_BUDGET: u64 = 4;

/// How many times a search that minimises may be about to flip a decision before stepping back for work at the root is ruled out:
/// what was closed by then is soon closed again.
const MOST_LEAVES: u32 = 64;

/// What the search of a piece may pay for rounds of dives from its root: enough for two that lead to nothing. One that leads to a
/// better assignment costs a third of one that does not, since more may follow it.
const CREDIT_OF_DIVES: u32 = 6;

/// How many times the search of a piece is about to flip a decision before work at its root is considered, where the whole was begun
/// before: what such work closes, the root of the whole mostly closed. As many as the whole had; not compared with others.
const EARLY_OF_A_PIECE: usize = 256;

/// What a round of dives costs.
const COST_OF_A_DIVE: u32 = 3;

/// What it gives back where it leads to a better assignment.
const GAIN_OF_A_DIVE: u32 = 2;

/// How often multipliers are improved anew at the root at most. Each time runs the first-order method. Chosen by hand.
const MOST_RENEWALS: u32 = 8;

/// Multipliers are improved anew once one in this many of the free variables got a value at the root. Chosen by hand.
const RENEWED_PART: usize = 8;

/// How many must have got one in any case, so that small instances do not pay for each literal. Chosen by hand.
const LEAST_RENEWED: usize = 8;

/// From how many variables on a search steps back to its root when it has found a better assignment. Smaller instances of 14
/// families took 1.2 times as long in the mean where it did so before its 64th flip.
const MANY_VARIABLES: u32 = 2_048;

/// How often a search steps back to its root when it has found a better assignment. Chosen by hand.
const MOST_RETURNS_IMPROVED: u32 = 4;

/// Such an assignment saves at least one in this many parts of what the best one before cost over the root's bound, so that the
/// search does not step back for each of many small steps. Chosen by hand.
const PARTS_OF_THE_GAP: Number = 8;

/// After this many flips the search of the whole without a budget steps back to its root if it has found a much better assignment
/// since it last dived. Sooner and more often, the real instance `garden11` took 4 and more times the decisions.
const FIRST_LATE_RETURN: u64 = 4_096;

/// The next such step may come after this many times as many flips, so that what is searched again stays a part of the whole.
/// Chosen with the first.
const GROWTH_OF_LATE_RETURNS: u64 = 8;

/// Of the decisions left of a budget a round of dives leaves one in this many to the search. With more for dives two real package
/// questions hold the least cost after 16,000 decisions, and a third half of what it held before.
const KEPT_OF_A_BUDGET: u64 = 4;

/// It leaves at least this many, since a search that has fewer may find nothing at all.
const LEAST_KEPT: u64 = 4_096;

/// One in this many decisions of a budget a round may take in any case. Chosen by hand.
const DIVE_OF_A_BUDGET: u64 = 8;

/// What the work at the root goes on from. Contracts see how often the search of the piece may still step back: each step back
/// counts in the measure of the search's loop. No answer depends on the rest, so nothing is promised of it.
#[derive(Drop)]
pub struct RootWork {
    /// How often the search of the piece may still step back to its root.
    returns: u32,
    /// How many decisions, from the first on, are known to have no other value to try.
    prefix: usize,
    /// Whether there are enough variables for work to pay though nothing is minimised.
    is_large: bool,
    /// Whether nothing is minimised.
    is_decision: bool,
    /// How many more times the search of the piece may be about to flip a decision before stepping back for work at the root is
    /// ruled out. A piece that begins with 0 is searched without such work.
    leaves: u32,
    /// Whether the search may work at its root by now.
    is_open: bool,
    /// How many cubes are left out of what is searched.
    cubes: usize,
    /// How many more times the search may be about to flip a decision before work at the root is considered.
    early: usize,
    /// Whether a search was begun that was not to go through all of it: the whole, whose pieces follow.
    has_begun_whole: bool,
    /// Whether it was begun before this search.
    is_after_whole: bool,
    ties: Ties,
    /// The trail's length and the best cost where no literal failed in the last round.
    done: Option<(usize, Option<Number>)>,
    probing: Probing,
    /// What may still be paid for dives.
    dives: u32,
    /// The trail's length and the best cost where the last dive began.
    dived: Option<(usize, Option<Number>)>,
    looks: Looks,
    /// How many more times the search may be about to flip a decision, where it is to end after that.
    turns: Option<u32>,
    /// How many variables there are.
    vars: u32,
    /// How often the search may still step back to its root for a better assignment.
    improved_returns: u32,
    /// The best cost when it did so last.
    improved: Option<Number>,
    /// How often it was about to flip a decision since it last considered a late step back to its root.
    flips: u64,
    /// After how many of these it considers one again.
    late: u64,
    /// How often multipliers may still be improved anew at the root.
    renewals: u32,
    /// The length of the root's trail when that was done last.
    renewed: usize,
}

impl Model for RootWork {
    ghost use Rattle.std.specs.Prelude.{ℕ};

    ghost Value = { ℕ };

    ghost view = { λ w. w.returns };
}

impl RootWork {
    /// Nothing was done. There are `vars` variables, nothing is minimised if `is_decision`, and `cubes` cubes are left out.
    pub fn new(vars: u32, is_decision: bool, cubes: usize) -> RootWork {
        let is_large = vars >= LEAST_VARIABLES;
        RootWork {
            returns: 0,
            prefix: 0,
            is_large,
            is_decision,
            leaves: 0,
            is_open: false,
            cubes,
            early: 0,
            has_begun_whole: false,
            is_after_whole: false,
            ties: Ties::new(),
            done: None,
            probing: Probing::new(is_decision),
            dives: 0,
            dived: None,
            renewals: 0,
            renewed: 0,
            looks: Looks::new(),
            turns: None,
            vars,
            improved_returns: 0,
            improved: None,
            flips: 0,
            late: u64::MAX,
        }
    }

    /// The search of a piece begins, for this goal, with the decisions that are `left` of its budget. Where it is not to search
    /// all of the piece, it ends when it is about to flip a decision for the last of `turns` times.
    pub fn begin(&mut self, goal: Goal, left: Option<u64>, turns: Option<u32>) {
        // More steps back than any search makes. Each one that is left counts in the measure of the search's loop, so the loop
        // ends whatever number stands here.
        self.returns = u32::MAX;
        self.prefix = 0;
        self.leaves = match goal {
            _ if self.is_decision => 1,
            // Where any assignment will do, the search finds one before work at the root would have paid.
            Goal::Any => 0,
            Goal::Least | Goal::AtMost(_) => MOST_LEAVES,
        };
        self.is_open = false;
        // What the cubes of a split leave is empty, and no work at its root tells that. Its search does, which as a rule flips
        // a decision once for each cube.
        self.early = self.cubes;
        self.is_after_whole = self.has_begun_whole;
        if self.is_after_whole {
            self.early = self.early.max(EARLY_OF_A_PIECE);
        }
        self.has_begun_whole |= turns.is_some();
        self.ties = Ties::new();
        self.done = None;
        let probes = match left {
            Some(count) => count / PROBES_OF_A_BUDGET,
            None => u64::MAX,
        };
        self.probing.begin(probes);
        self.dives = if self.is_decision { 0 } else { CREDIT_OF_DIVES };
        self.dived = None;
        self.renewals = if self.is_decision { 0 } else { MOST_RENEWALS };
        self.renewed = 0;
        self.looks = Looks::new();
        self.turns = turns;
        let has_many = !self.is_decision && self.vars >= MANY_VARIABLES;
        self.improved_returns = if has_many { MOST_RETURNS_IMPROVED } else { 0 };
        self.improved = None;
        self.flips = 0;
        // With 256,000 decisions `sets 400` held 840 with these steps and 833 without, `garden11` 30 and 29.
        let has_late = !self.is_decision && !self.is_after_whole && left.is_none();
        self.late = if has_late {
            FIRST_LATE_RETURN
        } else {
            u64::MAX
        };
    }

    /// Whether the search was about to flip a decision as often as it may.
    pub fn has_no_turns(&self) -> bool {
        self.turns == Some(0)
    }

    /// Nothing is left below the path, after a conflict or not, where the best cost is `cost`. Answers how many decisions are
    /// to stand, where the search is to step back and go on from there.
    pub fn take_return(
        &mut self,
        path: &[Branch],
        is_conflict: bool,
        cost: Option<Number>,
    ) -> Option<usize>
        ensures used { IfSome result (λ _. self.old ≡ self.new + 1) }
        ensures kept { IfNone result (self.new ≤ self.old) }
    {
        self.turns = self.turns.map(|turns| turns.saturating_sub(1));
        let count = self.return_to(path, is_conflict, cost)?;
        if self.returns == 0 || count >= path.len() {
            return None;
        }
        self.returns -= 1;
        Some(count)
    }

    /// How many decisions are to stand, if there is a reason to take any back: work at the root, one of the first times that the
    /// search is about to flip a decision, or else a tie.
    fn return_to(
        &mut self,
        path: &[Branch],
        is_conflict: bool,
        cost: Option<Number>,
    ) -> Option<usize>
        ensures { self.new ≡ self.old }
    {
        let prefix = self.prefix_of(path);
        let has_improved = self.ties.has_improved;
        let count = self.ties.leave(path, prefix, cost);
        if self.is_late_return_due() && self.is_worth_dives(cost) {
            self.is_open = true;
            self.dives = self.dives.max(COST_OF_A_DIVE);
            return Some(prefix);
        }
        if self.early > 0 {
            self.early -= 1;
            return count;
        }
        if has_improved && self.is_worth_a_return(cost) {
            self.is_open = true;
            return Some(prefix);
        }
        if self.leaves == 0 {
            return count;
        }
        self.leaves -= 1;
        self.is_open = self.is_large || !self.is_decision;
        if self.pays(path, is_conflict) {
            self.leaves = 0;
            return Some(prefix);
        }
        count
    }

    /// Whether the search steps back to its root, since the assignment of this cost that it found saves enough: more may be fixed
    /// there now, and dives begin from there again.
    fn is_worth_a_return(&mut self, cost: Option<Number>) -> bool
        ensures { self.new ≡ self.old }
    {
        let Some(cost) = cost else { return false };
        if self.improved_returns == 0 || !self.saves_a_part(self.improved, cost) {
            return false;
        }
        self.improved_returns -= 1;
        self.improved = Some(cost);
        true
    }

    /// Whether the search was about to flip a decision as often as it is to be before the next late step back to its root: the
    /// number grows from one to the next.
    /// Source: [W99]
    fn is_late_return_due(&mut self) -> bool
        ensures { self.new ≡ self.old }
    {
        self.flips = self.flips.saturating_add(1);
        if self.flips < self.late {
            return false;
        }
        self.flips = 0;
        self.late = self.late.saturating_mul(GROWTH_OF_LATE_RETURNS);
        true
    }

    /// Whether dives from the root are likely to find more, since the tree has found an assignment of this cost that saves enough
    /// over the best one when the search last dived, and more than ties are left.
    fn is_worth_dives(&self, cost: Option<Number>) -> bool {
        let Some(found) = cost else { return false };
        let last = match self.dived {
            Some((_, last)) => last,
            None => None,
        };
        self.saves_a_part(last, found) && !self.are_ties_left(cost)
    }

    /// Whether the cost is a good part nearer to the root's bound than the last one, or there was none.
    fn saves_a_part(&self, last: Option<Number>, cost: Number) -> bool {
        let Some(last) = last else {
            return true;
        };
        let gap = last.saturating_sub(self.ties.root_bound.unwrap_or(cost));
        last > cost && last.saturating_sub(cost) >= gap / PARTS_OF_THE_GAP
    }

    /// Whether a piece of a whole is searched that was begun before.
    pub fn is_after_whole(&self) -> bool {
        self.is_after_whole
    }

    /// Whether ties alone are left, where the best cost is `cost`: the root's bound says that nothing costs less.
    pub fn are_ties_left(&self, cost: Option<Number>) -> bool {
        cost.is_some() && self.ties.root_bound >= cost
    }

    /// The greatest bound that was taken at the root, if any was.
    pub fn root_bound(&self) -> Option<Number> {
        self.ties.root_bound
    }

    /// Whether the search has done enough to pay for a step back to its root. Where nothing is minimised, the search works there
    /// for literals that fail alone, and never so soon again: so what it searched counts more.
    fn pays(&mut self, path: &[Branch], is_conflict: bool) -> bool
        ensures { self.new ≡ self.old }
    {
        if self.is_decision {
            self.probing.raise();
            return self.is_large && is_conflict && self.probing.pays();
        }
        path.len() >= LEAST_DECISIONS && self.probing.pays()
    }

    /// Whether the search stands at its root, and works there for a better assignment than that of the best cost. Once ties alone
    /// are left, there is nothing to work for.
    fn is_worked_on(&mut self, path: &[Branch], cost: Option<Number>) -> bool
        ensures { self.new ≡ self.old }
    {
        if !self.is_open || self.are_ties_left(cost) {
            return false;
        }
        self.is_at_root(path)
    }

    /// Whether the search stands at its root: no decision of its path has another value to try.
    pub fn is_at_root(&mut self, path: &[Branch]) -> bool
        ensures { self.new ≡ self.old }
    {
        self.prefix_of(path) == path.len()
    }

    /// Whether literals are to be tried at the root, whose trail has `length` literals: the search works there for more than
    /// ties, and the trail or the best cost has changed since the last round in which none failed.
    pub fn is_round_due(&self, pruning: Pruning, length: usize, cost: Option<Number>) -> bool {
        self.is_open && pruning == Pruning::Open && self.done != Some((length, cost))
    }

    /// No literal failed. A round that waits for a look at the share goes on after it.
    pub fn end_round(&mut self, length: usize, cost: Option<Number>)
        ensures { self.new ≡ self.old }
    {
        if !self.looks.is_due() {
            self.done = Some((length, cost));
            self.probing.end_round();
        }
    }

    /// By how many decisions the search may dive at most, where it stands at its root and a dive is due: the search works there,
    /// and the trail, which has `length` literals, or the best cost has changed since the last dive.
    pub fn take_dive(
        &mut self,
        path: &[Branch],
        length: usize,
        cost: Option<Number>,
        left: Option<u64>,
    ) -> Option<u64>
        ensures { self.new ≡ self.old }
    {
        let most = left.map_or(u64::MAX, dives_of);
        let begin = Some((length, cost));
        if self.dives < COST_OF_A_DIVE
            || most == 0
            || self.dived == begin
            || !self.is_worked_on(path, cost)
        {
            return None;
        }
        self.dives = self.dives.saturating_sub(COST_OF_A_DIVE);
        self.dived = begin;
        Some(most)
    }

    /// Whether multipliers are to be improved anew: the search stands at its root and works there, and the trail of `length`
    /// literals has grown by a good part of the variables that had no value when that was done last.
    pub fn take_renewal(
        &mut self,
        path: &[Branch],
        length: usize,
        vars: u32,
        cost: Option<Number>,
    ) -> bool
        ensures { self.new ≡ self.old }
    {
        if self.renewals == 0 || !self.is_worked_on(path, cost) {
            return false;
        }
        let free = (vars as usize).saturating_sub(self.renewed);
        let least = free / RENEWED_PART + LEAST_RENEWED;
        if length.saturating_sub(self.renewed) < least {
            return false;
        }
        self.renewals = self.renewals.saturating_sub(1);
        self.renewed = length;
        true
    }

    /// A node was propagated, which put `literals` literals on the trail.
    pub fn note_propagated(&mut self, literals: usize)
        ensures { self.new ≡ self.old }
    {
        self.probing.earn(literals);
    }

    /// The literal is decided, after `decisions` other decisions, where the bound says `pruning`.
    pub fn note_decision(&mut self, pruning: Pruning, lit: Lit, decisions: usize)
        ensures { self.new ≡ self.old }
    {
        self.ties.note(pruning, lit, decisions);
    }

    /// Whether nothing objected since the last improvement: no conflict, no bound, no full trail that is none.
    pub fn is_calm(&self) -> bool {
        self.ties.is_calm
    }

    /// A full trail was taken, which improved on the best assignment or did not.
    pub fn note_full(&mut self, is_better: bool)
        ensures { self.new ≡ self.old }
    {
        self.ties.has_improved = is_better;
    }

    /// Whether a bound was taken at the root.
    pub fn has_root_bound(&self) -> bool {
        self.ties.root_bound.is_some()
    }

    /// A bound was taken at the root, or none.
    pub fn note_root_bound(&mut self, bound: Option<Number>)
        ensures { self.new ≡ self.old }
    {
        self.ties.root_bound = self.ties.root_bound.max(bound);
    }

    /// The search made `decisions` more decisions.
    pub fn count(&mut self, decisions: u64)
        ensures { self.new ≡ self.old }
    {
        self.looks.count(decisions);
    }

    /// Whether the share is to be asked before the next decision.
    pub fn is_look_due(&self) -> bool {
        self.looks.is_due()
    }

    /// How many decisions may be made before the share is to be asked.
    pub fn until_look(&self) -> u64 {
        self.looks.until_due()
    }

    /// The share is asked now.
    pub fn note_look(&mut self)
        ensures { self.new ≡ self.old }
    {
        self.looks.begin_again();
    }

    /// A dive was handed a better assignment.
    pub fn note_borrowed(&mut self)
        ensures { self.new ≡ self.old }
    {
        self.looks.note_borrowed();
    }

    /// Whether a dive was handed a better assignment since this was asked last.
    pub fn take_borrowed(&mut self) -> bool
        ensures { self.new ≡ self.old }
    {
        self.looks.take_borrowed()
    }

    /// How many literals are still to be passed in the round of probes at the root, over `vars` variables; 0 where none may
    /// begin, since too little was searched.
    pub fn left_of_round(&self, vars: u32) -> u32 {
        self.probing.left_of_round(vars)
    }

    /// Whether one more literal may be tried before the share is asked.
    pub fn may_probe(&self) -> bool {
        self.probing.may_probe() && !self.looks.is_due()
    }

    /// The literal to try next, over `vars` variables.
    pub fn next_literal(&mut self, vars: u32) -> Option<Lit>
        ensures { self.new ≡ self.old }
    {
        self.probing.next_literal(vars)
    }

    /// A literal was tried, which put `literals` literals on the trail.
    pub fn note_probe(&mut self, literals: usize, has_failed: bool)
        ensures { self.new ≡ self.old }
    {
        self.probing.note_probe(literals, has_failed);
    }

    /// A dive found a better assignment over `vars` variables: more literals may fail now.
    pub fn reopen(&mut self, vars: u32)
        ensures { self.new ≡ self.old }
    {
        self.done = None;
        self.dives = self.dives.saturating_add(GAIN_OF_A_DIVE);
        self.probing.grant(vars);
    }

    /// How many decisions of the path, from the first on, have no other value to try.
    fn prefix_of(&mut self, path: &[Branch]) -> usize
        ensures within { result ≤ length path.now }
        ensures returns { self.new ≡ self.old }
    {
        self.prefix = self.prefix.min(path.len());
        for place in self.prefix..path.len() {
            if !path[place].flipped {
                return place;
            }
            self.prefix = place + 1;
        }
        path.len()
    }
}

/// How many decisions a round of dives may make, where this many are left of the budget.
fn dives_of(left: u64) -> u64 {
    let kept = (left / KEPT_OF_A_BUDGET).max(LEAST_KEPT);
    left.saturating_sub(kept).max(left / DIVE_OF_A_BUDGET)
}

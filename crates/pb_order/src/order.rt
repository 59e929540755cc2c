//! The order of variables, and what moves them in it.
//! Source: [B04], [MS99]

ghost use Rattle.std.specs.Prelude.{◌<◌, length};

use crate::activity::Activities;
use crate::conflict_analysis::ConflictAnalysis;
use crate::heap::Heap;
use crate::initial::{initial_activities, initial_phases, literal_scores};
use crate::pseudocosts::{Gain, Pseudocosts};
use pb_count::Coefficient;
use pb_inst::{Assignment, Cube, Lit, Memory};
use pb_normal::Form;
use pb_rows::RowTerms;
use pb_trail::Propagator;
use std::alloc::Global;
use std::marker::Model;

/// For how many variables of the heap each node pays when what leads the order changes: the heap is rebuilt only once the nodes
/// since the last time have paid for all of it, so that it costs a node little. 16 was chosen by hand.
const REBUILT_AT_A_NODE: u32 = 16;

/// For each variable the literal that is decided first, those of the greatest activity in front, or of the greatest activity
/// times what decisions of them gained.
pub struct Order {
    activities: Activities,
    heap: Heap,
    /// For how many variables the nodes since the last rebuild of the heap have paid.
    waited: u32,
    /// For each variable the literal that is tried first.
    phases: Vec<Lit>,
    /// Whether nothing is minimised.
    is_decision: bool,
    /// Whether the phases are those of an assignment from outside.
    is_suggested: bool,
    /// Whether ties alone are left, and the phases are those of the best assignment.
    is_tied: bool,
    analysis: ConflictAnalysis,
}

// No answer depends on the order, so contracts see nothing of it.
impl Model for Order {
    ghost Value = { Unit {0} };

    ghost view = { λ _. tt };
}

impl Drop for Order {
    fn drop(self) {
        let Order {
            activities: _,
            heap: _,
            waited: _,
            phases: _,
            is_decision: _,
            is_suggested: _,
            is_tied: _,
            analysis: _,
        } = self;
    }
}

impl Order {
    /// All variables of the normal form. Where cubes are to be false, their variables have a head start.
    pub fn new<C: Coefficient>(
        alloc: Global,
        form: &Form<C>,
        negated: &[Cube],
    ) -> Result<Order, Memory> {
        let scores = literal_scores(alloc, form)?;
        let entries = initial_activities(alloc, form, &scores, negated)?;
        let pseudocosts = Pseudocosts::new(alloc, vars_with_gains(form))?;
        let activities = Activities::new(entries, pseudocosts);
        let heap = Heap::new(alloc, form.vars(), &activities)?;
        let phases = initial_phases(alloc, form, &scores)?;
        let analysis = ConflictAnalysis::new(alloc, form.vars())?;
        Ok(Order {
            activities,
            heap,
            waited: 0,
            phases,
            is_decision: form.objective().is_empty(),
            is_suggested: false,
            is_tied: false,
            analysis,
        })
    }

    /// Where nothing is minimised, or ties alone are left, the values of the assignment are tried first from now on.
    pub fn prefer(&mut self, assignment: &Assignment) {
        // It meets all constraints, and what is left to find is like it but for the variables that come first. While the cost may
        // still fall the first values stay, since there this took 0.3 to 2 times the decisions, and 0.98 times in the mean.
        if self.is_decision || self.is_tied {
            self.follow(assignment);
        }
    }

    /// Ties with this assignment alone are left, or more where there is none. With ties alone the search is like one that minimises
    /// nothing: the values of the assignment are tried first, and conflicts move the order as they do there.
    pub fn settle_ties(&mut self, tied: Option<&Assignment>) {
        if let Some(assignment) = tied
            && !self.is_tied
        {
            self.follow(assignment);
        }
        self.is_tied = tied.is_some();
    }

    /// The values of an assignment from outside are tried first from now on, whatever else speaks for others.
    pub fn suggest(&mut self, assignment: &Assignment) {
        self.is_suggested = true;
        self.follow(assignment);
    }

    /// Whether the values that are tried first are those of an assignment: one from outside, or the best one where ties alone are left.
    pub fn follows_assignment(&self) -> bool {
        self.is_suggested || self.is_tied
    }

    /// The values of the assignment are tried first from now on.
    fn follow(&mut self, assignment: &Assignment) {
        for lit in self.phases.iter_mut() {
            let var = lit.var();
            if var <= assignment.len() && assignment.get(var) != lit.positive() {
                *lit = lit.negate();
            }
        }
    }

    /// How many variables are left: those that were not passed over.
    pub fn left(&self) -> u32 {
        self.heap.len()
    }

    /// The first literal that is left.
    pub fn first(&self) -> Option<Lit> {
        let index = self.heap.first()?;
        self.phases.get(index as usize).copied()
    }

    /// Passes over the first literal.
    pub fn pass(&mut self) {
        self.heap.take_first(&self.activities);
    }

    /// Puts back the variables that were passed over last, until `left` are left.
    pub fn return_to(&mut self, left: u32) {
        self.heap.put_back(left, &self.activities);
    }

    /// Where a conflict stands, bumps the activities of the variables of the row that could not be met. Where nothing is
    /// minimised, or ties alone are left, it also bumps the variables whose values led to that, back to the decisions, and what
    /// was bumped before counts less from now on.
    pub fn bump_conflict<C: Coefficient>(&mut self, propagator: &Propagator<C>) {
        // Where a row could not be met the search is hard, so its variables come sooner from now on. With an objective bounds
        // close most nodes, and conflicts tell too little to replace what costs and rows told: there reasons and decay made
        // two cuts take 2.8 and 4.9 times the decisions.
        let Some(row) = propagator.conflict_row() else {
            return;
        };
        self.bump_row(propagator.row_terms(row));
        if self.is_decision || self.is_tied {
            self.analyse_conflict(propagator, row);
            self.activities.decay();
        }
    }

    /// Conflict analysis: bumps the variables whose values led to the conflict at the row.
    fn analyse_conflict<C: Coefficient>(&mut self, propagator: &Propagator<C>, row: usize)
        requires { row < length propagator.now.rows }
    {
        self.analysis.begin();
        self.analysis.add_row(propagator, propagator.row_terms(row));
        for place in (0..propagator.trail_len()).rev() {
            if !self.analysis.are_waiting() {
                return;
            }
            self.analyse_literal(propagator, propagator.literal(place));
        }
    }

    /// Bumps the literal's variable where it led to the conflict; then those of the row that forced it led to it too.
    fn analyse_literal<C: Coefficient>(&mut self, propagator: &Propagator<C>, lit: Lit) {
        if self.analysis.meet(lit.var()) {
            self.bump(lit);
            if let Some(row) = propagator.reason(lit.var()) {
                self.analysis.add_row(propagator, propagator.row_terms(row));
            }
        }
    }

    /// Where a conflict stands: writes into the list the variables of the decisions that led to it, those made last first, as far
    /// as there is room.
    /// Source: [MS99]
    pub fn blame<C: Coefficient>(&mut self, propagator: &Propagator<C>, into: &mut Vec<u32>) {
        into.clear();
        let Some(row) = propagator.conflict_row() else {
            return;
        };
        self.analysis.begin();
        self.analysis.add_row(propagator, propagator.row_terms(row));
        for place in (0..propagator.trail_len()).rev() {
            if !self.analysis.are_waiting() {
                return;
            }
            let var = propagator.literal(place).var();
            if self.analysis.meet(var) {
                self.blame_variable(propagator, var, into);
            }
        }
    }

    /// The variable led to the conflict: a decision is written into the list, and of a literal that was forced those of the row
    /// that forced it led to it too.
    fn blame_variable<C: Coefficient>(
        &mut self,
        propagator: &Propagator<C>,
        var: u32,
        into: &mut Vec<u32>,
    ) {
        if let Some(row) = propagator.reason(var) {
            self.analysis.add_row(propagator, propagator.row_terms(row));
        } else if into.len() < into.capacity() {
            into.push_reserved(var);
        }
    }

    /// Bumps the activities of the variables of a row.
    fn bump_row<C: Coefficient>(&mut self, row: RowTerms<'_, C>) {
        match row {
            RowTerms::Weighted(terms) => {
                for term in terms {
                    self.bump(term.lit());
                }
            }
            RowTerms::Units(lits) => {
                for lit in lits {
                    self.bump(*lit);
                }
            }
        }
    }

    /// Notes by how much a decision for the literal raised the bound.
    pub fn learn(&mut self, lit: Lit, gain: Gain) {
        self.activities.learn(lit, gain);
        // Where activities lead alone the heap is left as it is, since gains don't count in it.
        if self.activities.is_led_by_gains() {
            self.heap.moved(lit.var() - 1, &self.activities);
        }
    }

    /// At this node pseudocosts are to lead the order too, or not. A change rebuilds the whole heap, so it waits until enough
    /// nodes have gone by.
    pub fn lead_by_gains(&mut self, is_led: bool) {
        self.waited = self.waited.saturating_add(REBUILT_AT_A_NODE);
        if is_led != self.activities.is_led_by_gains() && self.waited >= self.heap.len() {
            self.activities.lead_by_gains(is_led);
            self.heap.rebuild(&self.activities);
            self.waited = 0;
        }
    }

    /// Bumps the activity of the literal's variable.
    pub fn bump(&mut self, lit: Lit) {
        let index = lit.var() - 1;
        self.activities.bump(index);
        self.heap.bumped(index, &self.activities);
    }
}

/// For how many variables pseudocosts are kept: for none without an objective, since there no decision raises a bound.
fn vars_with_gains<C: Coefficient>(form: &Form<C>) -> usize {
    if form.objective().is_empty() {
        return 0;
    }
    form.vars() as usize
}

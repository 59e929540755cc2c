//! Multipliers that follow a search: when they are used, and what they put in place of a bound. No answer depends on which
//! multipliers they are; `Multipliers` tells what follows from any.
//! Source: [G74]

mod levels;
mod reduced_cost_fixing;
mod refuting;
mod schedule;
mod steps;
mod sweeps;

ghost use Rattle.std.specs.Prelude.{◌≡◌, ◌⊎◌, ◌+◌, ◌^◌, ◌<◌, ◌≤◌, ◌≤ℤ◌, [], true, IfOk, IfSome, length, take};
ghost use Rattle.pb_dual.specs.Multipliers.{IsBelowCosts, IsFixed};
ghost use Rattle.pb_trail.specs.Completion.{HasNoCompletion};
ghost use Rattle.pb_lagrange.specs.Relaxation.{IsBeside};
ghost use Rattle.pb_saddle.specs.Shifting.{IsSameButShifted};

use crate::effort::Effort;
use levels::{Levels, changes_for};
use pb_count::{Coefficient, Counter};
use pb_dual::Multipliers;
use pb_inst::{Lit, Memory, Number};
use pb_normal::Form;
use pb_rows::Tables;
use pb_trail::TrailView;
use reduced_cost_fixing::Fixing;
use refuting::Refuting;
use schedule::Schedule;
use std::alloc::Global;
use std::marker::Model;
use steps::Steps;
use sweeps::Sweeps;

/// How many literals beyond the root's part the trail must have for the search to count as far below it. There its multipliers
/// are a worse start for all rows at once than the root's, since many of them suit the decisions alone. 256 was chosen by hand.
const FAR: usize = 256;

/// How many times its cost, beyond that cost itself, the rows of a literal must take off it to call for it. Where some costs are
/// half a million times others, trying its negation first saves most of the search: 3,285 to 12,884 decisions in place of
/// 233,250 to 416,207 on questions over 1,000 packages.
const MANY_TIMES: u64 = 8;

/// About how many variables are looked through for a literal to fix in the time of a term, so that both are counted in one
/// unit. An estimate.
const VARIABLES_OF_A_TERM: u32 = 8;

/// A literal that the multipliers fix, and their bound of the trail at that moment.
#[derive(Clone, Copy)]
pub struct Fixed {
    /// True in every completion of the trail that costs no more than the limit.
    pub lit: Lit,
    /// At most the cost of every completion of the trail.
    pub bound: Number,
}

/// Multipliers beside the trail of a search. Where they are used they follow the trail, and are shifted at the rows that it
/// touches. What was shifted below an assumption is taken back with it. What they cost and what they save, in counted work,
/// decides whether they are used.
pub struct Relaxation<C: Coefficient = u64> {
    multipliers: Multipliers<C>,
    schedule: Schedule,
    steps: Steps<C>,
    sweeps: Sweeps,
    reduced_cost_fixing: Fixing,
    effort: Effort,
    /// Where there is no objective: whether multipliers were found that refute, and when they are looked for.
    refuting: Option<Refuting>,
    levels: Levels,
    /// How many literals of the trail are counted.
    counted: usize,
    /// Whether they were used at the node where the search is.
    is_used: bool,
    /// Whether they were used at the node that was judged last, even if the search has gone below it since.
    was_used: bool,
}

impl<C: Coefficient> Drop for Relaxation<C> {
    fn drop(self) {
        let Relaxation {
            multipliers: _,
            schedule: _,
            steps: _,
            sweeps: _,
            reduced_cost_fixing: _,
            effort: _,
            refuting: _,
            levels: _,
            counted: _,
            is_used: _,
            was_used: _,
        } = self;
    }
}

impl<C: Coefficient> Model for Relaxation<C> {
    ghost use Rattle.std.specs.Prelude.{◌≡◌, length};
    ghost use Rattle.pb_dual.specs.Multipliers.{MultipliersState};

    ghost Value = { MultipliersState };

    ghost view = { λ r. r.multipliers };

    ghost invariant = { λ r. r.schedule ≡ length r.multipliers.form.rows };
}

impl<C: Coefficient> Relaxation<C> {
    /// No multipliers, beside an empty trail. Nothing after it takes memory. There is none where the costs have no scale in
    /// the width of the form.
    pub fn new(alloc: Global, form: &Form<C>) -> Result<Option<Relaxation<C>>, Memory>
        ensures { IfOk result (λ made. IfSome made (λ r. (r.form ≡ form.now) × (r.trail ≡ []))) }
    {
        match Multipliers::new(alloc, form, changes_for(form.len()))? {
            Some(multipliers) => Ok(Some(Relaxation::beside(alloc, form, multipliers)?)),
            None => Ok(None),
        }
    }

    /// These multipliers, with all that decides when they are used.
    fn beside(
        alloc: Global,
        form: &Form<C>,
        multipliers: Multipliers<C>,
    ) -> Result<Relaxation<C>, Memory>
        requires { multipliers.form ≡ form.now }
        ensures { IfOk result (λ r. r ≡ multipliers) }
    {
        let sweeps = Sweeps::new(alloc, form)?;
        let effort = Effort::new(sweeps.terms());
        let refuting = if form.objective().is_empty() {
            Some(Refuting::new(sweeps.terms()))
        } else {
            None
        };
        Ok(Relaxation {
            multipliers,
            schedule: Schedule::new(alloc, form)?,
            steps: Steps::new(alloc, form)?,
            sweeps,
            reduced_cost_fixing: Fixing::new(),
            effort,
            refuting,
            levels: Levels::new(alloc, form.vars() as usize)?,
            counted: 0,
            is_used: false,
            was_used: false,
        })
    }

    /// The bound, or that of the multipliers where they are used and it is greater. Where the latter is below the goal, the
    /// rows that the trail touched since the last time are stepped first. Where it alone would reach the goal, it is left out
    /// now and then, to see what it saves.
    pub fn raise(&mut self, trail: &TrailView<'_, C>, bound: Number, goal: Number) -> Number
        requires { IsBeside trail.now.form trail.now.trail self.old }
        ensures bound { (result ≡ bound) ⊎ ((bound ≤ℤ result) × IsBelowCosts trail.now.form trail.now.trail result) }
        ensures beside { IsBeside trail.now.form trail.now.trail self.new }
    {
        // Without an objective multipliers serve to refute alone, so they have no bound to put in place of this one.
        if self.refuting.is_some() {
            return bound;
        }
        let is_used = self.use_at(trail, goal);
        if !is_used {
            return bound;
        }
        let relaxed = self.multipliers.bound();
        if relaxed <= bound || self.is_tried(relaxed, goal) {
            return bound;
        }
        relaxed
    }

    /// Follows the trail and improves the multipliers, where they are used, as `raise` does; no bound is asked for. Answers
    /// whether they tell that nothing completes the trail. Now and then that is left out, to see what it saves.
    pub fn improve_multipliers(&mut self, trail: &TrailView<'_, C>) -> bool
        requires { IsBeside trail.now.form trail.now.trail self.old }
        ensures no_completion { result ≡ true → HasNoCompletion trail.now.form.rows trail.now.trail }
        ensures beside { IsBeside trail.now.form trail.now.trail self.new }
    {
        if let Some(refuting) = self.refuting {
            return self.refute(trail, refuting);
        }
        let is_used = self.use_at(trail, Number::MAX);
        if !is_used {
            return false;
        }
        if !self.multipliers.refutes() {
            return false;
        }
        !self.is_tried(Number::MAX, Number::MAX)
    }

    /// Whether the multipliers tell that nothing completes the trail, where there is no objective. They are looked for beside
    /// the root's trail, a few times at most, and used only if they refute that: then they refute each trail beyond it too.
    /// Following the search with them took 12 times the instructions on random clauses.
    fn refute(&mut self, trail: &TrailView<'_, C>, refuting: Refuting) -> bool
        requires { IsBeside trail.now.form trail.now.trail self.old }
        ensures no_completion { result ≡ true → HasNoCompletion trail.now.form.rows trail.now.trail }
        ensures beside { IsBeside trail.now.form trail.now.trail self.new }
    {
        let mut refuting = refuting;
        refuting.count_node(trail.len().saturating_sub(self.counted));
        self.counted = trail.len();
        if let Some(steps) = refuting.steps() {
            self.return_to_root(trail);
            self.multipliers.saturate();
            self.sweeps.refute(&mut self.multipliers, steps);
            refuting.end(self.multipliers.refutes());
        }
        self.refuting = Some(refuting);
        if !refuting.are_found {
            return false;
        }
        self.confirm(trail, refuting)
    }

    /// Whether the multipliers that were found refute the trail. Where they do not, they were found beside another root.
    fn confirm(&mut self, trail: &TrailView<'_, C>, refuting: Refuting) -> bool
        requires { IsBeside trail.now.form trail.now.trail self.old }
        ensures no_completion { result ≡ true → HasNoCompletion trail.now.form.rows trail.now.trail }
        ensures beside { IsBeside trail.now.form trail.now.trail self.new }
    {
        self.catch_up(trail);
        let mut refuting = refuting;
        refuting.are_found = self.multipliers.refutes();
        self.refuting = Some(refuting);
        refuting.are_found
    }

    /// Uses the multipliers at the node, if they pay: they follow the trail to its end, and are improved where their bound is
    /// below the goal. Answers whether they are used.
    fn use_at(&mut self, trail: &TrailView<'_, C>, goal: Number) -> bool
        requires { IsBeside trail.now.form trail.now.trail self.old }
        ensures followed { result ≡ true → self.new.trail ≡ trail.now.trail }
        ensures beside { IsBeside trail.now.form trail.now.trail self.new }
    {
        self.count_node(trail.len());
        // Whatever the effort says, since it may be this shift that makes multipliers pay.
        if self.sweeps.is_shift_due() {
            self.shift_all(trail, goal);
        }
        self.is_used = self.effort.is_open();
        self.was_used = self.is_used;
        if !self.is_used {
            return false;
        }
        if self.sweeps.is_due(&self.effort) {
            self.step_all(trail);
        }
        self.catch_up(trail);
        self.improve(trail.tables(), goal);
        self.effort.count_use(self.schedule.work());
        true
    }

    /// Shifts all rows at once beside the root's trail. Where the search is far below the root, it starts from the root's
    /// multipliers, since those of a far place are a worse start.
    fn shift_all(&mut self, trail: &TrailView<'_, C>, goal: Number)
        requires { IsBeside trail.now.form trail.now.trail self.old }
        ensures { IsBeside trail.now.form trail.now.trail self.new }
    {
        self.return_to_root(trail);
        if trail.len().saturating_sub(self.multipliers.len()) >= FAR {
            let changes = match self.levels.root_end() {
                Some(mark) => mark.changes,
                None => usize::MAX,
            };
            self.take_back_to(changes);
        }
        // Saturated first, or else the root's bound may stay well below the least cost: it did by 2 and 3 on package questions.
        self.multipliers.saturate();
        self.sweeps
            .shift_all(&mut self.multipliers, &mut self.steps, goal);
    }

    /// Steps all rows beside the root's trail, since its literals hold for the rest of the search: first multipliers that were
    /// stepped beside no literal left a package question open after 20 seconds.
    fn step_all(&mut self, trail: &TrailView<'_, C>)
        requires { IsBeside trail.now.form trail.now.trail self.old }
        ensures { IsBeside trail.now.form trail.now.trail self.new }
    {
        self.return_to_root(trail);
        self.sweeps
            .step_all(&mut self.multipliers, &mut self.steps, &mut self.effort);
    }

    /// Follows the trail to the end of the root's part, and no further.
    fn return_to_root(&mut self, trail: &TrailView<'_, C>)
        requires { IsBeside trail.now.form trail.now.trail self.old }
        ensures { IsBeside trail.now.form trail.now.trail self.new }
    {
        self.catch_up(trail);
        let length = match self.levels.root_end() {
            Some(mark) => mark.length.min(trail.len()),
            None => trail.len(),
        };
        self.multipliers.unassign_to(length);
    }

    /// Plans in which order the variables without a value may be decided, by a point of least cost beside the trail that `steps`
    /// steps approach from the last one.
    pub fn plan(&mut self, trail: &TrailView<'_, C>, steps: u32)
        requires { IsBeside trail.now.form trail.now.trail self.old }
        ensures { IsBeside trail.now.form trail.now.trail self.new }
    {
        self.catch_up(trail);
        self.sweeps.plan(&self.multipliers, steps);
    }

    /// The literal at the place, from 0 on, of the order that was planned last.
    pub fn planned(&self, place: usize) -> Option<Lit> {
        self.sweeps.planned(place)
    }

    /// A search begins: its nodes are counted from here on.
    pub fn begin_search(&mut self)
        ensures { self.new ≡ self.old }
    {
        self.sweeps.begin_search();
    }

    /// A new question begins: what multipliers cost earlier ones, and did not save, counts no more, or else this question would
    /// pay for them.
    pub fn begin_question(&mut self)
        ensures { self.new ≡ self.old }
    {
        self.effort.forgive();
    }

    /// All rows are to be shifted at once again.
    pub fn renew(&mut self)
        ensures { self.new ≡ self.old }
    {
        self.sweeps.renew();
    }

    /// Counts a node of the search, with `length` literals on its trail.
    fn count_node(&mut self, length: usize)
        ensures { self.new ≡ self.old }
    {
        self.schedule.begin();
        self.reduced_cost_fixing.forget();
        self.sweeps.count_node();
        self.effort
            .count_search(length.saturating_sub(self.counted));
        self.counted = length;
    }

    /// Whether a bound that reaches the goal is left out, to see what it saves. Below such a node the multipliers are not used,
    /// or else the trial would not tell what the search costs without them.
    fn is_tried(&mut self, relaxed: Number, goal: Number) -> bool
        ensures { self.new ≡ self.old }
    {
        if relaxed < goal || self.effort.close(self.levels.len()) {
            return false;
        }
        self.is_used = false;
        self.was_used = false;
        true
    }

    /// The bound of the multipliers as they are, where they were used at the node that was judged last. They follow the trail,
    /// but touch no row by that, since what is assumed for this bound is taken back at once.
    pub fn bound_at_hand(&mut self, trail: &TrailView<'_, C>) -> Option<Number>
        requires { IsBeside trail.now.form trail.now.trail self.old }
        ensures bound { IfSome result (IsBelowCosts trail.now.form trail.now.trail) }
        ensures beside { IsBeside trail.now.form trail.now.trail self.new }
    {
        if !self.was_used {
            return None;
        }
        self.follow_to_end(trail);
        Some(self.multipliers.bound())
    }

    /// Follows the trail to its end, and touches no row by that.
    fn follow_to_end(&mut self, trail: &TrailView<'_, C>)
        requires { IsBeside trail.now.form trail.now.trail self.old }
        ensures form { self.new.form ≡ self.old.form }
        ensures trail { self.new.trail ≡ trail.now.trail }
    {
        while self.multipliers.len() < trail.len() {
            self.follow_quietly(trail);
        }
    }

    /// A literal as `fixed_literal` gives it, where the multipliers were used at the node that was judged last: for what is assumed
    /// below it and taken back at once. All variables are looked at.
    pub fn fixed_at_hand(&mut self, trail: &TrailView<'_, C>, limit: Number) -> Option<Lit>
        requires { IsBeside trail.now.form trail.now.trail self.old }
        ensures fixed { IfSome result (IsFixed trail.now.form trail.now.trail limit) }
        ensures beside { IsBeside trail.now.form trail.now.trail self.new }
    {
        if !self.was_used {
            return None;
        }
        self.follow_to_end(trail);
        if self.multipliers.bound() > limit {
            return None;
        }
        self.reduced_cost_fixing
            .find_in_all(&self.multipliers, limit)
    }

    /// A literal that every completion of the trail that costs no more than the limit makes true, and that has no value yet,
    /// with the bound of the multipliers as they are; or none. None also where the multipliers are not used at the node.
    pub fn fixed_literal(&mut self, trail: &TrailView<'_, C>, limit: Number) -> Option<Fixed>
        requires { IsBeside trail.now.form trail.now.trail self.old }
        ensures fixed { IfSome result (λ f. IsFixed trail.now.form trail.now.trail limit f.lit) }
        ensures bound { IfSome result (λ f. IsBelowCosts trail.now.form trail.now.trail f.bound) }
        ensures beside { IsBeside trail.now.form trail.now.trail self.new }
    {
        self.reduced_cost_fixing.forget();
        if !self.is_used {
            return None;
        }
        self.catch_up(trail);
        let bound = self.multipliers.bound();
        if bound > limit {
            return None;
        }
        let lit = self.find_fixed(limit)?;
        self.effort.fix();
        Some(Fixed { lit, bound })
    }

    /// The fixed literal alone, once the trail is followed. At the root all variables are looked at, since what is fixed there
    /// stays; below it only some of them, so that a node costs little.
    fn find_fixed(&mut self, limit: Number) -> Option<Lit>
        ensures fixed { IfSome result (IsFixed self.old.form self.old.trail limit) }
        ensures unchanged { self.new ≡ self.old }
    {
        if !self.levels.are_root() {
            return self.reduced_cost_fixing.find(&self.multipliers, limit);
        }
        let found = self
            .reduced_cost_fixing
            .find_in_all(&self.multipliers, limit);
        if found.is_none() {
            let looked_at = self.multipliers.form().vars() / VARIABLES_OF_A_TERM;
            self.effort.count_multipliers(looked_at as u64);
        }
        found
    }

    /// Whether the last call of `fixed_literal` fixed a literal at the node where the search still is. There may be more, and
    /// the multipliers need not be improved before.
    pub fn is_fixing(&self) -> bool {
        self.reduced_cost_fixing.has_found
    }

    /// By how much the bound at the node that was judged last may rise before it is over the limit, and 2^64 - 1 where it is
    /// more; none where the multipliers were not used there. The unit is 1 of a reduced cost, of which a cost of 1 has as
    /// many as the multipliers' scale; in a wide form it is as many times more as its origin is above 2^62.
    pub fn gap(&self, limit: Number) -> Option<u64> {
        if self.was_used {
            return Some(measure(self.multipliers.gap(limit)));
        }
        None
    }

    /// Whether the multipliers have saved what they cost, in counted work. Never without an objective, since there they have no
    /// bound by which decisions could gain.
    pub fn pays(&self) -> bool {
        self.refuting.is_none() && self.effort.pays()
    }

    /// Of the literal and its negation, which costs `cost`, the one whose reduced cost is less, where the multipliers are used at
    /// the node; else the literal. Where the rows take off the negation many times its cost, the literal comes first all the
    /// same, since a bound soon closes the subtree below it, and the negation is as good as forced then.
    pub fn cheaper(&self, lit: Lit, cost: Counter<C>) -> Lit
        requires { lit.var ≤ self.now.form.vars }
        ensures { result.var ≡ lit.var }
    {
        if !self.is_used {
            return lit;
        }
        self.cheaper_at_hand(lit, cost)
    }

    /// As `cheaper`, where the multipliers were used at the node that was judged last.
    pub fn cheaper_at_hand(&self, lit: Lit, cost: Counter<C>) -> Lit
        requires { lit.var ≤ self.now.form.vars }
        ensures { result.var ≡ lit.var }
    {
        if !self.was_used || !self.multipliers.difference(lit).is_positive() {
            return lit;
        }
        if !cost.is_zero() && self.is_called_for(lit.negate(), cost) {
            return lit;
        }
        lit.negate()
    }

    /// Whether the rows take off the literal, which costs `cost`, many times that.
    fn is_called_for(&self, lit: Lit, cost: Counter<C>) -> bool
        requires { lit.var ≤ self.now.form.vars }
    {
        let (own, other) = self.multipliers.costs(lit);
        let scaled = self.multipliers.scale().saturating_mul(cost);
        let many = scaled.saturating_mul(Counter::of(MANY_TIMES));
        !other.is_below(own.saturating_add(many))
    }

    /// Improves the bound where it is below the goal.
    fn improve(&mut self, tables: &Tables<'_, C>, goal: Number)
        requires { tables.now.form ≡ self.old.form }
        ensures { IsSameButShifted self.old self.new }
    {
        if self.multipliers.bound() < goal {
            self.tighten(tables);
        }
    }

    /// Shifts the multipliers of the touched rows, each to where the bound is greatest.
    fn tighten(&mut self, tables: &Tables<'_, C>)
        requires { tables.now.form ≡ self.old.form }
        ensures { IsSameButShifted self.old self.new }
    {
        let mut from = self.schedule.take_start();
        while let Some(row) = self.step_next(tables, from) {
            from = row + 1;
            if self.schedule.ends_before(from) {
                return;
            }
        }
    }

    /// Steps the next touched row from this one on, and touches the rows that may be improved after it. Gives the row, or none
    /// where no row is touched.
    fn step_next(&mut self, tables: &Tables<'_, C>, from: usize) -> Option<usize>
        requires { tables.now.form ≡ self.old.form }
        ensures row { IfSome result (λ row. (from ≤ row) × (row < length self.old.form.rows) × (row + 1 < 2 ^ 64)) }
        ensures same { IsSameButShifted self.old self.new }
    {
        let row = self.schedule.take(from)?;
        let amount = self.steps.step(&mut self.multipliers, row);
        self.schedule.spread(&self.multipliers, tables, row, amount);
        Some(row)
    }

    /// An assumption is made on a trail of `length` literals: what is shifted from now on is taken back with it.
    pub fn begin_level(&mut self, length: usize)
        ensures { self.new ≡ self.old }
    {
        self.levels.push(self.multipliers.changes(), length);
    }

    /// Nothing is left to try in place of the last assumption. Where that holds of all before it too, it is the root's.
    pub fn settle_last(&mut self)
        ensures { self.new ≡ self.old }
    {
        self.levels.settle_last();
    }

    /// The trail is back at `length` literals, of which `level` are assumptions.
    pub fn undo_to(&mut self, level: usize, length: usize)
        ensures form { self.new.form ≡ self.old.form }
        ensures trail { self.new.trail ≡ take length self.old.trail }
    {
        self.multipliers.unassign_to(length);
        // Shifts that were kept below other decisions made searches take 1.1 to 11 times the decisions.
        if let Some(mark) = self.levels.cut(level) {
            self.take_back_to(mark);
        }
        self.effort.step_back(level);
        self.counted = self.counted.min(length);
        self.is_used = false;
        self.reduced_cost_fixing.forget();
    }

    /// Takes back the changes of multipliers until `mark` are left, and touches their rows, since below the next decision their
    /// best multipliers may be others again.
    fn take_back_to(&mut self, mark: usize)
        ensures { IsSameButShifted self.old self.new }
    {
        while self.take_back_above(mark) {}
    }

    /// Takes back the last change where there are more than `mark`, and touches its row. Answers whether it did.
    fn take_back_above(&mut self, mark: usize) -> bool
        ensures same { IsSameButShifted self.old self.new }
        ensures fewer { result ≡ true → length self.new.changes < length self.old.changes }
    {
        let Some(row) = self.multipliers.last_changed(mark) else {
            return false;
        };
        self.multipliers.take_back_last();
        self.schedule.touch_row(row);
        true
    }

    /// Follows the trail to its end.
    fn catch_up(&mut self, trail: &TrailView<'_, C>)
        requires { IsBeside trail.now.form trail.now.trail self.old }
        ensures form { self.new.form ≡ self.old.form }
        ensures trail { self.new.trail ≡ trail.now.trail }
    {
        while self.multipliers.len() < trail.len() {
            self.follow(trail);
        }
    }

    /// Follows the trail by one literal.
    fn follow_quietly(&mut self, trail: &TrailView<'_, C>)
        requires beside { IsBeside trail.now.form trail.now.trail self.old }
        requires more { length self.old.trail < length trail.now.trail }
        ensures form { self.new.form ≡ self.old.form }
        ensures trail { self.new.trail ≡ take (length self.old.trail + 1) trail.now.trail }
    {
        trail.tables().facts();
        let _length = trail.len();
        let lit = trail.literal(self.multipliers.len());
        self.multipliers.assign(lit);
    }

    /// Follows the trail by one literal, and touches the rows of its variable, since their best multipliers may be others now.
    fn follow(&mut self, trail: &TrailView<'_, C>)
        requires beside { IsBeside trail.now.form trail.now.trail self.old }
        requires more { length self.old.trail < length trail.now.trail }
        ensures form { self.new.form ≡ self.old.form }
        ensures trail { self.new.trail ≡ take (length self.old.trail + 1) trail.now.trail }
    {
        let (tables, _length) = (trail.tables(), trail.len());
        let lit = trail.literal(self.multipliers.len());
        self.follow_quietly(trail);
        self.schedule.touch(tables, lit);
    }
}

/// The difference in units of 1 in the origin's place in 64 bits, so that those of a wide form are about as great as those of
/// a form of 64 bits.
fn measure<C: Coefficient>(difference: Counter<C>) -> u64 {
    let unit = Counter::origin() / Counter::of(1 << 62);
    let units = difference / unit.max(Counter::of(1));
    units.number().min(u64::MAX as u128) as u64
}

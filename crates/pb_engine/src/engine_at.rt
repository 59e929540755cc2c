//! A trail with assumptions, what follows from them, and a lower bound on what its completions cost.

ghost use Rattle.std.specs.Prelude.{◌≡◌, ◌+◌, ◌<◌, ◌≤◌, [], ◌++◌, false, true, length, take, None, All, IfOk, IfSome, slice_index_or, ◌≤ℤ◌, pos, neg_ℤ, List};
ghost use Rattle.pb_inst.specs.declared.limits.TheConstants.{SUM_BOUND};
ghost use Rattle.pb_normal.specs.NormalForm.{PositiveRow};
ghost use Rattle.pb_rows.specs.declared.TheConstants.{MAX_CLAUSES};
ghost use Rattle.pb_rows.specs.Clauses.{AreClausesOf};
ghost use Rattle.pb_trail.specs.Trail.{value_on};
ghost use Rattle.pb_trail.specs.Completion.{HasNoCompletion, IsLowerBound};
ghost use Rattle.pb_trail.specs.EngineState.{trail_before};
ghost use Rattle.pb_trail.specs.Soundness.{IsSoundTrail};
ghost use Rattle.pb_trail.specs.Steps.{Assumes, Propagates};
ghost use Rattle.pb_row_bound.specs.DisjointRows.{disjoint_bound};
ghost use Rattle.pb_engine.specs.Fixing.{IsBelowCompletions, IsForcedWithin};

use pb_bits::Marks;
use pb_count::{Coefficient, Counter};
use pb_inst::{Cube, Lit, Memory, Number};
use pb_lagrange::{Fixed, Relaxation};
use pb_normal::Form;
use pb_row_bound::{Deficits, bound_with, payment};
use pb_rows::{Clauses, RowTerms, Rows, TablesSource};
use pb_trail::{Propagator, Step};
use std::alloc::Global;
use std::marker::Model;

/// Rows, a trail over their variables with some literals assumed, and whether a conflict stands. An engine counts in numbers of
/// type `C`, the width of its normal form.
pub struct EngineAt<C: Coefficient = u64> {
    propagator: Propagator<C>,
    deficits: Deficits<C>,
    marks: Marks,
    /// Multipliers for a second lower bound. There are none where the costs have no scale, or where there is no objective and all
    /// rows are clauses. The view leaves them out.
    relaxation: Option<Relaxation<C>>,
    /// The last bound of the trail or of its beginning, if one was computed since literals were last taken back.
    standing: Option<Number>,
}

impl<C: Coefficient> Drop for EngineAt<C> {
    fn drop(self) {
        let EngineAt {
            propagator: _,
            deficits: _,
            marks: _,
            relaxation: _,
            standing: _,
        } = self;
    }
}

impl<C: Coefficient> Model for EngineAt<C> {
    ghost use Rattle.std.specs.Prelude.{IfSome};
    ghost use Rattle.pb_trail.specs.EngineState.{EngineState};
    ghost use Rattle.pb_lagrange.specs.Relaxation.{IsBeside};
    ghost use Rattle.pb_row_bound.specs.Deficits.{HasCounters};
    ghost use Rattle.pb_engine.specs.Fixing.{IsBelowCompletions};

    ghost Value = { EngineState };

    ghost view = { λ e. e.propagator };

    ghost invariant = { λ e. (HasCounters C.limit e.propagator e.deficits e.marks) × IfSome e.relaxation (λ r. IsBeside e.propagator.form e.propagator.trail r) × IfSome e.standing (IsBelowCompletions e.propagator) };
}

impl<C: Coefficient> EngineAt<C> {
    /// The empty trail over the rows of the normal form and, for each cube in order, the clause that some literal of it is
    /// false; a cube that contradicts itself has none. There may be `MAX_CLAUSES` cubes. This builds tables of its own, where
    /// `over` shares those of others. Nothing after it takes memory.
    pub fn new(alloc: Global, form: &Form<C>, negated: &[Cube]) -> Result<EngineAt<C>, Memory>
        requires few { length negated.now ≤ MAX_CLAUSES }
        requires variables { All (λ cube. All (λ l. l.var ≤ form.now.vars) cube) negated.now }
        ensures form { IfOk result (λ e. (e.form ≡ form.now) × (e.vars ≡ form.now.vars)) }
        ensures rows { IfOk result (λ e. (clauses : List PositiveRow) × (e.rows ≡ form.now.rows ++ clauses) × AreClausesOf negated.now clauses) }
        ensures empty { IfOk result (λ e. (e.trail ≡ []) × (e.levels ≡ []) × (e.conflict ≡ false)) }
    {
        let source = TablesSource::new(alloc, form, negated)?;
        EngineAt::over(alloc, source)
    }

    /// The empty trail over rows and clauses whose tables are built already. Nothing after it takes memory.
    pub fn over(alloc: Global, tables: TablesSource<C>) -> Result<EngineAt<C>, Memory>
        ensures { IfOk result (λ e. e ≡ record { form = tables.form; vars = tables.vars; rows = tables.rows; trail = []; levels = []; conflict = false }) }
    {
        let relaxation = relaxation_over(alloc, tables.tables().form())?;
        let propagator = Propagator::new(alloc, tables)?;
        let deficits = Deficits::new(alloc, &propagator.trail())?;
        let marks = Marks::new(alloc, propagator.vars())?;
        Ok(EngineAt {
            propagator,
            deficits,
            marks,
            relaxation,
            standing: None,
        })
    }

    /// The value that the trail gives the variable, if any.
    pub fn value(&self, var: u32) -> Option<bool>
        ensures value { result ≡ value_on self.now.trail var }
        ensures sound { IsSoundTrail self.now }
    {
        self.propagator.value(var)
    }

    /// The number of variables.
    pub fn vars(&self) -> u32
        ensures { result ≡ self.now.vars }
    {
        self.propagator.vars()
    }

    /// The number of assumptions on the trail.
    pub fn level(&self) -> u32
        ensures count { result ≡ length self.now.levels }
        ensures sound { IsSoundTrail self.now }
    {
        self.propagator.level()
    }

    /// Whether a conflict came since the last `undo_to`.
    pub fn conflict(&self) -> bool
        ensures stands { result ≡ self.now.conflict }
        ensures no_completion { result ≡ true → HasNoCompletion self.now.rows self.now.trail }
        ensures sound { IsSoundTrail self.now }
    {
        self.propagator.conflict()
    }

    /// The number of literals on the trail.
    pub fn trail_len(&self) -> usize
        ensures { result ≡ length self.now.trail }
    {
        self.propagator.trail_len()
    }

    /// The literal at a place of the trail, from 0 on.
    pub fn literal(&self, place: usize) -> Lit
        requires { place < length self.now.trail }
        ensures value { result ≡ slice_index_or self.now.trail place result }
        ensures within { result.var ≤ self.now.vars }
    {
        self.propagator.literal(place)
    }

    /// The trail and the rows themselves, which also tell at which row a conflict was found, and which rows forced literals.
    pub fn propagator(&self) -> &Propagator<C>
        ensures { result.now ≡ self.now }
    {
        &self.propagator
    }

    /// Puts a literal without a value on the trail, as an assumption.
    pub fn assume(&mut self, lit: Lit) -> Step
        requires variable { lit.var ≤ self.old.vars }
        requires no_value { value_on self.old.trail lit.var ≡ None }
        requires no_conflict { self.old.conflict ≡ false }
        ensures { Assumes self.old lit self.new result }
    {
        self.begin_level();
        self.propagator.assume(lit)
    }

    /// Tells the multipliers that a level begins here.
    fn begin_level(&mut self)
        ensures { self.new ≡ self.old }
    {
        if let Some(relaxation) = &mut self.relaxation {
            relaxation.begin_level(self.propagator.trail_len());
        }
    }

    /// Tells that nothing is left to try in place of the last assumption: its negation was tried, or can lead to nothing better.
    /// While that holds of the first assumptions without a gap, their trail counts as the root's, beside which multipliers are
    /// improved for good. No more than a hint.
    pub fn settle_last(&mut self)
        ensures { self.new ≡ self.old }
    {
        if let Some(relaxation) = &mut self.relaxation {
            relaxation.settle_last();
        }
    }

    /// Adds literals that are forced until no more are found by single rows, or a row can't be met any more.
    pub fn propagate(&mut self) -> Step
        requires { self.old.conflict ≡ false }
        ensures { Propagates self.old self.new result }
    {
        self.propagator.propagate()
    }

    /// The base, what the trail pays, and the contributions of rows that share no variable without a value: at most the cost of
    /// every completion of the trail; from `-SUM_BOUND` to `SUM_BOUND`. It leaves the trail and the conflict as they are, and
    /// takes no memory.
    pub fn bound(&mut self) -> Number
        ensures value { result ≡ disjoint_bound self.old.form self.old.rows self.old.trail }
        ensures bound { IsLowerBound self.old.form self.old.rows self.old.trail result }
        ensures range { (neg_ℤ (pos SUM_BOUND) ≤ℤ result) × (result ≤ℤ pos SUM_BOUND) }
        ensures unchanged { self.new ≡ self.old }
    {
        let trail = self.propagator.trail();
        let payment = payment(&trail, &mut self.deficits, &mut self.marks);
        let bound = bound_with(&trail, payment);
        self.standing = Some(bound);
        bound
    }

    /// The last bound that was computed of the trail or of its beginning, unless literals were taken back since: no completion
    /// costs less, since each completes the beginning too. It looks at no row.
    pub fn standing_bound(&self) -> Option<Number>
        ensures { IfSome result (IsBelowCompletions self.now) }
    {
        self.standing
    }

    /// Takes back every assumption above the level, and what was added since.
    pub fn undo_to(&mut self, level: u32)
        requires { level ≤ length self.old.levels }
        ensures undone { self.new ≡ record self.old { trail = trail_before self.old level; levels = take level self.old.levels; conflict = false } }
        ensures sound { IsSoundTrail self.new }
    {
        self.standing = None;
        let start = self.propagator.start_of(level);
        self.deficits.take_back(&self.propagator.trail(), start);
        self.propagator.undo_to(level);
        if let Some(relaxation) = &mut self.relaxation {
            relaxation.undo_to(level as usize, start);
        }
    }

    /// The greater of a lower bound and that of the multipliers, if there are any. Where the latter is below the goal, the
    /// multipliers of the rows that the trail touched since the last time are improved first. It leaves the trail and the
    /// conflict as they are, and takes no memory.
    pub fn relaxed_bound(&mut self, bound: Number, goal: Number) -> Number
        requires { IsLowerBound self.old.form self.old.rows self.old.trail bound }
        ensures bound { IsLowerBound self.old.form self.old.rows self.old.trail result }
        ensures unchanged { self.new ≡ self.old }
    {
        let trail = self.propagator.trail();
        trail.tables().facts();
        let Some(relaxation) = &mut self.relaxation else {
            return bound;
        };
        let raised = relaxation.raise(&trail, bound, goal);
        self.standing = Some(raised);
        raised
    }

    /// The bound of the multipliers as they are, where there are any and they were used at the node that was judged last: at most
    /// the cost of every completion of the trail. It leaves the trail and the conflict as they are, and takes no memory.
    pub fn bound_at_hand(&mut self) -> Option<Number>
        ensures bound { IfSome result (IsBelowCompletions self.old) }
        ensures unchanged { self.new ≡ self.old }
    {
        let trail = self.propagator.trail();
        trail.tables().facts();
        let Some(relaxation) = &mut self.relaxation else {
            return None;
        };
        relaxation.bound_at_hand(&trail)
    }

    /// Improves the multipliers, if there are any, where no bound is asked for. Answers whether they tell that nothing completes
    /// the trail. It leaves the trail and the conflict as they are, and takes no memory.
    pub fn improve_multipliers(&mut self) -> bool
        ensures no_completion { result ≡ true → HasNoCompletion self.old.rows self.old.trail }
        ensures unchanged { self.new ≡ self.old }
    {
        let trail = self.propagator.trail();
        trail.tables().facts();
        let Some(relaxation) = &mut self.relaxation else {
            return false;
        };
        relaxation.improve_multipliers(&trail)
    }

    /// A literal without a value that every completion of the trail that costs no more than the limit makes true, by the
    /// multipliers, with their bound as it is; or none. It leaves the trail and the conflict as they are, and takes no memory.
    pub fn fixed_literal(&mut self, limit: Number) -> Option<Fixed>
        ensures fixed { IfSome result (λ f. IsForcedWithin self.old limit f.lit) }
        ensures bound { IfSome result (λ f. IsBelowCompletions self.old f.bound) }
        ensures unchanged { self.new ≡ self.old }
    {
        let trail = self.propagator.trail();
        trail.tables().facts();
        let Some(relaxation) = &mut self.relaxation else {
            return None;
        };
        relaxation.fixed_literal(&trail, limit)
    }

    /// A literal as `fixed_literal` gives it, by the multipliers as they are, where they were used at the node that was judged last:
    /// for a dive, whose trail is no node's. It leaves the trail and the conflict as they are, and takes no memory.
    pub fn fixed_at_hand(&mut self, limit: Number) -> Option<Lit>
        ensures fixed { IfSome result (IsForcedWithin self.old limit) }
        ensures unchanged { self.new ≡ self.old }
    {
        let trail = self.propagator.trail();
        trail.tables().facts();
        let Some(relaxation) = &mut self.relaxation else {
            return None;
        };
        relaxation.fixed_at_hand(&trail, limit)
    }

    /// Whether the last call of `fixed_literal` gave a literal and nothing was undone since: there may be more, and the
    /// multipliers need not be improved before. No more than a hint.
    pub fn is_fixing(&self) -> bool {
        match &self.relaxation {
            Some(relaxation) => relaxation.is_fixing(),
            None => false,
        }
    }

    /// By how much the bound of the multipliers at the node that was judged last may rise before it is over the limit, and at
    /// most 2^64 - 1; none where no multipliers were used there. A measure to compare nodes by, and no more than a hint.
    pub fn gap(&self, limit: Number) -> Option<u64> {
        match &self.relaxation {
            Some(relaxation) => relaxation.gap(limit),
            None => None,
        }
    }

    /// Plans in which order the variables without a value may be decided, where there are multipliers: by a point of least cost
    /// beside the trail, which `steps` steps approach from the last one. It leaves the trail and the conflict as they are, and
    /// takes no memory.
    pub fn plan(&mut self, steps: u32)
        ensures { self.new ≡ self.old }
    {
        let trail = self.propagator.trail();
        trail.tables().facts();
        if let Some(relaxation) = &mut self.relaxation {
            relaxation.plan(&trail, steps);
        }
    }

    /// The literal at the place, from 0 on, of the order that was planned last. None beyond its end, or without a plan.
    pub fn planned(&self, place: usize) -> Option<Lit> {
        match &self.relaxation {
            Some(relaxation) => relaxation.planned(place),
            None => None,
        }
    }

    /// A search begins: where it goes on for long enough, multipliers are improved by the first-order method again. No more than
    /// a hint.
    pub fn begin_search(&mut self)
        ensures { self.new ≡ self.old }
    {
        if let Some(relaxation) = &mut self.relaxation {
            relaxation.begin_search();
        }
    }

    /// A new question begins: what multipliers cost earlier ones, and did not save, counts no more. No more than a hint.
    pub fn begin_question(&mut self)
        ensures { self.new ≡ self.old }
    {
        if let Some(relaxation) = &mut self.relaxation {
            relaxation.begin_question();
        }
    }

    /// Asks that multipliers be improved by the first-order method once more. No more than a hint.
    pub fn renew(&mut self)
        ensures { self.new ≡ self.old }
    {
        if let Some(relaxation) = &mut self.relaxation {
            relaxation.renew();
        }
    }

    /// Whether there are multipliers and they have saved what they cost, in counted work. No more than a hint.
    pub fn multipliers_pay(&self) -> bool {
        match &self.relaxation {
            Some(relaxation) => relaxation.pays(),
            None => false,
        }
    }

    /// Of the literal and its negation the one that seems to cost less by the multipliers. The literal itself where there are
    /// none, and where the rows take off its negation many times what that costs, since the literal is soon refuted then.
    pub fn cheaper(&self, lit: Lit) -> Lit
        requires { lit.var ≤ self.now.vars }
        ensures { result.var ≡ lit.var }
    {
        let trail = self.propagator.trail();
        trail.tables().facts();
        match &self.relaxation {
            Some(relaxation) => relaxation.cheaper(lit, trail.tables().cost(lit.negate())),
            None => lit,
        }
    }

    /// As `cheaper`, by the multipliers where they were used at the node that was judged last.
    pub fn cheaper_at_hand(&self, lit: Lit) -> Lit
        requires { lit.var ≤ self.now.vars }
        ensures { result.var ≡ lit.var }
    {
        let trail = self.propagator.trail();
        trail.tables().facts();
        match &self.relaxation {
            Some(relaxation) => {
                relaxation.cheaper_at_hand(lit, trail.tables().cost(lit.negate()))
            }
            None => lit,
        }
    }
}

/// Multipliers for the rows of the form, where the costs have a scale. Without an objective there are none where all rows are
/// clauses: with each variable at a half, every clause of two literals or more is met, so no multipliers tell that nothing does.
fn relaxation_over<C: Coefficient>(
    alloc: Global,
    form: &Form<C>,
) -> Result<Option<Relaxation<C>>, Memory>
    ensures { IfOk result (λ relaxation. IfSome relaxation (λ r. (r.form ≡ form.now) × (r.trail ≡ []))) }
{
    if form.objective().is_empty() && has_clauses_alone(form) {
        return Ok(None);
    }
    Relaxation::new(alloc, form)
}

/// Whether one literal is enough for each row.
fn has_clauses_alone<C: Coefficient>(form: &Form<C>) -> bool {
    for row in 0..form.len() {
        if Counter::of(1).is_below(form.degree(row)) {
            return false;
        }
    }
    true
}

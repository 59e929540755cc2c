//! Multipliers for rows, with what they say of the completions of a trail.
//! Source: [G74], [DFJ54], [CJP83]

ghost use Rattle.std.specs.Prelude.{◌≡◌, ◌⊎◌, ℕ, ◌+◌, ◌-◌, ◌*◌, ◌^◌, ◌<◌, ◌≤◌, [], ◌∷◌, ◌++◌, false, true, Ok, None, IfOk, IfSome, IsTrue, Bool, List, length, take, drop, replicate, min, slice_index, slice_set, slice_index_or, pos, ◌≤ℤ◌, ltb};
ghost use Rattle.pb_inst.specs.declared.limits.TheConstants.{MAX_VARS};
ghost use Rattle.pb_trail.specs.Completion.{HasNoCompletion, IsCompletion};
ghost use Rattle.pb_trail.specs.Trail.{value_on, is_true, reached};
ghost use Rattle.pb_rows.specs.Constraints.{row_at};
ghost use Rattle.pb_normal.specs.NormalForm.{total_coefficient, MeetsRow};
ghost use Rattle.pb_dual.specs.ReducedCosts.{parts_on};
ghost use Rattle.pb_dual.specs.Multipliers.{undone, changed, shifted, bound_from, dual_bound, penalty, promised_above, is_over_all_costs, IsFixed, IsBelowCosts, IsBelowCostsWith, IsWithinShare, released, cut_to, IsSameButCounted};
ghost use Rattle.pb_dual.specs.Saturation.{left_of, capped, counted_row, IsWithinRow};

use crate::changes::Change;
use crate::reduced_costs::{initial_costs, part, reprice, revalue};
use crate::saturation::{Saturation, whole_rows};
use crate::signed::Signed;
use pb_count::{Coefficient, Counter};
use pb_inst::{Lit, MAX_VARS, Memory, Number};
use pb_normal::{Form, total_of};
use pb_rows::place_of;
use std::alloc::Global;
use std::marker::Model;

/// A multiplier for each row of a normal form, a trail over its variables, and a lower bound of what the completions of the
/// trail cost. All of them are numbers of the width of the form.
pub struct Multipliers<C: Coefficient = u64> {
    form: Form<C>,
    scale: Counter<C>,
    /// The sum of all costs.
    total: Counter<C>,
    /// The most that a row's multiplier times its degree may be.
    share: Counter<C>,
    multipliers: Vec<Counter<C>>,
    /// The sum of the degrees, each times its row's multiplier.
    degrees: Counter<C>,
    costs: Vec<Counter<C>>,
    /// What all variables together add at least.
    sum: u128,
    values: Vec<Option<bool>>,
    lits: Vec<Lit>,
    changes: Vec<Change<C>>,
    /// How each row is counted.
    saturations: Vec<Saturation<C>>,
    /// How many literals, from the trail's first on, the counting of the rows stands on.
    root: usize,
}

impl<C: Coefficient> Drop for Multipliers<C> {
    fn drop(self) {
        let Multipliers {
            form: _,
            scale: _,
            total: _,
            share: _,
            multipliers: _,
            degrees: _,
            costs: _,
            sum: _,
            values: _,
            lits: _,
            changes: _,
            saturations: _,
            root: _,
        } = self;
    }
}

impl<C: Coefficient> Model for Multipliers<C> {
    ghost use Rattle.std.specs.Vec.{vec_capacity};
    ghost use Rattle.pb_dual.specs.Multipliers.{MultipliersState, AreKept};
    ghost use Rattle.pb_dual.specs.Saturation.{counted_form, AreSaturations};

    ghost Value = { MultipliersState };

    ghost view = { λ m. record { form = m.form; counted = counted_form m.saturations.items m.form; origin = C.origin; scale = m.scale; share = m.share; multipliers = m.multipliers.items; trail = m.lits.items; root = m.root; changes = m.changes.items; room = vec_capacity m.changes } };

    ghost invariant = { λ m. AreKept (counted_form m.saturations.items m.form) m.form m.multipliers.items m.lits.items m.changes.items C.origin m.scale m.total m.share m.costs.items m.values.items m.degrees m.sum (vec_capacity m.lits) × AreSaturations m.form m.saturations.items m.root m.lits.items };
}

impl<C: Coefficient> Multipliers<C> {
    /// A multiplier of 0 for each row, the empty trail, and room for `room` changes. No later call takes memory. Costs are
    /// scaled up, so that multipliers can be fractions of a cost. None where the sum of all costs leaves no room for a scale in
    /// the width of the form, or where there are more variables than an instance may have.
    pub fn new(alloc: Global, form: &Form<C>, room: usize) -> Result<Option<Multipliers<C>>, Memory>
        ensures form { IfOk result (λ made. IfSome made (λ m. m.form ≡ form.now)) }
        ensures multipliers { IfOk result (λ made. IfSome made (λ m. m.multipliers ≡ replicate (length form.now.rows) 0)) }
        ensures empty { IfOk result (λ made. IfSome made (λ m. (m.trail ≡ []) × (m.changes ≡ []) × (m.root ≡ 0) × (m.counted ≡ m.form))) }
        ensures room { IfOk result (λ made. IfSome made (λ m. room ≤ m.room)) }
        ensures scale { IfOk result (λ made. IfSome made (λ m. 1 ≤ m.scale)) }
        ensures none { result ≡ Ok None → (MAX_VARS < form.now.vars) ⊎ (2 * C.origin ≤ total_coefficient form.now.objective) }
    {
        let vars = form.vars();
        let total = total_of(form.objective());
        if vars > MAX_VARS || !has_scale(total) {
            return Ok(None);
        }
        let form = form.share()?;
        let made = Multipliers::scaled(alloc, form, total, room)?;
        Ok(Some(made))
    }

    /// Makes the multipliers of a form whose costs have this sum, where there is a scale for it.
    fn scaled(
        alloc: Global,
        form: Form<C>,
        total: Counter<C>,
        room: usize,
    ) -> Result<Multipliers<C>, Memory>
        requires total { total ≡ total_coefficient form.objective }
        requires fits { total < 2 * C.origin }
        requires few { form.vars ≤ MAX_VARS }
        ensures form { IfOk result (λ m. m.form ≡ form) }
        ensures multipliers { IfOk result (λ m. m.multipliers ≡ replicate (length form.rows) 0) }
        ensures empty { IfOk result (λ m. (m.trail ≡ []) × (m.changes ≡ []) × (m.root ≡ 0) × (m.counted ≡ m.form)) }
        ensures room { IfOk result (λ m. room ≤ m.room) }
        ensures scale { IfOk result (λ m. 1 ≤ m.scale) }
    {
        let vars = form.vars() as usize;
        let scale = scale_for(total);
        let costs = initial_costs(alloc, &form, scale)?;
        let values = vec![in alloc; None; vars]?;
        let lits = Vec::with_capacity(alloc, vars)?;
        let multipliers = vec![in alloc; Counter::of(0); form.len()]?;
        let changes = Vec::with_capacity(alloc, room)?;
        let saturations = whole_rows(alloc, &form)?;
        let share = share_of(form.len());
        Ok(Multipliers {
            form,
            scale,
            total,
            share,
            multipliers,
            degrees: Counter::of(0),
            sum: Counter::<C>::origin().number() * vars as u128,
            costs,
            values,
            lits,
            changes,
            saturations,
            root: 0,
        })
    }

    /// The normal form.
    pub fn form(&self) -> &Form<C>
        ensures { result.now ≡ self.now.form }
    {
        &self.form
    }

    /// By how much costs are scaled up.
    pub fn scale(&self) -> Counter<C> {
        self.scale
    }

    /// Whether the trail makes the literal true, if it gives its variable a value.
    pub fn value(&self, lit: Lit) -> Option<bool>
        requires { lit.var ≤ self.now.form.vars }
        ensures { result ≡ None → value_on self.now.trail lit.var ≡ None }
    {
        let value = self.values[lit.var() as usize - 1]?;
        Some(value == lit.positive())
    }

    /// Whether the trail makes the literal true.
    fn is_true(&self, lit: Lit) -> bool
        requires { (1 ≤ lit.var) × (lit.var ≤ self.now.form.vars) }
        ensures { result ≡ is_true self.now.trail lit }
    {
        match self.values[lit.var() as usize - 1] {
            Some(value) => value == lit.positive(),
            None => false,
        }
    }

    /// Whether the literal is of a variable of the form that has no value.
    pub fn is_free(&self, lit: Lit) -> bool
        ensures { IsTrue result → (lit.var ≤ self.now.form.vars) × (value_on self.now.trail lit.var ≡ None) }
    {
        if lit.var() > self.form.vars() {
            return false;
        }
        self.value(lit).is_none()
    }

    /// The reduced costs of the literal and of its negation.
    pub fn costs(&self, lit: Lit) -> (Counter<C>, Counter<C>)
        requires { lit.var ≤ self.now.form.vars }
    {
        (
            self.costs[place_of(lit)],
            self.costs[place_of(lit.negate())],
        )
    }

    /// By how much the reduced cost of the literal is over that of its negation.
    pub fn difference(&self, lit: Lit) -> Signed<C>
        requires { lit.var ≤ self.now.form.vars }
    {
        let (cost, other) = self.costs(lit);
        Signed::difference(cost, other)
    }

    /// The number of literals on the trail.
    pub fn len(&self) -> usize
        ensures { result ≡ length self.now.trail }
    {
        self.lits.len()
    }

    /// The multiplier of the row, times the scale.
    pub fn multiplier(&self, row: usize) -> Counter<C>
        requires { row < length self.now.form.rows }
        ensures { result ≡ slice_index self.now.multipliers row }
    {
        self.multipliers[row]
    }

    /// At most the cost of every completion of the trail.
    pub fn bound(&self) -> Number
        ensures value { result ≡ dual_bound self.now }
        ensures bound { IsBelowCosts self.now.form self.now.trail result }
    {
        self.form.facts();
        self.bound_at(self.sum)
    }

    /// At most the cost of every completion of the trail that makes the literal true.
    pub fn bound_with(&self, lit: Lit) -> Number
        requires variable { lit.var ≤ self.now.form.vars }
        requires no_value { value_on self.now.trail lit.var ≡ None }
        ensures value { result ≡ bound_from self.now (parts_on self.now.origin self.now.scale self.now.counted self.now.multipliers self.now.trail + penalty self.now lit) }
        ensures bound { IsBelowCostsWith self.now.form self.now.trail lit result }
    {
        self.form.facts();
        let _var = lit.var();
        self.bound_at(self.sum + self.penalty(lit).number())
    }

    /// By how much the bound rises, times the scale, once the literal is on the trail.
    pub fn penalty(&self, lit: Lit) -> Counter<C>
        requires variable { lit.var ≤ self.now.form.vars }
        ensures { result ≡ penalty self.now lit }
    {
        let least = part(&self.costs, &self.values, lit);
        self.costs[place_of(lit)].above(least)
    }

    /// Whether more than all costs together is promised. Then nothing completes the trail, since no assignment costs more.
    pub fn refutes(&self) -> bool
        ensures value { result ≡ is_over_all_costs self.now }
        ensures no_completion { result ≡ true → HasNoCompletion self.now.form.rows self.now.trail }
    {
        self.form.facts();
        let most = self.scale * self.total;
        most.number() < self.above()
    }

    /// A literal without a value that every completion of the trail that costs no more than the limit makes true, or none. It
    /// is looked for among the variables after the first `from`, and among `FIXING_WINDOW` of them alone.
    pub fn fixed_literal(&self, from: u32, limit: Number) -> Option<Lit>
        ensures { IfSome result (IsFixed self.now.form self.now.trail limit) }
    {
        // The reduced costs only propose a literal: it is believed where the bound with its other value is over the limit.
        let lit = self.proposed_literal(from, limit)?;
        if !self.is_free(lit) {
            return None;
        }
        if self.bound_with(lit.negate()) <= limit {
            return None;
        }
        Some(lit)
    }

    /// A literal without a value whose negation seems to cost too much.
    fn proposed_literal(&self, from: u32, limit: Number) -> Option<Lit> {
        let gap = self.gap(limit);
        let end = from.saturating_add(FIXING_WINDOW).min(self.form.vars());
        for place in from as usize..end as usize {
            // The two costs of a variable stand side by side.
            let (negation, literal) = (self.costs[2 * place], self.costs[2 * place + 1]);
            if gap.is_below(apart(literal, negation)) && self.values[place].is_none() {
                return Lit::new(place as u32 + 1, literal.is_below(negation)).ok();
            }
        }
        None
    }

    /// By how much, times the scale, the bound may rise before it is over the limit. No more than a hint.
    pub fn gap(&self, limit: Number) -> Counter<C> {
        let room = limit.saturating_sub(self.form.base()).max(0).unsigned_abs();
        let most = room.saturating_mul(self.scale.number());
        Counter::nearest(most.saturating_sub(self.above()))
    }

    /// How far the bound is over the base, times the scale. No more than a hint.
    pub fn height(&self) -> Counter<C> {
        Counter::nearest(self.above())
    }

    /// What is promised over the base, times the scale, however great.
    fn above(&self) -> u128
        ensures { result ≡ promised_above self.now }
    {
        self.form.facts();
        self.sum
            .saturating_add(self.degrees.number())
            .saturating_sub(self.floor())
    }

    /// What all variables together add where none has a cost.
    fn floor(&self) -> u128
        ensures { result ≡ self.now.form.vars * self.now.origin }
    {
        self.values.len() as u128 * Counter::<C>::origin().number()
    }

    /// The bound where all variables together add `sum` at least.
    fn bound_at(&self, sum: u128) -> Number
        requires { sum < 2 ^ 127 }
        ensures { result ≡ bound_from self.now sum }
    {
        let above = (sum + self.degrees.number()).saturating_sub(self.floor());
        // Cut to all costs, so that it fits: more than these is promised only where the trail has no completion.
        let most = self.scale * self.total;
        let scaled = Counter::<C>::fitting(above.min(most.number()));
        self.form.base() + scaled.div_ceil(self.scale).number() as Number
    }

    /// Puts a literal without a value on the trail.
    pub fn assign(&mut self, lit: Lit)
        requires variable { lit.var ≤ self.old.form.vars }
        requires no_value { value_on self.old.trail lit.var ≡ None }
        ensures { self.new ≡ record self.old { trail = self.old.trail ++ lit ∷ [] } }
    {
        revalue(
            &self.costs,
            &mut self.sum,
            &mut self.values,
            lit,
            Some(lit.positive()),
        );
        self.lits.push_reserved(lit);
    }

    /// Takes literals off the trail until `length` are left. Once fewer are left than those by which rows were saturated, the
    /// rows count as they are again.
    pub fn unassign_to(&mut self, length: usize)
        ensures value { self.new ≡ cut_to length self.old }
        ensures form { self.new.form ≡ self.old.form }
        ensures trail { self.new.trail ≡ take length self.old.trail }
    {
        if length < self.root {
            self.release();
        }
        self.unassign_down_to(length);
    }

    /// Takes literals off the trail until `length` are left, where the counting of the rows stands on none of those taken off.
    fn unassign_down_to(&mut self, length: usize)
        requires { self.old.root ≤ length }
        ensures { self.new ≡ record self.old { trail = take length self.old.trail } }
    {
        while self.len() > length {
            self.unassign_last();
        }
    }

    /// Takes the last literal off the trail.
    fn unassign_last(&mut self)
        requires { self.old.root < length self.old.trail }
        ensures { self.new ≡ record self.old { trail = take (length self.old.trail - 1) self.old.trail } }
    {
        if let Some(lit) = self.lits.pop() {
            revalue(&self.costs, &mut self.sum, &mut self.values, lit, None);
        }
    }

    /// Whether there is room for a change of a multiplier.
    pub fn has_room(&self) -> bool
        ensures { result ≡ ltb (length self.now.changes) self.now.room }
    {
        self.changes.len() < self.changes.capacity()
    }

    /// Shifts the multiplier of the row by the amount: not below 0, and not above what keeps all sums in their range.
    pub fn shift(&mut self, row: usize, amount: Signed<C>)
        requires row { row < length self.old.form.rows }
        requires room { length self.old.changes < self.old.room }
        ensures { self.new ≡ changed self.old row (shifted self.old row amount) }
    {
        let before = self.multipliers[row];
        let after = self.shifted(row, amount);
        self.changes.push_reserved(Change { row, before });
        self.set(row, after);
    }

    /// The row's multiplier shifted by the amount.
    fn shifted(&self, row: usize, amount: Signed<C>) -> Counter<C>
        requires row { row < length self.now.form.rows }
        ensures value { result ≡ shifted self.now row amount }
        ensures within { IsWithinShare self.now.form self.now.share row result }
    {
        self.form.facts();
        let before = self.multipliers[row];
        let by = amount.magnitude();
        if amount.is_negative() {
            return before.above(by);
        }
        before
            .saturating_add(by)
            .min(self.share / self.whole_degree(row))
    }

    /// The degree of the row as it is.
    fn whole_degree(&self, row: usize) -> Counter<C>
        requires { row < length self.now.form.rows }
        ensures { result ≡ (row_at self.now.form.rows row).degree }
    {
        self.form.facts();
        self.form.degree(row)
    }

    /// The degree of the row as it is counted.
    pub fn degree(&self, row: usize) -> Counter<C>
        requires { row < length self.now.form.rows }
        ensures { result ≡ (row_at self.now.counted.rows row).degree }
    {
        self.saturations[row].degree
    }

    /// The most that a coefficient of the row counts.
    pub fn most(&self, row: usize) -> Counter<C>
        requires { row < length self.now.form.rows }
        ensures { (row_at self.now.counted.rows row).terms ≡ capped result (row_at self.now.form.rows row).terms }
    {
        self.saturations[row].most
    }

    /// Caps each coefficient at what is left of its row's degree under the trail as it is. That lasts until a literal of this
    /// trail is taken off.
    pub fn saturate(&mut self)
        ensures same { IsSameButCounted self.old self.new }
        ensures root { self.new.root ≡ length self.old.trail }
    {
        self.root = self.lits.len();
        for row in 0..self.form.len() {
            self.saturate_row(row);
        }
    }

    /// Caps the coefficients of one row, where the counting stands on the whole trail. A row that the trail meets stays as it is.
    fn saturate_row(&mut self, row: usize)
        requires row { row < length self.old.form.rows }
        requires root { self.old.root ≡ length self.old.trail }
        ensures same { IsSameButCounted self.old self.new }
        ensures root { self.new.root ≡ self.old.root }
    {
        let most = self.left_of(row);
        if most.is_zero() || !most.is_below(self.saturations[row].most) {
            return;
        }
        let degree = self.degree_beside(row, most);
        self.count(row, Saturation { most, degree });
    }

    /// What is left of the row's degree under the trail.
    fn left_of(&self, row: usize) -> Counter<C>
        requires { row < length self.now.form.rows }
        ensures { result ≡ left_of self.now.trail (row_at self.now.form.rows row) }
    {
        self.form.facts();
        let mut left = self.form.degree(row);
        for term in self.form.terms(row) {
            if self.is_true(term.lit()) {
                left = left.above(term.coef());
            }
        }
        left
    }

    /// `most`, plus what the row's literals on the trail count where no coefficient counts more than it.
    fn degree_beside(&self, row: usize, most: Counter<C>) -> Counter<C>
        requires row { row < length self.now.form.rows }
        requires fits { most + reached self.now.trail (row_at self.now.form.rows row).terms ≤ (row_at self.now.form.rows row).degree }
        ensures { result ≡ most + reached self.now.trail (capped most (row_at self.now.form.rows row).terms) }
    {
        self.form.facts();
        let mut degree = most;
        for term in self.form.terms(row) {
            if self.is_true(term.lit()) {
                degree = degree + term.coef().min(most);
            }
        }
        degree
    }

    /// Counts all rows as they are.
    fn release(&mut self)
        ensures { self.new ≡ released self.old }
    {
        for row in 0..self.form.len() {
            self.release_row(row);
        }
        self.root = 0;
    }

    /// Counts the row as it is.
    fn release_row(&mut self, row: usize)
        requires { row < length self.old.form.rows }
        ensures { self.new ≡ record self.old { counted = record self.old.counted { rows = slice_set self.old.counted.rows row (row_at self.old.form.rows row) } } }
    {
        self.form.facts();
        let degree = self.whole_degree(row);
        if self.saturations[row].most.is_below(degree) {
            self.count(
                row,
                Saturation {
                    most: degree,
                    degree,
                },
            );
        }
    }

    /// Counts the row in this way. Its multiplier stays.
    fn count(&mut self, row: usize, saturation: Saturation<C>)
        requires row { row < length self.old.form.rows }
        requires within { IsWithinRow (row_at self.old.form.rows row) saturation }
        requires met { (a : List Bool) → IsCompletion self.old.form.rows (take self.old.root self.old.trail) a → MeetsRow a (counted_row saturation (row_at self.old.form.rows row)) }
        ensures { self.new ≡ record self.old { counted = record self.old.counted { rows = slice_set self.old.counted.rows row (counted_row saturation (row_at self.old.form.rows row)) } } }
    {
        let multiplier = self.multipliers[row];
        // At a multiplier of 0 the row is in no sum, so that the way it is counted may change.
        self.set(row, Counter::of(0));
        self.saturations[row] = saturation;
        self.set(row, multiplier);
    }

    /// How many changes can be taken back.
    pub fn changes(&self) -> usize
        ensures { result ≡ length self.now.changes }
    {
        self.changes.len()
    }

    /// Takes back changes, the last one first, until `count` are left. The multipliers are then what they were when there
    /// were `count`.
    pub fn take_back_to(&mut self, count: usize)
        requires { count ≤ length self.old.changes }
        ensures { self.new ≡ record self.old { multipliers = undone (drop count self.old.changes) self.old.multipliers; changes = take count self.old.changes } }
    {
        while self.changes.len() > count {
            self.take_back_last();
        }
    }

    /// The row of the last change, where there are more than `count`.
    pub fn last_changed(&self, count: usize) -> Option<usize>
        ensures { IfSome result (λ _. count < length self.now.changes) }
    {
        if self.changes.len() <= count {
            return None;
        }
        let change = self.changes.last()?;
        Some(change.row)
    }

    /// Takes back the last change.
    pub fn take_back_last(&mut self)
        ensures { self.new ≡ record self.old { multipliers = undone (drop (length self.old.changes - 1) self.old.changes) self.old.multipliers; changes = take (length self.old.changes - 1) self.old.changes } }
    {
        if let Some(change) = self.changes.pop() {
            self.set(change.row, change.before);
        }
    }

    /// Keeps the multipliers as they are: no change made so far can be taken back.
    pub fn keep(&mut self)
        ensures { self.new ≡ record self.old { changes = [] } }
    {
        self.changes.clear();
    }

    /// Gives the row another multiplier.
    fn set(&mut self, row: usize, to: Counter<C>)
        requires row { row < length self.old.form.rows }
        requires within { IsWithinShare self.old.form self.old.share row to }
        ensures { self.new ≡ record self.old { multipliers = slice_set self.old.multipliers row to } }
    {
        self.form.facts();
        let from = self.multipliers[row];
        let (degree, most) = (self.degree(row), self.most(row));
        reprice(
            &mut self.costs,
            &mut self.sum,
            &self.values,
            self.form.terms(row),
            most,
            from,
            to,
        );
        self.degrees = self.degrees - from * degree + to * degree;
        self.multipliers[row] = to;
    }
}

/// How many variables are looked at for one fixed literal, so that the cost of a node does not grow with the instance.
pub const FIXING_WINDOW: u32 = 512;

/// All costs together are scaled up to at most the origin divided by this, where that is more than their sum. So multipliers
/// may promise some thousand times all costs.
const SCALED_PART: u64 = 1_024;

/// The origin divided by this is the greatest scale: 65,536 where the origin is 2^62.
const SCALE_PART: u64 = 70_368_744_177_664;

/// How far apart the two are.
#[inline]
fn apart<C: Coefficient>(first: Counter<C>, second: Counter<C>) -> Counter<C> {
    if first.is_below(second) {
        second - first
    } else {
        first - second
    }
}

/// Whether costs of this sum can be left as they are, or scaled up.
fn has_scale<C: Coefficient>(total: Counter<C>) -> bool
    requires { total < C.limit }
    ensures fits { result ≡ true → total < 2 * C.origin }
    ensures over { result ≡ false → 2 * C.origin ≤ total }
{
    total.is_below(Counter::origin() + Counter::origin())
}

/// By how much costs of this sum are scaled up.
fn scale_for<C: Coefficient>(total: Counter<C>) -> Counter<C>
    requires { total < 2 * C.origin }
    ensures from_one { 1 ≤ result }
    ensures fits { result * total < 2 * C.origin }
{
    let one = Counter::of(1);
    let scaled = Counter::origin() / Counter::of(SCALED_PART);
    let greatest = Counter::origin() / Counter::of(SCALE_PART);
    (scaled / total.max(one)).min(greatest).max(one)
}

/// The most that each row's multiplier times its degree may be in a form of `rows` rows: an equal part of the origin.
fn share_of<C: Coefficient>(rows: usize) -> Counter<C>
    ensures { result * rows ≤ C.origin }
{
    if rows == 0 {
        return Counter::of(0);
    }
    Counter::origin() / Counter::of(rows as u64)
}

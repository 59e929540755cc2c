//! The normal form of an instance.
//! Source: [ES06]

ghost use Rattle.std.specs.Prelude.{◌≡◌, true, false, Err, ℕ, ◌+◌, ◌*◌, ◌<◌, ◌≤◌, List, [], ◌∷◌, All, length, map, slice_get, sum_by, unsigned_abs, IfOk, OnOk, IsSomeAnd, pos, ◌+ℤ◌, ◌≤ℤ◌, neg_ℤ};
ghost use Rattle.pb_inst.specs.declared.limits.TheConstants.{SUM_BOUND};
ghost use Rattle.pb_inst.specs.declared.constraints.Term.{Term};
ghost use Rattle.pb_inst.specs.Constraints.{linear};
ghost use Rattle.pb_inst.specs.Limits.{constraint_magnitude, total_magnitude, AllVariablesWithin};
ghost use Rattle.pb_normal.specs.declared.TheConstants.{MAX_ROW_TERMS};
ghost use Rattle.pb_normal.specs.Exact.{negated, inequalities, objective_terms, IsNormalFormOf};
ghost use Rattle.pb_normal.specs.Layout.{row_terms};
ghost use Rattle.pb_normal.specs.NormalForm.{total_coefficient, KeepsFeasible, KeepsCost, IsNormal};
ghost use Rattle.pb_normal.specs.Fits.{HasSumsBelow, Fits, IsNormalWithin};
ghost use Rattle.pb_normal.specs.Merging.{clipped_row, AddsRows, IsSumOf, HasValueOf};
ghost use Rattle.pb_normal.specs.declared.unbuilt.Unbuilt.TheVariants.{TooWide};

use crate::merging::{PositiveSum, clipped_total, total};
use crate::rows::RowList;
use crate::terms::{FormTerm, PositiveTerm};
use crate::unbuilt::Unbuilt;
use pb_count::{Coefficient, Counter};
use pb_inst::{Constraint, Instance, Magnitude, Memory, Number, Relation};
use std::alloc::{AllocError, Global};
use std::marker::Model;
use std::sync::Arc;

/// Rows of positive terms, and the cost as a base and positive terms. The terms of a row add up to at least its degree,
/// and the terms of the objective are what the cost is above its base. The degree of each row, the coefficients of a row
/// together and those of the objective are below the limit of the numbers in which engines over the form count. Contracts
/// see a `NormalForm`.
///
/// What is built over a form has a share of it, so it may outlive this owner.
pub struct Form<C: Coefficient = u64> {
    parts: Arc<Parts<C>, Global>,
}

/// What the owners of a form share.
#[derive(Drop)]
struct Parts<C: Coefficient> {
    vars: u32,
    rows: RowList<C>,
    base: Number,
    objective: Vec<FormTerm<C>>,
}

impl<C: Coefficient> Model for Form<C> {
    ghost use Rattle.pb_normal.specs.NormalForm.{NormalForm};
    ghost use Rattle.pb_normal.specs.Fits.{IsNormalWithin};

    ghost Value = { NormalForm };

    ghost use Rattle.std.specs.Arc.{arc_value};

    ghost view = { λ f. record { vars = (arc_value f.parts).vars; rows = (arc_value f.parts).rows; base = (arc_value f.parts).base; objective = (arc_value f.parts).objective.items } };

    ghost invariant = { λ f. IsNormalWithin C.limit (record { vars = (arc_value f.parts).vars; rows = (arc_value f.parts).rows; base = (arc_value f.parts).base; objective = (arc_value f.parts).objective.items }) };
}

impl<C: Coefficient> Drop for Form<C> {
    fn drop(self) {
        let Form { parts: _ } = self;
    }
}

impl<C: Coefficient> Form<C> {
    /// One more owner of the form. Takes no memory, and fails only where there are 2^63 of them.
    pub fn share(&self) -> Result<Form<C>, Memory>
        ensures { IfOk result (λ form. form ≡ self.now) }
    {
        let parts = Arc::try_clone(&self.parts)?;
        Ok(Form { parts })
    }

    /// The number of variables: they are 1 to `vars`, as in the instance.
    pub fn vars(&self) -> u32
        ensures value { result ≡ self.now.vars }
        ensures normal { IsNormal self.now }
        ensures fits { Fits C.limit self.now }
    {
        self.parts.vars
    }

    /// What holds of every form. It does nothing at run time.
    #[inline(always)]
    pub fn facts(&self)
        ensures normal { IsNormal self.now }
        ensures fits { Fits C.limit self.now }
    {
        let _parts = &self.parts;
    }

    /// The number of rows, at most two for each constraint, so at most `2 * MAX_CONSTRAINTS`.
    pub fn len(&self) -> usize
        ensures value { result ≡ length self.now.rows }
        ensures normal { IsNormal self.now }
    {
        self.parts.rows.len()
    }

    /// The number of terms of all rows.
    pub fn terms_len(&self) -> usize
        ensures { result ≡ row_terms self.now.rows }
    {
        self.parts.rows.terms_len()
    }

    /// The terms of row i, from 0, by rising variable: coefficients of 1 up to the degree. There may be none.
    pub fn terms(&self, i: usize) -> &[FormTerm<C>]
        requires { i < length self.now.rows }
        ensures { IsSomeAnd (slice_get self.now.rows i) (λ row. row.terms ≡ result.now) }
    {
        self.parts.rows.terms(i)
    }

    /// What the terms of row i, from 0, must add up to: at least 1, and at most `SUM_BOUND`.
    pub fn degree(&self, i: usize) -> Counter<C>
        requires { i < length self.now.rows }
        ensures { IsSomeAnd (slice_get self.now.rows i) (λ row. row.degree ≡ result) }
    {
        self.parts.rows.degree(i)
    }

    /// The cost where no literal of the objective is true. Without regard to the constraints it is the least cost.
    pub fn base(&self) -> Number
        ensures value { result ≡ self.now.base }
        ensures normal { IsNormal self.now }
    {
        self.parts.base
    }

    /// The terms that the cost adds to the base, by rising variable. The base and all of them are at most `SUM_BOUND`.
    pub fn objective(&self) -> &[FormTerm<C>]
        ensures value { result.now ≡ self.now.objective }
        ensures normal { IsNormal self.now }
    {
        &self.parts.objective
    }
}

/// The normal form of the instance for engines that count in these numbers. `TooWide` says that a sum is not below their
/// limit, which never comes where the limit is above `SUM_BOUND`; `Memory` says that a growth of memory was refused.
pub fn form_of<C: Coefficient>(alloc: Global, instance: &Instance) -> Result<Form<C>, Unbuilt>
    ensures exact { IfOk result (λ form. IsNormalFormOf instance.now form) }
    ensures variables { IfOk result (λ form. form.vars ≡ instance.now.vars) }
    ensures feasible { IfOk result (λ form. KeepsFeasible instance.now form) }
    ensures cost { IfOk result (λ form. KeepsCost instance.now form) }
    ensures normal { IfOk result (λ form. IsNormal form) }
    ensures too_wide { result ≡ Err TooWide → C.limit ≤ SUM_BOUND }
{
    let mut sum = PositiveSum::new(alloc);
    let mut rows = RowList::new(alloc);
    for i in 0..instance.len() {
        add_constraint(&mut rows, &mut sum, &instance.constraint(i))?;
    }
    merge_objective(&mut sum, instance)?;
    let objective = objective_of(alloc, &sum.terms)?;
    rows.facts();
    let parts = Parts {
        vars: instance.vars(),
        rows,
        base: sum.base,
        objective,
    };
    Ok(shared(alloc, parts)?)
}

/// The form of these parts, in memory that its owners share.
fn shared<C: Coefficient>(alloc: Global, parts: Parts<C>) -> Result<Form<C>, Memory>
    requires { IsNormalWithin C.limit (record { vars = parts.vars; rows = parts.rows; base = parts.base; objective = parts.objective.items }) }
    ensures { IfOk result (λ form. form ≡ record { vars = parts.vars; rows = parts.rows; base = parts.base; objective = parts.objective.items }) }
{
    match Arc::new(alloc, parts) {
        Ok(parts) => Ok(Form { parts }),
        Err(_) => Err(AllocError),
    }
}

/// The terms of an objective, where their sum is below the limit.
fn objective_of<C: Coefficient>(
    alloc: Global,
    terms: &[PositiveTerm],
) -> Result<Vec<FormTerm<C>>, Unbuilt>
    requires coefficients { total_coefficient terms.now ≤ SUM_BOUND }
    ensures terms { IfOk result (λ objective. objective.items ≡ terms.now) }
    ensures fits { IfOk result (λ objective. total_coefficient objective.items < C.limit) }
    ensures too_wide { result ≡ Err TooWide → C.limit ≤ SUM_BOUND }
{
    if !C::fits(total(terms)) {
        return Err(Unbuilt::TooWide);
    }
    Ok(fitted(alloc, terms)?)
}

/// The terms at the width of a form.
fn fitted<C: Coefficient>(alloc: Global, terms: &[PositiveTerm]) -> Result<Vec<FormTerm<C>>, Memory>
    requires fits { total_coefficient terms.now < C.limit }
    ensures { IfOk result (λ fitted. fitted.items ≡ terms.now) }
{
    let mut fitted = Vec::with_capacity(alloc, terms.len())?;
    for term in terms {
        let coef = Counter::fitting(term.coef);
        fitted.push(FormTerm::new(coef, term.lit))?;
    }
    Ok(fitted)
}

/// The sum becomes the objective's.
fn merge_objective(sum: &mut PositiveSum, instance: &Instance) -> Result<(), Memory>
    ensures value { OnOk result (HasValueOf (objective_terms instance.now) sum.new.base sum.new.terms.items) }
    ensures bounded { OnOk result (total_magnitude (objective_terms instance.now) ≤ SUM_BOUND) }
    ensures sum { OnOk result (IsSumOf instance.now.vars (objective_terms instance.now) sum.new.base sum.new.terms.items) }
{
    match instance.objective() {
        Some(terms) => sum.merge(&terms),
        None => {
            sum.clear();
            Ok(())
        }
    }
}

/// Adds the rows of the constraint, by way of the sum. An equality gives the row of `>=` before that of `<=`.
fn add_constraint<C: Coefficient>(
    rows: &mut RowList<C>,
    sum: &mut PositiveSum,
    constraint: &Constraint<'_>,
) -> Result<(), Unbuilt>
    requires bounded { constraint_magnitude (linear constraint.now) ≤ SUM_BOUND }
    requires room { row_terms rows.old + 2 * length constraint.now.terms ≤ MAX_ROW_TERMS }
    ensures rows { OnOk result ((n : ℕ) → AllVariablesWithin n constraint.now.terms → AddsRows n (inequalities (linear constraint.now)) rows.old rows.new) }
    ensures room { OnOk result (row_terms rows.new ≤ row_terms rows.old + 2 * length constraint.now.terms) }
    ensures too_wide { result ≡ Err TooWide → C.limit ≤ SUM_BOUND }
{
    sum.merge(&constraint.terms)?;
    let bound = constraint.bound;
    match constraint.relation {
        Relation::AtLeast => add_at_least(rows, sum, bound),
        Relation::AtMost => add_at_most(rows, sum, bound),
        Relation::Equal => {
            add_at_least(rows, sum, bound)?;
            add_at_most(rows, sum, bound)
        }
    }
}

/// Adds the row that says that the sum is at least the bound, unless it always is.
fn add_at_least<C: Coefficient>(
    rows: &mut RowList<C>,
    sum: &PositiveSum,
    bound: Number,
) -> Result<(), Unbuilt>
    requires bounded { unsigned_abs sum.now.base + unsigned_abs bound ≤ SUM_BOUND }
    requires coefficients { total_coefficient sum.now.terms.items ≤ SUM_BOUND }
    requires room { row_terms rows.old + length sum.now.terms.items ≤ MAX_ROW_TERMS }
    ensures rows { OnOk result ((n : ℕ) (terms : List Term) → IsSumOf n terms sum.now.base sum.now.terms.items → AddsRows n (record { terms = terms; bound = bound } ∷ []) rows.old rows.new) }
    ensures room { OnOk result (row_terms rows.new ≤ row_terms rows.old + length sum.now.terms.items) }
    ensures too_wide { result ≡ Err TooWide → C.limit ≤ SUM_BOUND }
{
    let degree = bound - sum.base;
    if degree <= 0 {
        return Ok(());
    }
    let degree = degree as Magnitude;
    if !has_sums_below::<C>(&sum.terms, degree) {
        return Err(Unbuilt::TooWide);
    }
    rows.push(&sum.terms, degree)?;
    Ok(())
}

/// Whether the degree, and the coefficients cut down to it together, are below the limit.
fn has_sums_below<C: Coefficient>(terms: &[PositiveTerm], degree: Magnitude) -> bool
    requires degree { degree ≤ SUM_BOUND }
    requires coefficients { total_coefficient terms.now ≤ SUM_BOUND }
    ensures fits { result ≡ true → HasSumsBelow C.limit (clipped_row degree terms.now) }
    ensures too_wide { result ≡ false → C.limit ≤ SUM_BOUND }
{
    C::fits(degree) && C::fits(clipped_total(terms, degree))
}

/// Adds the row that says that the sum is at most the bound, unless it always is, and leaves the sum negated.
fn add_at_most<C: Coefficient>(
    rows: &mut RowList<C>,
    sum: &mut PositiveSum,
    bound: Number,
) -> Result<(), Unbuilt>
    requires bounded { unsigned_abs sum.old.base + unsigned_abs bound ≤ SUM_BOUND }
    requires coefficients { total_coefficient sum.old.terms.items ≤ SUM_BOUND }
    requires highest { ((sum.old.base +ℤ pos (total_coefficient sum.old.terms.items)) +ℤ pos (unsigned_abs bound)) ≤ℤ pos SUM_BOUND }
    requires room { row_terms rows.old + length sum.old.terms.items ≤ MAX_ROW_TERMS }
    ensures rows { OnOk result ((n : ℕ) (terms : List Term) → IsSumOf n terms sum.old.base sum.old.terms.items → AddsRows n (record { terms = map negated terms; bound = neg_ℤ bound } ∷ []) rows.old rows.new) }
    ensures room { OnOk result (row_terms rows.new ≤ row_terms rows.old + length sum.old.terms.items) }
    ensures too_wide { result ≡ Err TooWide → C.limit ≤ SUM_BOUND }
{
    sum.negate();
    add_at_least(rows, sum, -bound)
}

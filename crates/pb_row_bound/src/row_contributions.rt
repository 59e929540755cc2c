//! What rows that share no variable without a value add to a lower bound.
//! Source: [C96], [MM02]

ghost use Rattle.std.specs.Prelude.{◌≡◌, ℕ, ◌+◌, ◌-◌, ◌*◌, ◌<◌, ◌≤◌, None, true, false, All, length, map, replicate, sum_by, slice_set, if◌then◌else◌};
ghost use Rattle.std.specs.Option.{ForSome};
ghost use Rattle.pb_rows.specs.Constraints.{row_at};
ghost use Rattle.pb_row_bound.specs.DisjointRows.{is_free, is_picked, contribution, row_contributions, meets_marks, marked_by};
ghost use Rattle.pb_row_bound.specs.Deficits.{AreDeficits};
ghost use Rattle.pb_row_bound.specs.Offers.{no_offer, offer_with, offer_of, offer_joined, contribution_in};
ghost use Rattle.pb_rows.specs.Tables.{terms_in};

use crate::deficits::Deficits;
use pb_bits::Marks;
use pb_count::{Coefficient, Counter};
use pb_inst::Lit;
use pb_rows::{RowTerms, Weighs};
use pb_trail::TrailView;
use std::marker::Model;

/// The sum and the greatest of the coefficients of costly literals, and the least cost of one of them.
#[derive(Clone, Copy)]
struct Offer<C: Coefficient> {
    total: Counter<C>,
    greatest: Counter<C>,
    cheapest: Counter<C>,
}

impl<C: Coefficient> Model for Offer<C> {
    ghost use Rattle.pb_row_bound.specs.Offers.{Offer as Offered};

    ghost Value = { Offered };

    ghost view = { λ o. record { total = o.total; greatest = o.greatest; cheapest = o.cheapest } };

    ghost inverse = { λ o. record { total = o.total; greatest = o.greatest; cheapest = o.cheapest } };
}

impl<C: Coefficient> Offer<C> {
    /// No literal yet. The least cost begins above all costs.
    fn none() -> Offer<C>
        ensures { result ≡ no_offer C.limit }
    {
        Offer {
            total: Counter::of(0),
            greatest: Counter::of(0),
            cheapest: Counter::limit(),
        }
    }

    /// The offer with one more literal.
    fn with(self, coef: Counter<C>, cost: Counter<C>) -> Offer<C>
        requires { self.total + coef < 2 * C.limit }
        ensures { result ≡ offer_with self coef cost }
    {
        Offer {
            total: self.total + coef,
            greatest: self.greatest.max(coef),
            cheapest: self.cheapest.min(cost),
        }
    }

    /// The offer with the term's literal where that is costly, or none where its variable has no value and is marked.
    fn joined(
        self,
        trail: &TrailView<'_, C>,
        marks: &Marks,
        coef: Counter<C>,
        lit: Lit,
    ) -> Option<Offer<C>>
        requires variable { (1 ≤ lit.var) × (lit.var ≤ trail.now.vars) }
        requires marks { length marks.now ≡ trail.now.vars }
        requires fits { self.total + coef < 2 * C.limit }
        ensures { result ≡ offer_joined trail.now.form.objective trail.now.trail marks.now self (record { coef = coef; lit = lit }) }
    {
        if trail.value(lit.var()).is_some() {
            return Some(self);
        }
        if marks.is_marked(lit.var()) {
            return None;
        }
        let cost = trail.tables().cost(lit);
        if cost.is_zero() {
            return Some(self);
        }
        Some(self.with(coef, cost))
    }

    /// The least number of literals that can reach the need, times the least cost of one.
    fn contribution(self, need: Counter<C>) -> Counter<C>
        requires positive { 0 < need → need ≤ self.total → 0 < self.greatest }
        requires fits { contribution_in self need < 2 * C.limit }
        ensures { result ≡ contribution_in self need }
    {
        if need.is_zero() || self.total.is_below(need) {
            return Counter::of(0);
        }
        // For most rows one literal is enough, and a division is slow.
        if !self.greatest.is_below(need) {
            return self.cheapest;
        }
        need.div_ceil(self.greatest) * self.cheapest
    }
}

/// The offer of the row's costly literals, or none where one of its variables without a value is marked.
fn offer_in<C: Coefficient>(
    trail: &TrailView<'_, C>,
    marks: &Marks,
    terms: RowTerms<'_, C>,
) -> Option<Offer<C>>
    requires variables { All (λ t. (1 ≤ t.lit.var) × (t.lit.var ≤ trail.now.vars)) (terms_in terms) }
    requires marks { length marks.now ≡ trail.now.vars }
    requires fits { sum_by (λ t. t.coef) (terms_in terms) < C.limit }
    ensures some { ForSome result (λ offer. (offer ≡ offer_of C.limit trail.now.form.objective trail.now.trail (terms_in terms.entry)) × (meets_marks trail.now.trail marks.now (terms_in terms.entry) ≡ false)) }
    ensures none { result ≡ None → meets_marks trail.now.trail marks.now (terms_in terms.entry) ≡ true }
{
    match terms {
        RowTerms::Weighted(terms) => offer_of_items(trail, marks, terms),
        RowTerms::Units(lits) => offer_of_items(trail, marks, lits),
    }
}

/// The offer of the items' costly literals, or none where one of their variables without a value is marked.
fn offer_of_items<C: Coefficient, T: Weighs<C>>(
    trail: &TrailView<'_, C>,
    marks: &Marks,
    items: &[T],
) -> Option<Offer<C>>
    requires variables { All (λ t. (1 ≤ t.lit.var) × (t.lit.var ≤ trail.now.vars)) (map T.term items.now) }
    requires marks { length marks.now ≡ trail.now.vars }
    requires fits { sum_by (λ t. t.coef) (map T.term items.now) < C.limit }
    ensures some { ForSome result (λ offer. (offer ≡ offer_of C.limit trail.now.form.objective trail.now.trail (map T.term items.now)) × (meets_marks trail.now.trail marks.now (map T.term items.now) ≡ false)) }
    ensures none { result ≡ None → meets_marks trail.now.trail marks.now (map T.term items.now) ≡ true }
{
    let mut offer = Offer::none();
    for item in items {
        offer = offer.joined(trail, marks, item.coef(), item.lit())?;
    }
    Some(offer)
}

/// Marks the row's variables that have no value.
fn mark<C: Coefficient>(marks: &mut Marks, trail: &TrailView<'_, C>, terms: RowTerms<'_, C>)
    requires variables { All (λ t. (1 ≤ t.lit.var) × (t.lit.var ≤ trail.now.vars)) (terms_in terms) }
    requires marks { length marks.old ≡ trail.now.vars }
    ensures { marks.new ≡ marked_by trail.now.trail marks.old (terms_in terms.entry) }
{
    match terms {
        RowTerms::Weighted(terms) => mark_items(marks, trail, terms),
        RowTerms::Units(lits) => mark_items(marks, trail, lits),
    }
}

/// Marks the variables of the items that have no value.
fn mark_items<C: Coefficient, T: Weighs<C>>(
    marks: &mut Marks,
    trail: &TrailView<'_, C>,
    items: &[T],
)
    requires variables { All (λ t. (1 ≤ t.lit.var) × (t.lit.var ≤ trail.now.vars)) (map T.term items.now) }
    requires marks { length marks.old ≡ trail.now.vars }
    ensures { marks.new ≡ marked_by trail.now.trail marks.old (map T.term items.now) }
{
    for item in items {
        mark_free(marks, trail, item.lit());
    }
}

/// Marks the literal's variable where it has no value.
fn mark_free<C: Coefficient>(marks: &mut Marks, trail: &TrailView<'_, C>, lit: Lit)
    requires variable { (1 ≤ lit.var) × (lit.var ≤ trail.now.vars) }
    requires marks { length marks.old ≡ trail.now.vars }
    ensures { marks.new ≡ (if is_free trail.now.trail lit then slice_set marks.old (lit.var - 1) true else marks.old) }
{
    if trail.value(lit.var()).is_some() {
        return;
    }
    marks.mark(lit.var());
}

/// What the row adds where it is picked, else 0. A picked row's variables without a value are marked.
fn pick<C: Coefficient>(
    deficits: &Deficits<C>,
    marks: &mut Marks,
    trail: &TrailView<'_, C>,
    row: usize,
) -> Counter<C>
    requires row { row < length trail.now.rows }
    requires deficits { AreDeficits C.limit trail.now.form trail.now.rows trail.now.trail deficits.now }
    requires counted { deficits.now.counted ≡ length trail.now.trail }
    requires marks { length marks.old ≡ trail.now.vars }
    ensures contribution { result ≡ (if is_picked trail.now.form.objective trail.now.trail marks.old (row_at trail.now.rows row) then contribution trail.now.form.objective trail.now.trail (row_at trail.now.rows row) else 0) }
    ensures marks { marks.new ≡ (if is_picked trail.now.form.objective trail.now.trail marks.old (row_at trail.now.rows row) then marked_by trail.now.trail marks.old (row_at trail.now.rows row).terms else marks.old) }
{
    let tables = trail.tables();
    tables.facts();
    trail.facts();
    let terms = tables.terms(row);
    match offer_in(trail, marks, terms) {
        None => Counter::of(0),
        Some(offer) => {
            let contribution = offer.contribution(deficits.need(row));
            if contribution.is_zero() {
                return Counter::of(0);
            }
            mark(marks, trail, terms);
            contribution
        }
    }
}

/// The contributions of the rows that are picked in order.
pub fn row_contributions<C: Coefficient>(
    deficits: &Deficits<C>,
    marks: &mut Marks,
    trail: &TrailView<'_, C>,
) -> Counter<C>
    requires deficits { AreDeficits C.limit trail.now.form trail.now.rows trail.now.trail deficits.now }
    requires counted { deficits.now.counted ≡ length trail.now.trail }
    requires marks { length marks.old ≡ trail.now.vars }
    ensures contributions { result ≡ row_contributions trail.now.form.objective trail.now.trail (replicate trail.now.vars false) trail.now.rows }
    ensures marks { length marks.new ≡ length marks.old }
{
    marks.clear();
    trail.tables().facts();
    // A row that isn't open needs no costly literal, so it would add nothing.
    let mut sum = Counter::of(0);
    let mut from = 0;
    while let Some(row) = deficits.next(from) {
        sum += pick(deficits, marks, trail, row);
        from = row + 1;
    }
    sum
}

//! How far the multiplier of one row is shifted: to where the bound is greatest beside the other multipliers as they are.
//! Source: [E78]

ghost use Rattle.std.specs.Prelude.{◌<◌, length};
ghost use Rattle.pb_saddle.specs.Shifting.{IsSameButShifted};

use pb_count::{Coefficient, Counter};
use pb_dual::{Multipliers, Signed};
use pb_inst::Memory;
use pb_normal::Form;
use std::alloc::Global;

/// Where the multiplier of a row makes a literal free of cost, and the literal's coefficient.
#[derive(Clone, Copy)]
struct Breakpoint<C: Coefficient> {
    at: Counter<C>,
    coef: Counter<C>,
}

/// Room for what a step looks at.
#[derive(Drop)]
pub struct Steps<C: Coefficient> {
    breakpoints: Vec<Breakpoint<C>>,
}

impl<C: Coefficient> Steps<C> {
    /// Room for the longest row of the form.
    pub fn new(alloc: Global, form: &Form<C>) -> Result<Steps<C>, Memory> {
        Ok(Steps {
            breakpoints: Vec::with_capacity(alloc, longest_row(form))?,
        })
    }

    /// Shifts the row's multiplier to where the bound is greatest, and to the middle where that is an interval, so that the
    /// reduced costs on either side keep some room for other rows. Gives by how much.
    pub fn step(&mut self, multipliers: &mut Multipliers<C>, row: usize) -> Signed<C>
        requires { row < length multipliers.old.form.rows }
        ensures { IsSameButShifted multipliers.old multipliers.new }
    {
        // A change for which there is no room could not be taken back, so none is made.
        if !multipliers.has_room() {
            return Signed::zero();
        }
        let is_clause = !Counter::of(1).is_below(multipliers.degree(row));
        let amount = if is_clause {
            clause_amount(multipliers, row)
        } else {
            row_amount(multipliers, &mut self.breakpoints, row)
        };
        if !amount.is_zero() {
            multipliers.shift(row, amount);
        }
        amount
    }
}

/// How far to shift the multiplier of a row that one literal meets: its least reduced cost becomes 0 or less.
fn clause_amount<C: Coefficient>(multipliers: &Multipliers<C>, row: usize) -> Signed<C>
    requires { row < length multipliers.now.form.rows }
{
    let (mut least, mut next) = (Signed::greatest(), Signed::greatest());
    let form = multipliers.form();
    form.facts();
    for term in form.terms(row) {
        match multipliers.value(term.lit()) {
            // The clause is met, so it adds nothing to the bound, and its multiplier goes back to 0.
            Some(true) => return Signed::zero().minus(Signed::of(multipliers.multiplier(row))),
            Some(false) => {}
            None => {
                let cost = multipliers.difference(term.lit());
                next = next.min(cost.max(least));
                least = least.min(cost);
            }
        }
    }
    middle(least, next)
}

/// How far to shift the multiplier of any row: to the middle of the interval where the bound is greatest.
fn row_amount<C: Coefficient>(
    multipliers: &Multipliers<C>,
    breakpoints: &mut Vec<Breakpoint<C>>,
    row: usize,
) -> Signed<C>
    requires { row < length multipliers.now.form.rows }
{
    let form = multipliers.form();
    form.facts();
    let multiplier = multipliers.multiplier(row);
    let most = multipliers.most(row);
    let mut need = Signed::of(multipliers.degree(row));
    breakpoints.clear();
    for term in form.terms(row) {
        let coef = term.coef().min(most);
        match multipliers.value(term.lit()) {
            Some(true) => need = need.minus(Signed::of(coef)),
            Some(false) => {}
            None => {
                // What the literal costs, over its negation, where this row takes nothing off it.
                let given = multiplier.saturating_mul(coef);
                let (cost, other) = multipliers.costs(term.lit());
                let alone = cost.saturating_add(given).above(other);
                if alone.is_zero() {
                    need = need.minus(Signed::of(coef));
                } else {
                    note(breakpoints, alone, coef);
                }
            }
        }
    }
    // Where all its literals don't give what is needed, the bound would grow without end, so the multiplier stays.
    let target = target(breakpoints, need).unwrap_or(multiplier);
    Signed::of(target).minus(Signed::of(multiplier))
}

/// The middle between the two, the first where there is no second, and 0 where there is none.
fn middle<C: Coefficient>(least: Signed<C>, next: Signed<C>) -> Signed<C> {
    if least.is_greatest() {
        return Signed::zero();
    }
    if next.is_greatest() {
        return least;
    }
    least.plus(Signed::of(next.minus(least).magnitude() / Counter::of(2)))
}

/// Notes a literal with this coefficient that costs `alone` where its row has no multiplier.
fn note<C: Coefficient>(breakpoints: &mut Vec<Breakpoint<C>>, alone: Counter<C>, coef: Counter<C>) {
    if breakpoints.len() < breakpoints.capacity() {
        let at = alone / coef.max(Counter::of(1));
        breakpoints.push_reserved(Breakpoint { at, coef });
    }
}

/// The multiplier at which just enough literals are free of cost to give what is needed, and the middle where that is an
/// interval; none where all of them together don't give it.
fn target<C: Coefficient>(
    breakpoints: &mut [Breakpoint<C>],
    need: Signed<C>,
) -> Option<Counter<C>> {
    breakpoints.sort_unstable_by_key(|point| point.at.number());
    let (mut left, mut last) = (need, Counter::of(0));
    for point in breakpoints {
        if left.is_negative() {
            return Some(last);
        }
        if left.is_zero() {
            return Some(last.midpoint(point.at));
        }
        last = point.at;
        left = left.minus(Signed::of(point.coef));
    }
    if left.is_positive() { None } else { Some(last) }
}

/// The number of terms of the longest row.
fn longest_row<C: Coefficient>(form: &Form<C>) -> usize {
    let mut longest = 0;
    for row in 0..form.len() {
        longest = longest.max(form.terms(row).len());
    }
    longest
}

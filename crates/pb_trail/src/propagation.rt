//! Propagation: looks at rows for literals that they force, by the slack of each.
//! Source: [CK05]

ghost use Rattle.std.specs.Prelude.{◌≡◌, ℕ, ◌+◌, ◌<◌, ◌≤◌, length, All, None, IfSome};
ghost use Rattle.pb_rows.specs.Constraints.{row_at};
ghost use Rattle.pb_rows.specs.Index.{total_by};
ghost use Rattle.pb_trail.specs.Steps.{PropagatesRow};
ghost use Rattle.pb_trail.specs.Tracked.{IsUpToDate};
ghost use Rattle.pb_trail.specs.Trail.{reachable};
ghost use Rattle.pb_trail.specs.Propagation.{AddsForced, IsBroken, IsSettledFrom};
ghost use Rattle.std.specs.Option.{ForSome};
ghost use Rattle.pb_trail.specs.Levels.{AllSettled, AllSettledFrom};

use crate::slack_cache::is_long;
use crate::trail::Trail;
use pb_count::{Coefficient, Counter};
use pb_rows::{Occurs, Tables};

/// What a step of the engine found.
#[derive(Clone, Copy, Debug, PartialEq, Eq)]
pub enum Step {
    Fixed,
    Conflict,
}

/// Puts the literals that the row forces on the trail, or finds that the row can't be met any more.
// Most rows that are looked at force nothing. So the test is inlined in the loops, and only what adds literals is called.
#[inline(always)]
fn propagate_constraint<C: Coefficient>(
    tables: &Tables<'_, C>,
    trail: &mut Trail<C>,
    row: usize,
) -> Step
    requires row { row < length tables.now.rows }
    requires up_to_date { IsUpToDate tables.now trail.old }
    ensures { PropagatesRow tables.now row trail.old trail.new result }
{
    if row < tables.form_len() {
        propagate_row(tables, trail, row)
    } else {
        propagate_clause(tables, trail, row)
    }
}

/// Looks at a row of the form.
#[inline(always)]
fn propagate_row<C: Coefficient>(tables: &Tables<'_, C>, trail: &mut Trail<C>, row: usize) -> Step
    requires row { row < length tables.now.form.rows }
    requires up_to_date { IsUpToDate tables.now trail.old }
    ensures { PropagatesRow tables.now row trail.old trail.new result }
{
    let limits = tables.limits(row);
    let reachable = trail.sum(row);
    if !reachable.is_below(limits.enough) {
        return Step::Fixed;
    }
    if reachable.is_below(limits.degree) {
        trail.blame(row);
        return Step::Conflict;
    }
    add_forced(tables, trail, row, reachable - limits.degree);
    Step::Fixed
}

/// Looks at a clause.
#[inline(always)]
fn propagate_clause<C: Coefficient>(
    tables: &Tables<'_, C>,
    trail: &mut Trail<C>,
    row: usize,
) -> Step
    requires form { length tables.now.form.rows ≤ row }
    requires exists { row < length tables.now.rows }
    requires up_to_date { IsUpToDate tables.now trail.old }
    ensures { PropagatesRow tables.now row trail.old trail.new result }
{
    tables.facts();
    let reachable = trail.sum(row);
    if !reachable.is_below(Counter::of(2)) {
        return Step::Fixed;
    }
    if reachable.is_zero() {
        trail.blame(row);
        return Step::Conflict;
    }
    add_last(tables, trail, row);
    Step::Fixed
}

/// Adds what is forced. The rows are known to be settled but for the literals from a place on, or nothing is known. It looks
/// at the rows that the literals from there on touch, and at those that the literals it adds touch in turn.
pub fn propagate_all<C: Coefficient>(
    tables: &Tables<'_, C>,
    trail: &mut Trail<C>,
    propagated: Option<usize>,
) -> Step
    requires settled { ForSome propagated (λ from. AllSettledFrom tables.now.rows trail.old.lits from) }
    requires up_to_date { IsUpToDate tables.now trail.old }
    ensures up_to_date { IsUpToDate tables.now trail.new }
    ensures forced { AddsForced tables.now.rows trail.old.lits trail.new.lits }
    ensures settled { result ≡ Step.Fixed → AllSettled tables.now.rows trail.new.lits }
    ensures broken { result ≡ Step.Conflict → IsBroken tables.now.rows trail.new.lits }
{
    let Some(start) = settled_from(tables, trail, propagated) else {
        return Step::Conflict;
    };
    let mut head = start;
    while head < trail.len() {
        let falsified = trail.literal(head).negate();
        if let Step::Conflict = propagate_occurrences(
            tables,
            trail,
            tables.occurrences(falsified),
        ) {
            return Step::Conflict;
        }
        if let Step::Conflict = propagate_occurrences(tables, trail, tables.units(falsified)) {
            return Step::Conflict;
        }
        head += 1;
    }
    Step::Fixed
}

/// The place from which on literals may leave rows unsettled, or none at a conflict. Where nothing is known it looks at every
/// row.
#[inline(always)]
fn settled_from<C: Coefficient>(
    tables: &Tables<'_, C>,
    trail: &mut Trail<C>,
    propagated: Option<usize>,
) -> Option<usize>
    requires settled { ForSome propagated (λ from. AllSettledFrom tables.now.rows trail.old.lits from) }
    requires up_to_date { IsUpToDate tables.now trail.old }
    ensures up_to_date { IsUpToDate tables.now trail.new }
    ensures forced { AddsForced tables.now.rows trail.old.lits trail.new.lits }
    ensures settled { IfSome result (λ from. AllSettledFrom tables.now.rows trail.new.lits from) }
    ensures broken { result ≡ None → IsBroken tables.now.rows trail.new.lits }
{
    if let Some(start) = propagated {
        return Some(start);
    }
    let start = trail.len();
    match propagate_every_row(tables, trail) {
        Step::Fixed => Some(start),
        Step::Conflict => None,
    }
}

/// Looks at every row.
// A search calls it once, at its start. Inlined there, it would keep the compiler from inlining `propagate` into the search.
#[inline(never)]
fn propagate_every_row<C: Coefficient>(tables: &Tables<'_, C>, trail: &mut Trail<C>) -> Step
    requires up_to_date { IsUpToDate tables.now trail.old }
    ensures up_to_date { IsUpToDate tables.now trail.new }
    ensures forced { AddsForced tables.now.rows trail.old.lits trail.new.lits }
    ensures settled { result ≡ Step.Fixed → (r head : ℕ) → r < length tables.now.rows → head ≤ length trail.old.lits → IsSettledFrom head trail.new.lits (row_at tables.now.rows r) }
    ensures broken { result ≡ Step.Conflict → IsBroken tables.now.rows trail.new.lits }
{
    for row in 0..tables.len() {
        if let Step::Conflict = propagate_constraint(tables, trail, row) {
            return Step::Conflict;
        }
    }
    Step::Fixed
}

/// Looks at every row that an occurrence names.
fn propagate_occurrences<C: Coefficient, O: Occurs<C>>(
    tables: &Tables<'_, C>,
    trail: &mut Trail<C>,
    occurrences: &[O],
) -> Step
    requires rows_exist { All (λ o. (O.occurrence o).row < length tables.now.rows) occurrences.now }
    requires up_to_date { IsUpToDate tables.now trail.old }
    ensures up_to_date { IsUpToDate tables.now trail.new }
    ensures forced { AddsForced tables.now.rows trail.old.lits trail.new.lits }
    ensures settled { result ≡ Step.Fixed → (r head : ℕ) → 0 < total_by O.occurrence r occurrences.now → head ≤ length trail.old.lits → IsSettledFrom head trail.new.lits (row_at tables.now.rows r) }
    ensures broken { result ≡ Step.Conflict → IsBroken tables.now.rows trail.new.lits }
{
    for occurrence in occurrences {
        if let Step::Conflict = propagate_constraint(tables, trail, occurrence.row()) {
            return Step::Conflict;
        }
    }
    Step::Fixed
}

/// Puts on the trail the literals of a row of the form that have no value and a coefficient above the slack. A long row that
/// was looked through at this slack or a lesser one, with nothing taken off since, has none and is skipped.
#[inline(never)]
fn add_forced<C: Coefficient>(
    tables: &Tables<'_, C>,
    trail: &mut Trail<C>,
    row: usize,
    slack: Counter<C>,
)
    requires form { row < length tables.now.form.rows }
    requires exists { row < length tables.now.rows }
    requires slack { (row_at tables.now.rows row).degree + slack ≡ reachable trail.old.lits (row_at tables.now.rows row).terms }
    requires up_to_date { IsUpToDate tables.now trail.old }
    ensures up_to_date { IsUpToDate tables.now trail.new }
    ensures forced { AddsForced tables.now.rows trail.old.lits trail.new.lits }
    ensures settled { (head : ℕ) → head ≤ length trail.old.lits → IsSettledFrom head trail.new.lits (row_at tables.now.rows row) }
{
    let terms = tables.form_terms(row);
    let long = is_long(terms);
    if long && trail.knows(row, slack) {
        return;
    }
    for term in terms {
        let lit = term.lit();
        if slack.is_below(term.coef()) && trail.value(lit.var()).is_none() {
            trail.push(tables, lit, row);
        }
    }
    if long {
        trail.note(row, slack);
    }
}

/// Puts on the trail the one literal of a clause that is not false yet, if it has no value.
#[inline(never)]
fn add_last<C: Coefficient>(tables: &Tables<'_, C>, trail: &mut Trail<C>, row: usize)
    requires form { length tables.now.form.rows ≤ row }
    requires exists { row < length tables.now.rows }
    requires slack { reachable trail.old.lits (row_at tables.now.rows row).terms ≡ 1 }
    requires up_to_date { IsUpToDate tables.now trail.old }
    ensures up_to_date { IsUpToDate tables.now trail.new }
    ensures forced { AddsForced tables.now.rows trail.old.lits trail.new.lits }
    ensures settled { (head : ℕ) → head ≤ length trail.old.lits → IsSettledFrom head trail.new.lits (row_at tables.now.rows row) }
{
    for lit in tables.clause(row) {
        if trail.value(lit.var()).is_none() {
            trail.push(tables, *lit, row);
        }
    }
}

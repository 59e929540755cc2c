//! A trail, with the sum that each row can still reach under it.
//! Source: [ES03], [CK05]

ghost use Rattle.std.specs.Prelude.{◌≡◌, ℕ, ◌+◌, ◌-◌, ◌*◌, ◌<◌, ◌≤◌, [], ◌∷◌, ◌++◌, true, length, take, All, None, slice_index, slice_index_or, IfOk, sum_by};
ghost use Rattle.pb_rows.specs.Constraints.{row_at};
ghost use Rattle.pb_rows.specs.Index.{total_by};
ghost use Rattle.pb_normal.specs.Literals.{weight_of};
ghost use Rattle.pb_trail.specs.SlackCache.{IsKnown, KnowsNothing, NotesOnly};
ghost use Rattle.pb_trail.specs.Soundness.{IsProperTrail};
ghost use Rattle.pb_trail.specs.Tracked.{IsUpToDate};
ghost use Rattle.pb_trail.specs.Trail.{value_on, reachable};

use crate::reasons::Reasons;
use crate::slack_cache::SlackCache;
use pb_count::{Coefficient, Counter};
use pb_inst::{Lit, Memory};
use pb_rows::{Occurs, Tables};
use std::alloc::Global;
use std::marker::Model;

/// The literals of a trail, the value of each variable, and for each row of some tables the sum that it can still reach. The
/// tables are not kept here, so whoever changes the trail hands them over, and may hold a part of them meanwhile.
#[derive(Drop)]
pub struct Trail<C: Coefficient> {
    sums: Vec<Counter<C>>,
    values: Vec<Option<bool>>,
    lits: Vec<Lit>,
    slack_cache: SlackCache<C>,
    /// The row at which a conflict was found last. No more than a hint: the view leaves it out.
    blamed: usize,
    /// Which rows forced the literals. No more than a hint, as `blamed` is.
    reasons: Reasons,
}

impl<C: Coefficient> Model for Trail<C> {
    ghost use Rattle.std.specs.Prelude.{length};
    ghost use Rattle.std.specs.Vec.{vec_capacity};
    ghost use Rattle.pb_trail.specs.Tracked.{TrailState, AreValues};

    ghost Value = { TrailState };

    ghost view = { λ t. record { vars = length t.values.items; lits = t.lits.items; sums = t.sums.items; slack_cache = t.slack_cache } };

    ghost invariant = { λ t. AreValues t.values.items t.lits.items (vec_capacity t.lits) };
}

impl<C: Coefficient> Trail<C> {
    /// The empty trail over the rows. It makes room for all variables.
    pub fn new(alloc: Global, tables: &Tables<'_, C>) -> Result<Trail<C>, Memory>
        ensures empty { IfOk result (λ trail. trail.lits ≡ []) }
        ensures up_to_date { IfOk result (λ trail. IsUpToDate tables.now trail) }
    {
        tables.facts();
        let vars = tables.vars() as usize;
        let sums = totals(alloc, tables)?;
        let values = vec![in alloc; None; vars]?;
        let lits = Vec::with_capacity(alloc, vars)?;
        let slack_cache = SlackCache::new(alloc, tables.form())?;
        let reasons = Reasons::new(alloc, vars)?;
        Ok(Trail {
            sums,
            values,
            lits,
            slack_cache,
            blamed: 0,
            reasons,
        })
    }

    /// The number of variables.
    pub fn vars(&self) -> u32
        ensures { result ≡ self.now.vars }
    {
        self.values.len() as u32
    }

    /// The value that the trail gives the variable, if any.
    pub fn value(&self, var: u32) -> Option<bool>
        requires { (1 ≤ var) × (var ≤ self.now.vars) }
        ensures { result ≡ value_on self.now.lits var }
    {
        self.values[var as usize - 1]
    }

    /// The number of literals.
    pub fn len(&self) -> usize
        ensures length { result ≡ length self.now.lits }
        ensures within { result ≤ self.now.vars }
        ensures proper { IsProperTrail self.now.vars self.now.lits }
    {
        self.lits.len()
    }

    /// The literal at a place of the trail.
    pub fn literal(&self, place: usize) -> Lit
        requires { place < length self.now.lits }
        ensures value { result ≡ slice_index_or self.now.lits place result }
        ensures within { result.var ≤ self.now.vars }
    {
        self.lits[place]
    }

    /// The sum that the row can still reach.
    pub fn sum(&self, row: usize) -> Counter<C>
        requires { row < length self.now.sums }
        ensures { result ≡ slice_index self.now.sums row }
    {
        self.sums[row]
    }

    /// Notes the row at which a conflict was found.
    pub fn blame(&mut self, row: usize)
        ensures { self.new ≡ self.old }
    {
        self.blamed = row;
    }

    /// The row that was noted last.
    pub fn blamed(&self) -> usize {
        self.blamed
    }

    /// The row that was handed over with the last literal of the variable.
    pub fn reason(&self, var: u32) -> usize {
        self.reasons.row_of(var)
    }

    /// Whether the row was looked through at this slack or a lesser one, with nothing taken off since. For a short
    /// row it is false.
    pub fn knows(&self, row: usize, slack: Counter<C>) -> bool
        ensures { result ≡ true → IsKnown self.now.slack_cache row slack }
    {
        self.slack_cache.knows(row, slack)
    }

    /// Notes that the row was looked through at the slack.
    pub fn note(&mut self, row: usize, slack: Counter<C>)
        ensures noted { NotesOnly self.old.slack_cache self.new.slack_cache row slack }
        ensures rest { self.new ≡ record self.old { slack_cache = self.new.slack_cache } }
    {
        self.slack_cache.note(row, slack);
    }

    /// Puts a literal without a value on the trail. The reason is the row that forces it, or `NO_ROW`.
    pub fn push(&mut self, tables: &Tables<'_, C>, lit: Lit, reason: usize)
        requires up_to_date { IsUpToDate tables.now self.old }
        requires variable { lit.var ≤ self.old.vars }
        requires no_value { value_on self.old.lits lit.var ≡ None }
        ensures up_to_date { IsUpToDate tables.now self.new }
        ensures pushed { self.new.lits ≡ self.old.lits ++ lit ∷ [] }
        ensures within { length self.old.lits < self.old.vars }
        ensures from_one { 1 ≤ lit.var }
    {
        self.values[lit.var() as usize - 1] = Some(lit.positive());
        self.lits.push_reserved(lit);
        self.reasons.note(lit, reason);
        lower_rows(&mut self.sums, tables, lit.negate());
    }

    /// Takes literals off until `length` are left.
    pub fn cut(&mut self, tables: &Tables<'_, C>, length: usize)
        requires up_to_date { IsUpToDate tables.now self.old }
        ensures up_to_date { IsUpToDate tables.now self.new }
        ensures left { self.new.lits ≡ take length self.old.lits }
    {
        self.slack_cache.forget();
        while self.len() > length {
            self.pop(tables);
        }
    }

    /// Takes the last literal off.
    fn pop(&mut self, tables: &Tables<'_, C>)
        requires up_to_date { IsUpToDate tables.now self.old }
        requires nothing_known { KnowsNothing self.old.slack_cache }
        ensures up_to_date { IsUpToDate tables.now self.new }
        ensures nothing_known { KnowsNothing self.new.slack_cache }
        ensures popped { self.new.lits ≡ take (length self.old.lits - 1) self.old.lits }
    {
        tables.facts();
        if let Some(lit) = self.lits.pop() {
            self.values[lit.var() as usize - 1] = None;
            raise_rows(&mut self.sums, tables, lit.negate());
        }
    }
}

/// The sum of all coefficients, for each row.
fn totals<C: Coefficient>(alloc: Global, tables: &Tables<'_, C>) -> Result<Vec<Counter<C>>, Memory>
    ensures { IfOk result (λ sums. (length sums.items ≡ length tables.now.rows) × ((r : ℕ) → r < length tables.now.rows → slice_index sums.items r ≡ reachable [] (row_at tables.now.rows r).terms)) }
{
    let mut sums = Vec::with_capacity(alloc, tables.len())?;
    for row in 0..tables.len() {
        sums.push(tables.total(row))?;
    }
    Ok(sums)
}

/// Takes the literal's coefficients from the sums of its rows and clauses.
fn lower_rows<C: Coefficient>(sums: &mut [Counter<C>], tables: &Tables<'_, C>, lit: Lit)
    requires variable { lit.var ≤ tables.now.vars }
    requires count { length sums.old ≡ length tables.now.rows }
    requires enough { (r : ℕ) → r < length sums.old → weight_of lit (row_at tables.now.rows r).terms ≤ slice_index sums.old r }
    ensures { (r : ℕ) → r < length sums.old → slice_index sums.new r + weight_of lit (row_at tables.now.rows r).terms ≡ slice_index sums.old r }
{
    lower(sums, tables.occurrences(lit));
    lower(sums, tables.units(lit));
}

/// Adds the literal's coefficients to the sums of its rows and clauses.
fn raise_rows<C: Coefficient>(sums: &mut [Counter<C>], tables: &Tables<'_, C>, lit: Lit)
    requires variable { lit.var ≤ tables.now.vars }
    requires count { length sums.old ≡ length tables.now.rows }
    requires fits { (r : ℕ) → r < length sums.old → slice_index sums.old r + weight_of lit (row_at tables.now.rows r).terms < 2 * C.limit }
    ensures { (r : ℕ) → r < length sums.old → slice_index sums.new r ≡ slice_index sums.old r + weight_of lit (row_at tables.now.rows r).terms }
{
    raise(sums, tables.occurrences(lit));
    raise(sums, tables.units(lit));
}

/// Takes the coefficients of the occurrences from the sums of their rows.
fn lower<C: Coefficient, O: Occurs<C>>(sums: &mut [Counter<C>], occurrences: &[O])
    requires rows_exist { All (λ o. (O.occurrence o).row < length sums.old) occurrences.now }
    requires enough { (r : ℕ) → r < length sums.old → total_by O.occurrence r occurrences.now ≤ slice_index sums.old r }
    ensures { (r : ℕ) → r < length sums.old → slice_index sums.new r + total_by O.occurrence r occurrences.now ≡ slice_index sums.old r }
{
    for occurrence in occurrences {
        sums[occurrence.row()] -= occurrence.coef();
    }
}

/// Adds the coefficients of the occurrences to the sums of their rows.
fn raise<C: Coefficient, O: Occurs<C>>(sums: &mut [Counter<C>], occurrences: &[O])
    requires rows_exist { All (λ o. (O.occurrence o).row < length sums.old) occurrences.now }
    requires fits { (r : ℕ) → r < length sums.old → slice_index sums.old r + total_by O.occurrence r occurrences.now < 2 * C.limit }
    ensures { (r : ℕ) → r < length sums.old → slice_index sums.new r ≡ slice_index sums.old r + total_by O.occurrence r occurrences.now }
{
    for occurrence in occurrences {
        sums[occurrence.row()] += occurrence.coef();
    }
}

//! What the trail pays, and what each row still needs of literals that cost.

ghost use Rattle.std.specs.Prelude.{◌≡◌, ℕ, ◌+◌, ◌-◌, ◌*◌, ◌^◌, ◌<◌, ◌≤◌, None, [], length, map, take, All, IfOk, OnOk, slice_index, sum_by, nat_lt, if◌then◌else◌};
ghost use Rattle.std.specs.Option.{ForSome};
ghost use Rattle.pb_bits.specs.RowSet.{HasNoneBetween};
ghost use Rattle.pb_rows.specs.Constraints.{row_at};
ghost use Rattle.pb_row_bound.specs.DisjointRows.{spare, gain, loss};
ghost use Rattle.pb_rows.specs.Index.{total_by};
ghost use Rattle.pb_row_bound.specs.Deficits.{AreDeficits, IsDeficitOf, are_open};
ghost use Rattle.pb_rows.specs.Tables.{terms_in};
ghost use Rattle.pb_normal.specs.Literals.{negation, weight_of};

use pb_bits::RowSet;
use pb_count::{Coefficient, Counter};
use pb_inst::{Lit, Memory};
use pb_rows::{Occurs, RowTerms, Tables, Weighs};
use pb_trail::TrailView;
use std::alloc::Global;

/// What the first literals of a trail pay, and the deficit of each row after them: its degree less what it has at no cost, with
/// the limit of the counters added, since that difference may be below 0 and counters can't be. Rows with a deficit above the
/// limit are open, and are kept in a set, so that a bound looks at no other row.
#[derive(Drop)]
pub struct Deficits<C: Coefficient> {
    counted: usize,
    paid: Counter<C>,
    by_row: Vec<Counter<C>>,
    open_rows: RowSet,
}

impl<C: Coefficient> Deficits<C> {
    /// No literal is counted.
    pub fn new(alloc: Global, trail: &TrailView<'_, C>) -> Result<Deficits<C>, Memory>
        ensures { IfOk result (λ deficits. AreDeficits C.limit trail.now.form trail.now.rows trail.now.trail deficits) }
    {
        let by_row = initial_deficits(alloc, trail.tables())?;
        let open_rows = open_rows_of(alloc, &by_row)?;
        Ok(Deficits {
            counted: 0,
            paid: Counter::of(0),
            by_row,
            open_rows,
        })
    }

    /// Counts the literals of the trail that were not counted yet.
    pub fn count(&mut self, trail: &TrailView<'_, C>)
        requires { AreDeficits C.limit trail.now.form trail.now.rows trail.now.trail self.old }
        ensures deficits { AreDeficits C.limit trail.now.form trail.now.rows trail.now.trail self.new }
        ensures all { self.new.counted ≡ length trail.now.trail }
    {
        while self.counted < trail.len() {
            self.count_next(trail);
        }
    }

    /// Takes back the literals of the trail from the place `start` on.
    pub fn take_back(&mut self, trail: &TrailView<'_, C>, start: usize)
        requires { AreDeficits C.limit trail.now.form trail.now.rows trail.now.trail self.old }
        ensures deficits { AreDeficits C.limit trail.now.form trail.now.rows trail.now.trail self.new }
        ensures before { self.new.counted ≤ start }
    {
        while self.counted > start {
            self.take_back_last(trail);
        }
    }

    /// What the counted literals pay.
    pub fn paid(&self) -> Counter<C>
        ensures { result ≡ self.now.paid }
    {
        self.paid
    }

    /// The first open row from the row `from` on, or none.
    pub fn next(&self, from: usize) -> Option<usize>
        ensures some { ForSome result (λ row. (from ≤ row) × (row < length self.now.open_rows) × HasNoneBetween self.now.open_rows from row) }
        ensures none { result ≡ None → HasNoneBetween self.now.open_rows from (length self.now.open_rows) }
    {
        self.open_rows.next(from)
    }

    /// What the costly literals of the row must reach.
    pub fn need(&self, row: usize) -> Counter<C>
        requires { row < length self.now.by_row.items }
        ensures { result ≡ slice_index self.now.by_row.items row - C.limit }
    {
        self.by_row[row].above(Counter::limit())
    }

    /// Counts the next literal.
    fn count_next(&mut self, trail: &TrailView<'_, C>)
        requires deficits { AreDeficits C.limit trail.now.form trail.now.rows trail.now.trail self.old }
        requires next { self.old.counted < length trail.now.trail }
        ensures deficits { AreDeficits C.limit trail.now.form trail.now.rows trail.now.trail self.new }
        ensures counted { self.new.counted ≡ self.old.counted + 1 }
    {
        let tables = trail.tables();
        tables.facts();
        let _length = trail.len();
        let lit = trail.literal(self.counted);
        join(&mut self.by_row, &mut self.open_rows, tables, lit);
        self.paid += tables.cost(lit);
        self.counted += 1;
    }

    /// Takes back the last literal that is counted.
    fn take_back_last(&mut self, trail: &TrailView<'_, C>)
        requires deficits { AreDeficits C.limit trail.now.form trail.now.rows trail.now.trail self.old }
        requires some { 0 < self.old.counted }
        ensures deficits { AreDeficits C.limit trail.now.form trail.now.rows trail.now.trail self.new }
        ensures counted { self.new.counted + 1 ≡ self.old.counted }
    {
        let tables = trail.tables();
        tables.facts();
        trail.facts();
        let lit = trail.literal(self.counted - 1);
        leave(&mut self.by_row, &mut self.open_rows, tables, lit);
        self.paid -= tables.cost(lit);
        self.counted -= 1;
    }
}

/// The deficits of the rows once the literal joins the trail.
fn join<C: Coefficient>(
    deficits: &mut [Counter<C>],
    open_rows: &mut RowSet,
    tables: &Tables<'_, C>,
    lit: Lit,
)
    requires variable { lit.var ≤ tables.now.vars }
    requires count { length deficits.old ≡ length tables.now.rows }
    requires enough { (r : ℕ) → r < length deficits.old → gain tables.now.form.objective lit (row_at tables.now.rows r).terms ≤ slice_index deficits.old r }
    requires fits { (r : ℕ) → r < length deficits.old → slice_index deficits.old r + loss tables.now.form.objective (negation lit) (row_at tables.now.rows r).terms < 2 * C.limit + gain tables.now.form.objective lit (row_at tables.now.rows r).terms }
    requires open_rows { open_rows.old ≡ are_open C.limit deficits.old }
    ensures count { length deficits.new ≡ length deficits.old }
    ensures changed { (r : ℕ) → r < length deficits.old → slice_index deficits.new r + gain tables.now.form.objective lit (row_at tables.now.rows r).terms ≡ slice_index deficits.old r + loss tables.now.form.objective (negation lit) (row_at tables.now.rows r).terms }
    ensures open_rows { open_rows.new ≡ are_open C.limit deficits.new }
{
    // A literal without cost counted as had before it was true, so only a costly one lowers deficits now; its negation, where
    // that costs nothing, can't be had any more.
    let negation = lit.negate();
    lower_if(
        !tables.cost(lit).is_zero(),
        deficits,
        open_rows,
        tables,
        lit,
    );
    raise_if(
        tables.cost(negation).is_zero(),
        deficits,
        open_rows,
        tables,
        negation,
    );
}

/// The deficits of the rows once the literal leaves the trail.
fn leave<C: Coefficient>(
    deficits: &mut [Counter<C>],
    open_rows: &mut RowSet,
    tables: &Tables<'_, C>,
    lit: Lit,
)
    requires variable { lit.var ≤ tables.now.vars }
    requires count { length deficits.old ≡ length tables.now.rows }
    requires enough { (r : ℕ) → r < length deficits.old → loss tables.now.form.objective (negation lit) (row_at tables.now.rows r).terms ≤ slice_index deficits.old r }
    requires fits { (r : ℕ) → r < length deficits.old → slice_index deficits.old r + gain tables.now.form.objective lit (row_at tables.now.rows r).terms < 2 * C.limit + loss tables.now.form.objective (negation lit) (row_at tables.now.rows r).terms }
    requires open_rows { open_rows.old ≡ are_open C.limit deficits.old }
    ensures count { length deficits.new ≡ length deficits.old }
    ensures changed { (r : ℕ) → r < length deficits.old → slice_index deficits.new r + loss tables.now.form.objective (negation lit) (row_at tables.now.rows r).terms ≡ slice_index deficits.old r + gain tables.now.form.objective lit (row_at tables.now.rows r).terms }
    ensures open_rows { open_rows.new ≡ are_open C.limit deficits.new }
{
    let negation = lit.negate();
    lower_if(
        tables.cost(negation).is_zero(),
        deficits,
        open_rows,
        tables,
        negation,
    );
    raise_if(
        !tables.cost(lit).is_zero(),
        deficits,
        open_rows,
        tables,
        lit,
    );
}

/// Takes the literal's coefficients from the deficits of its rows, if that is wanted.
fn lower_if<C: Coefficient>(
    wanted: bool,
    deficits: &mut [Counter<C>],
    open_rows: &mut RowSet,
    tables: &Tables<'_, C>,
    lit: Lit,
)
    requires variable { lit.var ≤ tables.now.vars }
    requires count { length deficits.old ≡ length tables.now.rows }
    requires enough { (r : ℕ) → r < length deficits.old → (if wanted then weight_of lit (row_at tables.now.rows r).terms else 0) ≤ slice_index deficits.old r }
    requires open_rows { open_rows.old ≡ are_open C.limit deficits.old }
    ensures count { length deficits.new ≡ length deficits.old }
    ensures lowered { (r : ℕ) → r < length deficits.old → slice_index deficits.new r + (if wanted then weight_of lit (row_at tables.now.rows r).terms else 0) ≡ slice_index deficits.old r }
    ensures open_rows { open_rows.new ≡ are_open C.limit deficits.new }
{
    if !wanted {
        return;
    }
    lower(deficits, open_rows, tables.occurrences(lit));
    lower(deficits, open_rows, tables.units(lit));
}

/// Adds the literal's coefficients to the deficits of its rows, if that is wanted.
fn raise_if<C: Coefficient>(
    wanted: bool,
    deficits: &mut [Counter<C>],
    open_rows: &mut RowSet,
    tables: &Tables<'_, C>,
    lit: Lit,
)
    requires variable { lit.var ≤ tables.now.vars }
    requires count { length deficits.old ≡ length tables.now.rows }
    requires fits { (r : ℕ) → r < length deficits.old → slice_index deficits.old r + (if wanted then weight_of lit (row_at tables.now.rows r).terms else 0) < 2 * C.limit }
    requires open_rows { open_rows.old ≡ are_open C.limit deficits.old }
    ensures count { length deficits.new ≡ length deficits.old }
    ensures raised { (r : ℕ) → r < length deficits.old → slice_index deficits.new r ≡ slice_index deficits.old r + (if wanted then weight_of lit (row_at tables.now.rows r).terms else 0) }
    ensures open_rows { open_rows.new ≡ are_open C.limit deficits.new }
{
    if !wanted {
        return;
    }
    raise(deficits, open_rows, tables.occurrences(lit));
    raise(deficits, open_rows, tables.units(lit));
}

/// Takes the coefficients of the occurrences from the deficits of their rows.
fn lower<C: Coefficient, O: Occurs<C>>(
    deficits: &mut [Counter<C>],
    open_rows: &mut RowSet,
    occurrences: &[O],
)
    requires rows_exist { All (λ o. (O.occurrence o).row < length deficits.old) occurrences.now }
    requires enough { (r : ℕ) → r < length deficits.old → total_by O.occurrence r occurrences.now ≤ slice_index deficits.old r }
    requires open_rows { open_rows.old ≡ are_open C.limit deficits.old }
    ensures lowered { (r : ℕ) → r < length deficits.old → slice_index deficits.new r + total_by O.occurrence r occurrences.now ≡ slice_index deficits.old r }
    ensures open_rows { open_rows.new ≡ are_open C.limit deficits.new }
{
    for occurrence in occurrences {
        let row = occurrence.row();
        deficits[row] -= occurrence.coef();
        open_rows.put(row, Counter::limit().is_below(deficits[row]));
    }
}

/// Adds the coefficients of the occurrences to the deficits of their rows.
fn raise<C: Coefficient, O: Occurs<C>>(
    deficits: &mut [Counter<C>],
    open_rows: &mut RowSet,
    occurrences: &[O],
)
    requires rows_exist { All (λ o. (O.occurrence o).row < length deficits.old) occurrences.now }
    requires fits { (r : ℕ) → r < length deficits.old → slice_index deficits.old r + total_by O.occurrence r occurrences.now < 2 * C.limit }
    requires open_rows { open_rows.old ≡ are_open C.limit deficits.old }
    ensures raised { (r : ℕ) → r < length deficits.old → slice_index deficits.new r ≡ slice_index deficits.old r + total_by O.occurrence r occurrences.now }
    ensures open_rows { open_rows.new ≡ are_open C.limit deficits.new }
{
    for occurrence in occurrences {
        let row = occurrence.row();
        deficits[row] += occurrence.coef();
        open_rows.put(row, Counter::limit().is_below(deficits[row]));
    }
}

/// The deficit of each row before any literal is counted.
fn initial_deficits<C: Coefficient>(
    alloc: Global,
    tables: &Tables<'_, C>,
) -> Result<Vec<Counter<C>>, Memory>
    ensures count { IfOk result (λ deficits. length deficits.items ≡ length tables.now.rows) }
    ensures each { IfOk result (λ deficits. (r : ℕ) → r < length tables.now.rows → IsDeficitOf C.limit tables.now.form.objective [] (row_at tables.now.rows r) (slice_index deficits.items r)) }
{
    let mut deficits = Vec::with_capacity(alloc, tables.len())?;
    for row in 0..tables.len() {
        deficits.push(initial_deficit(tables, row))?;
    }
    Ok(deficits)
}

/// The deficit of the row before any literal is counted.
fn initial_deficit<C: Coefficient>(tables: &Tables<'_, C>, row: usize) -> Counter<C>
    requires { row < length tables.now.rows }
    ensures { IsDeficitOf C.limit tables.now.form.objective [] (row_at tables.now.rows row) result }
{
    tables.facts();
    Counter::limit() - at_no_cost(tables, tables.terms(row)) + tables.degree(row)
}

/// What a row of these terms has at no cost before any literal is counted.
fn at_no_cost<C: Coefficient>(tables: &Tables<'_, C>, terms: RowTerms<'_, C>) -> Counter<C>
    requires variables { All (λ t. t.lit.var ≤ tables.now.vars) (terms_in terms) }
    requires fits { sum_by (λ t. t.coef) (terms_in terms) < C.limit }
    ensures { result ≡ spare tables.now.form.objective [] (terms_in terms.entry) }
{
    match terms {
        RowTerms::Weighted(terms) => costless(tables, terms),
        RowTerms::Units(lits) => costless(tables, lits),
    }
}

/// The sum of the coefficients of literals without cost.
fn costless<C: Coefficient, T: Weighs<C>>(tables: &Tables<'_, C>, items: &[T]) -> Counter<C>
    requires variables { All (λ t. t.lit.var ≤ tables.now.vars) (map T.term items.now) }
    requires fits { sum_by (λ t. t.coef) (map T.term items.now) < C.limit }
    ensures { result ≡ spare tables.now.form.objective [] (map T.term items.now) }
{
    let mut sum = Counter::of(0);
    for item in items {
        if tables.cost(item.lit()).is_zero() {
            sum += item.coef();
        }
    }
    sum
}

/// The open rows: those that need costly literals.
fn open_rows_of<C: Coefficient>(alloc: Global, deficits: &[Counter<C>]) -> Result<RowSet, Memory>
    requires { length deficits.now < 2 ^ 63 }
    ensures { IfOk result (λ open_rows. open_rows ≡ are_open C.limit deficits.now) }
{
    let mut open_rows = RowSet::new(alloc, deficits.len())?;
    for row in 0..deficits.len() {
        open_rows.put(row, Counter::limit().is_below(deficits[row]));
    }
    Ok(open_rows)
}

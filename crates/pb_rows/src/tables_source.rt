//! Tables that engines share.

ghost use Rattle.std.specs.Prelude.{◌≡◌, ◌≤◌, ◌++◌, List, length, All, IfOk};
ghost use Rattle.std.specs.Arc.{arc_value};
ghost use Rattle.pb_normal.specs.NormalForm.{PositiveRow};
ghost use Rattle.pb_rows.specs.declared.TheConstants.{MAX_CLAUSES};
ghost use Rattle.pb_rows.specs.Clauses.{AreClausesOf};
ghost use Rattle.pb_rows.specs.Tables.{constraints_of, AreBeside};

use crate::clauses::Clauses;
use crate::rows::Rows;
use crate::tables::Tables;
use pb_count::Coefficient;
use pb_inst::{Cube, Memory};
use pb_normal::Form;
use std::alloc::{AllocError, Global};
use std::marker::Model;
use std::sync::Arc;

/// An engine's share of rows and clauses. Code that reads them takes `Tables`.
#[derive(Drop)]
pub struct TablesSource<C: Coefficient> {
    rows: Arc<Rows<C>, Global>,
    clauses: Arc<Clauses, Global>,
}

impl<C: Coefficient> Model for TablesSource<C> {
    ghost use Rattle.std.specs.Arc.{arc_value};
    ghost use Rattle.pb_rows.specs.Constraints.{Constraints};
    ghost use Rattle.pb_rows.specs.Tables.{constraints_of, AreBeside};

    ghost Value = { Constraints };

    ghost view = { λ t. constraints_of (arc_value t.rows) (arc_value t.clauses) };

    ghost invariant = { λ t. AreBeside (arc_value t.rows) (arc_value t.clauses) };
}

impl<C: Coefficient> TablesSource<C> {
    /// A share of rows and clauses that were built before. Takes no memory, and fails only where there are 2^63 shares.
    pub fn shared(
        rows: &Arc<Rows<C>, Global>,
        clauses: &Arc<Clauses, Global>,
    ) -> Result<TablesSource<C>, Memory>
        requires beside { AreBeside (arc_value rows.now) (arc_value clauses.now) }
        ensures { IfOk result (λ tables. tables ≡ constraints_of (arc_value rows.now) (arc_value clauses.now)) }
    {
        let rows = Arc::try_clone(rows)?;
        let clauses = Arc::try_clone(clauses)?;
        Ok(TablesSource { rows, clauses })
    }

    /// The rows of the form, and the clauses of at most `MAX_CLAUSES` cubes that are to be false.
    pub fn new(alloc: Global, form: &Form<C>, negated: &[Cube]) -> Result<TablesSource<C>, Memory>
        requires few { length negated.now ≤ MAX_CLAUSES }
        requires variables { All (λ cube. All (λ l. l.var ≤ form.now.vars) cube) negated.now }
        ensures form { IfOk result (λ tables. tables.form ≡ form.now) }
        ensures vars { IfOk result (λ tables. tables.vars ≡ form.now.vars) }
        ensures rows { IfOk result (λ tables. (clauses : List PositiveRow) × (tables.rows ≡ form.now.rows ++ clauses) × AreClausesOf negated.now clauses) }
    {
        let rows = Rows::new(alloc, form)?;
        let clauses = Clauses::new(alloc, &rows, negated)?;
        let rows = shared_in(alloc, rows)?;
        let clauses = shared_in(alloc, clauses)?;
        Ok(TablesSource { rows, clauses })
    }

    /// The tables.
    pub fn tables(&self) -> Tables<'_, C>
        ensures { result ≡ self.now }
    {
        Tables::new(&self.rows, &self.clauses)
    }
}

/// The value in memory that its owners share. Fails where memory is refused.
pub fn shared_in<T: Drop>(alloc: Global, value: T) -> Result<Arc<T, Global>, Memory>
    ensures { IfOk result (λ shared. arc_value shared ≡ value) }
{
    match Arc::new(alloc, value) {
        Ok(shared) => Ok(shared),
        Err(_) => Err(AllocError),
    }
}

//! What the objective says of each literal.

ghost use Rattle.std.specs.Prelude.{◌≡◌, ◌*◌, ◌<◌, ◌≤◌, IfOk, All};
ghost use Rattle.pb_normal.specs.NormalForm.{total_coefficient};
ghost use Rattle.pb_rows.specs.Costs.{AreCosts};

use crate::occurrences::place_of;
use pb_count::{Coefficient, Counter};
use pb_inst::Memory;
use pb_normal::FormTerm;
use std::alloc::Global;

/// The objective's coefficient of each literal, at the literal's place, and 0 where it has none.
pub fn costs_of<C: Coefficient>(
    alloc: Global,
    objective: &[FormTerm<C>],
    vars: u32,
) -> Result<Vec<Counter<C>>, Memory>
    requires variables { All (λ t. t.lit.var ≤ vars) objective.now }
    requires fits { total_coefficient objective.now < C.limit }
    ensures { IfOk result (λ costs. AreCosts vars objective.now costs.items) }
{
    let mut costs = vec![in alloc; Counter::of(0); 2 * vars as usize]?;
    for term in objective {
        costs[place_of(term.lit())] += term.coef();
    }
    Ok(costs)
}

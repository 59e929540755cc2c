//! The clause that says that some literal of a cube is false.

ghost use Rattle.std.specs.Prelude.{◌≡◌, ◌-◌, ◌<◌, IfOk, None, true, length, slice_index_or};
ghost use Rattle.std.specs.Option.{ForSome};
ghost use Rattle.std.specs.List.Sorted.{IsNonDecreasingBy};
ghost use Rattle.pb_rows.specs.Clauses.{IsContradictory, IsClauseOf, clause_row};

use pb_inst::{Lit, Memory};
use std::alloc::Global;

/// The literals of the clause by rising variable, or none where the cube holds a literal and its negation, so that the cube
/// is always false.
pub fn negated_cube(alloc: Global, cube: &[Lit]) -> Result<Option<Vec<Lit>>, Memory>
    ensures none { IfOk result (λ clause. clause ≡ None → IsContradictory cube.now) }
    ensures some { IfOk result (λ clause. ForSome clause (λ lits. IsClauseOf cube.now (clause_row lits.items))) }
{
    let mut sorted = Vec::new(alloc);
    sorted.extend_from_slice(cube)?;
    sorted.sort_unstable_by_key(|lit| lit.var());
    negated_by_variable(alloc, &sorted)
}

/// The clause where the cube's literals stand by variable.
fn negated_by_variable(alloc: Global, cube: &[Lit]) -> Result<Option<Vec<Lit>>, Memory>
    requires sorted { IsNonDecreasingBy (λ l. l.var) cube.now }
    ensures none { IfOk result (λ clause. clause ≡ None → IsContradictory cube.now) }
    ensures some { IfOk result (λ clause. ForSome clause (λ lits. IsClauseOf cube.now (clause_row lits.items))) }
{
    let mut clause = Vec::with_capacity(alloc, cube.len())?;
    for lit in cube {
        match last_sign(&clause, lit.var()) {
            None => clause.push(lit.negate())?,
            Some(sign) => {
                if sign == lit.positive() {
                    return Ok(None);
                }
            }
        }
    }
    Ok(Some(clause))
}

/// The sign of the last literal, where that is of the variable.
fn last_sign(lits: &[Lit], var: u32) -> Option<bool>
    ensures some { ForSome result (λ sign. (0 < length lits.now) × (slice_index_or lits.now (length lits.now - 1) (record { var = 1; positive = true }) ≡ record { var = var; positive = sign })) }
    ensures none { result ≡ None → 0 < length lits.now → ¬ ((slice_index_or lits.now (length lits.now - 1) (record { var = 1; positive = true })).var ≡ var) }
{
    match lits.last() {
        Some(last) => {
            if last.var() == var {
                Some(last.positive())
            } else {
                None
            }
        }
        None => None,
    }
}

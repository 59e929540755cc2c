//! Which rows forced the literals of a trail. No answer depends on this, so nothing is promised about it.
//! Source: [MS99]

use pb_inst::{Lit, Memory};
use std::alloc::Global;

/// Stands for no row.
pub const NO_ROW: usize = usize::MAX;

/// For each variable, by its index from 0 on, the row that forced its last literal on the trail, or `NO_ROW`.
#[derive(Drop)]
pub struct Reasons {
    rows: Vec<usize>,
}

impl Reasons {
    /// Reasons for `vars` variables, none of which a row has forced.
    pub fn new(alloc: Global, vars: usize) -> Result<Reasons, Memory> {
        let rows = vec![in alloc; NO_ROW; vars]?;
        Ok(Reasons { rows })
    }

    /// Notes that the row, or none, forced the literal.
    #[inline]
    pub fn note(&mut self, lit: Lit, row: usize) {
        if let Some(reason) = self.rows.get_mut(lit.var() as usize - 1) {
            *reason = row;
        }
    }

    /// The row that was noted for the variable last.
    pub fn row_of(&self, var: u32) -> usize {
        match self.rows.get((var as usize).wrapping_sub(1)) {
            Some(row) => *row,
            None => NO_ROW,
        }
    }
}

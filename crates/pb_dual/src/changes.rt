//! Changes of multipliers that can be taken back.

use pb_count::{Coefficient, Counter};
use std::marker::Model;

/// A row whose multiplier was changed, and what it was before.
#[derive(Clone, Copy)]
pub struct Change<C: Coefficient> {
    pub row: usize,
    pub before: Counter<C>,
}

impl<C: Coefficient> Model for Change<C> {
    ghost use Rattle.pb_dual.specs.Changes.{Change as Changed};

    ghost Value = { Changed };

    ghost view = { λ c. record { row = c.row; before = c.before } };

    ghost inverse = { λ c. record { row = c.row; before = c.before } };
}

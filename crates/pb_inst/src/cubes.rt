//! Lists of literals that are to hold together.

ghost use Rattle.std.specs.Prelude.{◌≡◌, ◌≤◌, length, IfOk, IsOk};

use crate::{Lit, Memory};
use smallvec::SmallVec;
use std::alloc::Global;
use std::marker::Model;

/// A list of literals that are to be true together, up to 16 of them kept inline. It may be empty, repeat a literal or
/// hold a literal and its negation. Contracts see the list.
#[derive(Drop)]
pub struct Cube {
    lits: SmallVec<Lit, 16>,
}

impl Model for Cube {
    ghost use Rattle.std.specs.Prelude.{List};
    ghost use Rattle.pb_inst.specs.Literal.{Literal};

    ghost Value = { List Literal };

    ghost view = { λ c. c.lits.items };
}

impl Cube {
    /// The cube of the literals, in order. Up to 16 take no memory; with more it fails where memory is refused.
    pub fn new(alloc: Global, lits: &[Lit]) -> Result<Cube, Memory>
        ensures made { IfOk result (λ cube. cube ≡ lits.now) }
        ensures inline { length lits.now ≤ 16 → IsOk result }
    {
        let lits = SmallVec::from_slice(alloc, lits)?;
        Ok(Cube { lits })
    }

    /// The literals that the cube was made of, in order.
    pub fn lits(&self) -> &[Lit]
        ensures { result.now ≡ self.now }
    {
        self.lits.as_slice()
    }
}

//! Linear constraints over literals, and the list of them that an instance keeps.

ghost use Rattle.std.specs.Prelude.{◌≡◌, ℕ, ◌+◌, ◌<◌, ◌≤◌, [], ◌∷◌, ◌++◌, List, length, map, sum_by, slice_get, slice_range, Some, OnOk, OnErr, pos};

use crate::flat_terms::TermList;
use crate::{Lit, MAX_TERMS, Memory, Number, Terms};
use std::alloc::Global;
use std::marker::Model;

/// A coefficient, and the literal whose value it is multiplied by.
#[derive(Clone, Copy, Debug, PartialEq, Eq)]
pub struct Term {
    /// Any number, 0 and negative ones too.
    pub coef: Number,
    /// The literal, worth 1 where it is true, else 0.
    pub lit: Lit,
}

/// How the sum of a constraint's terms relates to its bound.
#[derive(Clone, Copy, Debug, PartialEq, Eq)]
pub enum Relation {
    /// `>=`
    AtLeast,
    /// `<=`
    AtMost,
    /// `=`
    Equal,
}

/// A constraint as it is read back: the sum of the terms stands in the relation to the bound.
#[derive(Drop)]
pub struct Constraint<'a> {
    /// The terms as they were added, repeats included.
    pub terms: Terms<'a>,
    /// How the sum of the terms must relate to the bound.
    pub relation: Relation,
    /// The number on the right side.
    pub bound: Number,
}

/// Where a constraint's terms lie in the list of all terms, and the rest of the constraint. `MAX_TERMS` fits 32 bits.
#[derive(Clone, Copy)]
struct Row {
    start: u32,
    end: u32,
    relation: Relation,
    bound: Number,
}

// Large instances are kept flat: a constraint takes at most 32 bytes besides its terms.
const _: () = prove!(size_of::<Row>() <= 32);

/// Constraints in the order in which they were added, over one list of all their terms. Contracts see the list of them.
#[derive(Drop)]
pub struct ConstraintList {
    terms: TermList,
    rows: Vec<Row>,
}

impl Model for ConstraintList {
    ghost use Rattle.std.specs.Prelude.{List};
    ghost use Rattle.pb_inst.specs.Problem.{LinearConstraint};

    ghost Value = { List LinearConstraint };

    ghost use Rattle.pb_inst.specs.Rows.{constraints_of_rows, AreRowsOf};

    ghost view = { λ l. constraints_of_rows l.terms l.rows.items };

    ghost invariant = { λ l. AreRowsOf l.terms l.rows.items };
}

impl ConstraintList {
    ghost use Rattle.pb_inst.specs.Constraints.{linear, unit_term, clause_constraint};
    ghost use Rattle.pb_inst.specs.Limits.{constraint_terms};

    /// The empty list. Takes no memory.
    pub fn new(alloc: Global) -> ConstraintList
        ensures { result ≡ [] }
    {
        ConstraintList {
            terms: TermList::new(alloc),
            rows: Vec::new(alloc),
        }
    }

    /// The number of constraints.
    pub fn len(&self) -> usize
        ensures { result ≡ length self.now }
    {
        self.rows.len()
    }

    /// The number of terms of all constraints together.
    pub fn term_count(&self) -> usize
        ensures { result ≡ constraint_terms self.now }
    {
        self.terms.len()
    }

    /// The i-th constraint, from 0.
    pub fn get(&self, i: usize) -> Constraint<'_>
        requires { i < length self.now }
        ensures { slice_get self.now i ≡ Some (linear result) }
    {
        let row = self.rows[i];
        Constraint {
            terms: self.terms.part(row.start as usize, row.end as usize),
            relation: row.relation,
            bound: row.bound,
        }
    }

    /// Adds a constraint at the end, or leaves the list unchanged where memory runs out.
    pub fn push(&mut self, terms: &[Term], relation: Relation, bound: Number) -> Result<(), Memory>
        requires { constraint_terms self.old + length terms.now ≤ MAX_TERMS }
        ensures added { OnOk result (self.new ≡ self.old ++ record { terms = terms.now; relation = relation; bound = bound } ∷ []) }
        ensures unchanged { OnErr result (self.new ≡ self.old) }
    {
        // Room for the row comes first, so that nothing can fail once the terms are there.
        self.rows.reserve(1)?;
        let start = self.terms.len() as u32;
        self.terms.extend_from_slice(terms)?;
        let end = self.terms.len() as u32;
        self.rows.push_reserved(Row {
            start,
            end,
            relation,
            bound,
        });
        Ok(())
    }

    /// Adds the constraint that some literal is true, or leaves the list unchanged where memory runs out.
    pub fn push_clause(&mut self, lits: &[Lit]) -> Result<(), Memory>
        requires { constraint_terms self.old + length lits.now ≤ MAX_TERMS }
        ensures added { OnOk result (self.new ≡ self.old ++ clause_constraint lits.now ∷ []) }
        ensures unchanged { OnErr result (self.new ≡ self.old) }
    {
        self.rows.reserve(1)?;
        let start = self.terms.len() as u32;
        self.terms.extend_with_units(lits)?;
        let end = self.terms.len() as u32;
        self.rows.push_reserved(Row {
            start,
            end,
            relation: Relation::AtLeast,
            bound: 1,
        });
        Ok(())
    }
}

//! Lists of literals kept flat: one list of literals, and where each list lies in it.

ghost use Rattle.std.specs.Prelude.{◌≡◌, ◌+◌, ◌^◌, ◌<◌, ◌≤◌, [], ◌∷◌, ◌++◌, length, slice_index_or, All, OnOk, OnErr};

use crate::index::part;
use pb_inst::{Lit, Memory};
use std::alloc::Global;
use std::marker::Model;

/// Where a list lies in the list of all literals.
#[derive(Clone, Copy)]
struct LiteralSpan {
    start: usize,
    end: usize,
}

/// Lists of literals in the order in which they were added. Contracts see the list of them.
#[derive(Drop)]
pub struct LiteralLists {
    lits: Vec<Lit>,
    spans: Vec<LiteralSpan>,
}

impl Model for LiteralLists {
    ghost use Rattle.std.specs.Prelude.{List};
    ghost use Rattle.pb_inst.specs.Literal.{Literal};

    ghost Value = { List (List Literal) };

    ghost use Rattle.pb_rows.specs.LiteralLists.{lists_of_spans, AreLiteralSpans};

    ghost view = { λ l. lists_of_spans l.lits.items l.spans.items };

    ghost invariant = { λ l. AreLiteralSpans l.lits.items l.spans.items };
}

impl LiteralLists {
    /// No lists. Takes no memory.
    pub fn new(alloc: Global) -> LiteralLists
        ensures { result ≡ [] }
    {
        LiteralLists {
            lits: Vec::new(alloc),
            spans: Vec::new(alloc),
        }
    }

    /// What holds of all lists of literals. It does nothing at run time.
    #[inline(always)]
    pub fn facts(&self)
        ensures { All (λ lits. length lits < 2 ^ 63) self.now }
    {
        let _lits = &self.lits;
    }

    /// The number of lists.
    pub fn len(&self) -> usize
        ensures value { result ≡ length self.now }
        ensures small { result < 2 ^ 63 }
        ensures short { All (λ lits. length lits < 2 ^ 63) self.now }
    {
        self.spans.len()
    }

    /// The i-th list, from 0.
    pub fn list(&self, i: usize) -> &[Lit]
        requires { i < length self.now }
        ensures { result.now ≡ slice_index_or self.now i [] }
    {
        let span = self.spans[i];
        part(&self.lits, span.start, span.end)
    }

    /// Adds the list at the end, or leaves all as it was where memory runs out.
    pub fn push(&mut self, lits: &[Lit]) -> Result<(), Memory>
        ensures unchanged { OnErr result (self.new ≡ self.old) }
        ensures added { OnOk result (self.new ≡ self.old ++ lits.now ∷ []) }
    {
        self.spans.reserve(1)?;
        let start = self.lits.len();
        self.lits.extend_from_slice(lits)?;
        let end = self.lits.len();
        self.spans.push_reserved(LiteralSpan { start, end });
        Ok(())
    }
}

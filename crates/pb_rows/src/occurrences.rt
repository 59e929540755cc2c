//! Where literals occur.

ghost use Rattle.std.specs.Prelude.{◌≡◌, ◌+◌, ◌*◌, ◌^◌, ◌<◌, ◌≤◌, ◌++◌, All, OnOk, map};
ghost use Rattle.pb_rows.specs.Index.{literal_place, entries_of_row};

use crate::weighs::Weighs;
use pb_count::{Coefficient, Counter};
use pb_inst::{Lit, Memory};
use std::marker::Model;

/// Names a row in which a literal occurs, and the coefficient that it has there.
pub trait Occurs<C: Coefficient>: Copy {
    ghost use Rattle.pb_rows.specs.Occurrences.{Occurrence as Weighted};

    /// The row and the coefficient.
    ghost occurrence: { Self → Weighted };

    fn row(self) -> usize
        ensures { result ≡ (occurrence self).row };

    fn coef(self) -> Counter<C>
        ensures { result ≡ (occurrence self).coef };
}

/// A row in which a literal occurs, and with which coefficient.
#[derive(Clone, Copy)]
pub struct Occurrence<C: Coefficient> {
    pub row: u32,
    pub coef: Counter<C>,
}

impl<C: Coefficient> Model for Occurrence<C> {
    ghost use Rattle.pb_rows.specs.Occurrences.{Occurrence as Weighted};

    ghost Value = { Weighted };

    ghost view = { λ o. record { row = o.row; coef = o.coef } };

    ghost inverse = { λ o. record { row = o.row; coef = o.coef } };
}

impl<C: Coefficient> Occurs<C> for Occurrence<C> {
    ghost occurrence = { λ o. o };

    #[inline]
    fn row(self) -> usize {
        self.row as usize
    }

    #[inline]
    fn coef(self) -> Counter<C> {
        self.coef
    }
}

/// A row in which a literal occurs with the coefficient 1, which is not stored. Contracts see an `Occurrence`.
#[derive(Clone, Copy)]
pub struct UnitOccurrence {
    pub row: u32,
}

const _: () = prove!(size_of::<UnitOccurrence>() == 4);

impl Model for UnitOccurrence {
    ghost use Rattle.pb_rows.specs.Occurrences.{Occurrence as Weighted};

    ghost Value = { Weighted };

    ghost view = { λ o. record { row = o.row; coef = 1 } };

    ghost inverse = { λ o. record { row = o.row } };
}

impl UnitOccurrence {
    pub fn new(row: u32) -> UnitOccurrence
        ensures { result ≡ record { row = row; coef = 1 } }
    {
        UnitOccurrence { row }
    }
}

impl<C: Coefficient> Occurs<C> for UnitOccurrence {
    ghost occurrence = { λ o. o };

    #[inline]
    fn row(self) -> usize {
        self.row as usize
    }

    #[inline]
    fn coef(self) -> Counter<C> {
        Counter::of(1)
    }
}

/// An occurrence, and the place of its literal. The parts of the occurrence stand beside the place, so that an entry takes no
/// more room than an occurrence alone, because tables being built hold one of each for every term. Contracts see an
/// `Occurrence` in it.
#[derive(Clone, Copy)]
pub struct Entry<C: Coefficient> {
    pub place: u32,
    pub row: u32,
    pub coef: Counter<C>,
}

const _: () = prove!(size_of::<Entry<u64>>() == 16);

impl<C: Coefficient> Model for Entry<C> {
    ghost use Rattle.pb_rows.specs.Occurrences.{Entry as Placed};

    ghost Value = { Placed };

    ghost view = { λ e. record { place = e.place; occurrence = record { row = e.row; coef = e.coef } } };

    ghost inverse = { λ e. record { place = e.place; row = e.occurrence.row; coef = e.occurrence.coef } };
}

/// The place of a literal: two for each variable, the negation first.
pub fn place_of(lit: Lit) -> usize
    ensures place { result ≡ literal_place lit }
    ensures within { (1 ≤ lit.var) × (result < 2 * lit.var) }
    ensures small { result < 2 ^ 32 }
{
    2 * (lit.var() as usize - 1) + usize::from(lit.positive())
}

/// Adds where the literals of a row occur.
pub fn push_entries<C: Coefficient, T: Weighs<C>>(
    entries: &mut Vec<Entry<C>>,
    row: u32,
    items: &[T],
) -> Result<(), Memory>
    ensures entries { OnOk result (entries.new.items ≡ entries.old.items ++ entries_of_row row (map T.term items.now)) }
    ensures from_one { OnOk result (All (λ item. 1 ≤ (T.term item).lit.var) items.now) }
{
    for item in items {
        let place = place_of(item.lit()) as u32;
        let coef = item.coef();
        entries.push(Entry { place, row, coef })?;
    }
    Ok(())
}

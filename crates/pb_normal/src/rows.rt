//! Rows kept flat: one list of terms, and where each row's terms lie in it. A row is saturated when it is added.
//! Source: [CK05]

ghost use Rattle.std.specs.Prelude.{◌≡◌, ◌+◌, ◌<◌, ◌≤◌, [], ◌∷◌, ◌++◌, All, length, map, slice_get, slice_range, IsSomeAnd, OnOk, OnErr};
ghost use Rattle.pb_normal.specs.declared.TheConstants.{MAX_ROW_TERMS};
ghost use Rattle.pb_normal.specs.Layout.{row_terms};
ghost use Rattle.pb_normal.specs.Fits.{HasSumsBelow};
ghost use Rattle.pb_normal.specs.Merging.{clipped, clipped_row};

use crate::terms::{FormTerm, PositiveTerm};
use pb_count::{Coefficient, Counter};
use pb_inst::{Magnitude, Memory};
use std::alloc::Global;
use std::marker::Model;

/// Where a row's terms lie in the list of all terms, and its degree.
#[derive(Clone, Copy)]
struct Span<C: Coefficient> {
    start: u32,
    end: u32,
    degree: Counter<C>,
}

/// Rows in the order in which they were added. Contracts see the list of them.
#[derive(Drop)]
pub struct RowList<C: Coefficient> {
    terms: Vec<FormTerm<C>>,
    spans: Vec<Span<C>>,
}

impl<C: Coefficient> Model for RowList<C> {
    ghost use Rattle.std.specs.Prelude.{List};
    ghost use Rattle.pb_normal.specs.NormalForm.{PositiveRow};

    ghost Value = { List PositiveRow };

    ghost use Rattle.pb_normal.specs.Layout.{rows_of_spans, AreSpansWithin};

    ghost view = { λ l. rows_of_spans l.terms.items l.spans.items };

    ghost invariant = { λ l. AreSpansWithin C.limit l.terms.items l.spans.items };
}

impl<C: Coefficient> RowList<C> {
    pub fn new(alloc: Global) -> RowList<C>
        ensures { result ≡ [] }
    {
        RowList {
            terms: Vec::new(alloc),
            spans: Vec::new(alloc),
        }
    }

    /// What holds of every list of rows. It does nothing at run time.
    #[inline(always)]
    pub fn facts(&self)
        ensures { All (λ row. HasSumsBelow C.limit row) self.now }
    {
        let _spans = &self.spans;
    }

    pub fn len(&self) -> usize
        ensures value { result ≡ length self.now }
        ensures fits { All (λ row. HasSumsBelow C.limit row) self.now }
    {
        self.spans.len()
    }

    /// The number of terms of all rows.
    pub fn terms_len(&self) -> usize
        ensures { result ≡ row_terms self.now }
    {
        self.terms.len()
    }

    pub fn degree(&self, i: usize) -> Counter<C>
        requires { i < length self.now }
        ensures { IsSomeAnd (slice_get self.now i) (λ row. row.degree ≡ result) }
    {
        self.spans[i].degree
    }

    pub fn terms(&self, i: usize) -> &[FormTerm<C>]
        requires { i < length self.now }
        ensures { IsSomeAnd (slice_get self.now i) (λ row. row.terms ≡ result.now) }
    {
        let Span { start, end, .. } = self.spans[i];
        part(&self.terms, start as usize, end as usize)
    }

    /// Adds the row of these terms at the end, with coefficients cut down to the degree, or leaves the list unchanged where
    /// memory runs out.
    pub fn push(&mut self, terms: &[PositiveTerm], degree: Magnitude) -> Result<(), Memory>
        requires room { row_terms self.old + length terms.now ≤ MAX_ROW_TERMS }
        requires fits { HasSumsBelow C.limit (clipped_row degree terms.now) }
        ensures unchanged { OnErr result (self.new ≡ self.old) }
        ensures added { OnOk result (self.new ≡ self.old ++ clipped_row degree terms.now ∷ []) }
    {
        self.spans.reserve(1)?;
        let start = self.terms.len() as u32;
        extend_with_clipped(&mut self.terms, terms, degree)?;
        let end = self.terms.len() as u32;
        let degree = Counter::fitting(degree);
        self.spans.push_reserved(Span { start, end, degree });
        Ok(())
    }
}

/// The terms from `start` up to `end`.
fn part<C: Coefficient>(terms: &[FormTerm<C>], start: usize, end: usize) -> &[FormTerm<C>]
    requires ordered { start ≤ end }
    requires within { end ≤ length terms.now }
    ensures { result.now ≡ slice_range terms.now start end }
{
    &terms[start..end]
}

/// Adds the terms with coefficients cut down to the degree, or nothing where memory runs out.
fn extend_with_clipped<C: Coefficient>(
    all: &mut Vec<FormTerm<C>>,
    terms: &[PositiveTerm],
    degree: Magnitude,
) -> Result<(), Memory>
    requires fits { degree < C.limit }
    ensures added { OnOk result (all.new.items ≡ all.old.items ++ map (clipped degree) terms.now) }
    ensures unchanged { OnErr result (all.new.items ≡ all.old.items) }
{
    all.reserve(terms.len())?;
    for term in terms {
        let coef = Counter::fitting(term.coef.min(degree));
        all.push_reserved(FormTerm::new(coef, term.lit));
    }
    Ok(())
}

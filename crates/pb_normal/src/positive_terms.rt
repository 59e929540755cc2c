//! Terms that a normal form lends, read alike at either width.

ghost use Rattle.std.specs.Prelude.{◌≡◌, ◌↔◌, ◌<◌, length, slice_get, Some, IsTrue};

use crate::terms::{FormTerm, PositiveTerm};
use crate::widths::Width;
use pb_count::Coefficient;
use std::marker::Model;

/// The terms of a row or of the objective of a normal form, which it lends. Contracts see the list of them.
#[derive(Drop)]
pub struct PositiveTerms<'a> {
    at_width: Width<&'a [FormTerm], &'a [FormTerm<u128>]>,
}

impl<'a> Model for PositiveTerms<'a> {
    ghost use Rattle.std.specs.Prelude.{List};
    ghost use Rattle.pb_normal.specs.declared.terms.PositiveTerm.{PositiveTerm};
    ghost use Rattle.pb_normal.specs.Widths.{lent};

    ghost Value = { List PositiveTerm };

    ghost view = { λ t. lent t.at_width };
}

impl<'a> PositiveTerms<'a> {
    /// Terms of a form of 64 bits.
    pub(crate) fn narrow(terms: &'a [FormTerm]) -> PositiveTerms<'a>
        ensures { result ≡ terms.now }
    {
        PositiveTerms {
            at_width: Width::Narrow(terms),
        }
    }

    /// Terms of a form of 128 bits.
    pub(crate) fn wide(terms: &'a [FormTerm<u128>]) -> PositiveTerms<'a>
        ensures { result ≡ terms.now }
    {
        PositiveTerms {
            at_width: Width::Wide(terms),
        }
    }

    /// The number of terms.
    pub fn len(&self) -> usize
        ensures { result ≡ length self.now }
    {
        match &self.at_width {
            Width::Narrow(terms) => terms.len(),
            Width::Wide(terms) => terms.len(),
        }
    }

    /// Whether there are no terms.
    pub fn is_empty(&self) -> bool
        ensures { IsTrue result ↔ (length self.now ≡ 0) }
    {
        self.len() == 0
    }

    /// The i-th term, from 0.
    pub fn get(&self, i: usize) -> PositiveTerm
        requires { i < length self.now }
        ensures { slice_get self.now i ≡ Some result }
    {
        match &self.at_width {
            Width::Narrow(terms) => term_at(terms, i),
            Width::Wide(terms) => term_at(terms, i),
        }
    }
}

/// The i-th of the terms.
fn term_at<C: Coefficient>(terms: &[FormTerm<C>], i: usize) -> PositiveTerm
    requires { i < length terms.now }
    ensures { slice_get terms.now i ≡ Some result }
{
    terms[i].positive()
}

//! A statement, as far as it has been read.
ghost use Rattle.std.specs.Prelude.{◌≡◌, OnOk, nat_lt};
ghost use Rattle.pb_inst.specs.declared.limits.TheConstants.{SUM_BOUND};
ghost use Rattle.pb_read.specs.Refusal.{first_kind};
ghost use Rattle.pb_read.specs.Opb as opb;
ghost use Rattle.pb_read.specs.Capped.{read_back};
ghost use Rattle.pb_read.specs.Building.{signed};
ghost use Rattle.pb_read.specs.Places.{is_start};
ghost use Rattle.pb_read.specs.Drafts.{number_after, relation_after, within_bound, good_literal, with_literal, gather, blank_draft, draft_faults};

use crate::fault::ReadKind;
use crate::opb::form::Place;
use crate::opb::token::Token;
use pb_inst::{Lit, MAX_VARS, Magnitude, Memory, Number, Relation, SUM_BOUND, Term};
use std::alloc::Global;
use std::marker::Model;

/// What was gathered of the tokens of a statement. It keeps no token: only the terms grow, and the next statement uses their room
/// again.
#[derive(Drop)]
pub(crate) struct Draft {
    place: Place,
    is_objective: bool,
    after_literal: bool,
    has_product: bool,
    has_bad_index: bool,
    /// The absolute values of all numbers, added up.
    sum: Magnitude,
    /// The last number.
    number: Number,
    /// The last relation.
    relation: Relation,
    terms: Vec<Term>,
}

impl Model for Draft {
    ghost use Rattle.pb_read.specs.Drafts.{Gathered};

    ghost Value = { Gathered };

    ghost view = { λ d. record {
      place = d.place;
      is_objective = d.is_objective;
      after_literal = d.after_literal;
      has_product = d.has_product;
      has_bad_index = d.has_bad_index;
      sum = d.sum;
      number = d.number;
      relation = d.relation;
      terms = d.terms.items;
    } };
}

/// The number with this sign and size, or 0 where it is over the bound on sums.
fn number_within(negative: bool, size: Magnitude) -> Number
    ensures { result ≡ within_bound (signed negative size) }
{
    if size > SUM_BOUND {
        return 0;
    }
    let number = size as Number;
    if negative { -number } else { number }
}

fn number_after(before: Number, token: Token) -> Number
    ensures { result ≡ number_after before (read_back token) }
{
    match token {
        Token::Number { negative, size } => number_within(negative, size),
        _ => before,
    }
}

fn relation_after(before: Relation, token: Token) -> Relation
    ensures { result ≡ relation_after before (read_back token) }
{
    match token {
        Token::Related(relation) => relation,
        _ => before,
    }
}

fn is_literal(token: Token) -> bool
    ensures { result ≡ opb.is_literal (read_back token) }
{
    matches!(token, Token::Literal { .. })
}

fn is_min(token: Token) -> bool
    ensures { result ≡ opb.is_min (read_back token) }
{
    matches!(token, Token::Min)
}

fn has_bad_index(token: Token) -> bool
    ensures { result ≡ opb.has_bad_index (read_back token) }
{
    match token {
        Token::Literal { var, .. } => var == 0 || var > MAX_VARS,
        _ => false,
    }
}

/// The absolute value of a number.
fn size(token: Token) -> Magnitude
    ensures { result ≡ opb.size (read_back token) }
{
    match token {
        Token::Number { size, .. } => size,
        _ => 0,
    }
}

/// The literal of a token, where its index is in range.
fn good_literal(token: Token) -> Option<Lit>
    ensures { result ≡ good_literal (read_back token) }
{
    match token {
        Token::Literal { positive, var } => {
            if has_bad_index(token) {
                return None;
            }
            Lit::new(var, positive).ok()
        }
        _ => None,
    }
}

/// Adds the term of the number for the literal, where there is one.
fn push_term(terms: &mut Vec<Term>, coef: Number, lit: Option<Lit>) -> Result<(), Memory>
    ensures { OnOk result (terms.new.items ≡ with_literal coef terms.old.items lit) }
{
    if let Some(lit) = lit {
        terms.push(Term { coef, lit })?;
    }
    Ok(())
}

impl Draft {
    pub(crate) fn new(alloc: Global) -> Draft
        ensures { result ≡ blank_draft }
    {
        Draft {
            place: Place::Start,
            is_objective: false,
            after_literal: false,
            has_product: false,
            has_bad_index: false,
            sum: 0,
            number: 0,
            relation: Relation::Equal,
            terms: Vec::new(alloc),
        }
    }

    /// Starts again, and keeps the room for terms.
    pub(crate) fn clear(&mut self)
        ensures { self.new ≡ blank_draft }
    {
        self.place = Place::Start;
        self.is_objective = false;
        self.after_literal = false;
        self.has_product = false;
        self.has_bad_index = false;
        self.sum = 0;
        self.number = 0;
        self.relation = Relation::Equal;
        self.terms.clear();
    }

    /// Takes the next token.
    pub(crate) fn take(&mut self, token: Token) -> Result<(), Memory>
        ensures { OnOk result (self.new ≡ gather self.old (read_back token)) }
    {
        push_term(&mut self.terms, self.number, good_literal(token))?;
        let is_literal = is_literal(token);
        self.is_objective = self.is_objective || (self.is_new() && is_min(token));
        self.has_product = self.has_product || (self.after_literal && is_literal);
        self.after_literal = is_literal;
        self.has_bad_index = self.has_bad_index || has_bad_index(token);
        self.sum = self.sum.saturating_add(size(token));
        self.number = number_after(self.number, token);
        self.relation = relation_after(self.relation, token);
        self.place = self.place.next(token);
        Ok(())
    }

    /// Whether no token was taken.
    pub(crate) fn is_new(&self) -> bool
        ensures { result ≡ is_start self.now.place }
    {
        self.place.is_start()
    }

    /// The first fault in the form of a whole statement; `first` tells whether it is the text's first.
    pub(crate) fn form_fault(&self, first: bool) -> Option<ReadKind>
        ensures { result ≡ first_kind (draft_faults first self.now) }
    {
        if self.is_objective && !first {
            Some(ReadKind::LateObjective)
        } else if !self.place.is_whole() {
            Some(ReadKind::Syntax)
        } else if self.has_product {
            Some(ReadKind::NonLinear)
        } else if self.has_bad_index {
            Some(ReadKind::BadVariable)
        } else {
            None
        }
    }

    pub(crate) fn is_objective(&self) -> bool
        ensures { result ≡ self.now.is_objective }
    {
        self.is_objective
    }

    /// Whether the sum of the numbers is over the bound on sums.
    pub(crate) fn is_too_large(&self) -> bool
        ensures { result ≡ nat_lt SUM_BOUND self.now.sum }
    {
        self.sum > SUM_BOUND
    }

    pub(crate) fn number(&self) -> Number
        ensures { result ≡ self.now.number }
    {
        self.number
    }

    pub(crate) fn relation(&self) -> Relation
        ensures { result ≡ self.now.relation }
    {
        self.relation
    }

    pub(crate) fn terms(&self) -> &[Term]
        ensures { result.now ≡ self.now.terms }
    {
        &self.terms
    }
}

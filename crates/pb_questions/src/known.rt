//! Answers that are known from earlier questions. Someone who asks click by click often asks for what is known already: under
//! more assumptions nothing is feasible where nothing was under some of them, and the least assignment under some of them is
//! still the least one where it makes all of them true.

ghost use Rattle.std.specs.Prelude.{◌≡◌, ◌≤◌, All, Contains, IfOk, IfSome, IsTrue, length};
ghost use Rattle.pb_inst.specs.Problem.{Problem};
ghost use Rattle.pb_questions.specs.Known.{AreAnswersOf, IsAnswerOf, Tells};
ghost use Rattle.pb_questions.specs.Under.{HoldsLeastUnder};

use crate::questions::meets;
use pb_inst::{Assignment, Best, Lit, Memory};
use std::alloc::Global;

/// The most assumptions under which an answer is kept: comparing more would take as long as a short search.
const MOST_LITERALS: usize = 256;

/// What is known of assumptions.
#[derive(Clone, Copy, Debug, PartialEq, Eq)]
pub enum Kind {
    /// Nothing yet.
    Open,
    /// The least assignment under them.
    Least,
    /// That nothing is feasible under them.
    Infeasible,
}

/// The answer to an earlier question.
#[derive(Drop)]
pub struct KnownAnswer {
    /// What was assumed.
    literals: Vec<Lit>,
    /// The least assignment, where there is one.
    values: Assignment,
    kind: Kind,
}

impl KnownAnswer {
    /// Room for an answer on an instance of `vars` variables. Fails where memory is refused.
    fn new(alloc: Global, vars: u32) -> Result<KnownAnswer, Memory>
        ensures count { IfOk result (λ known. length known.values ≡ vars) }
        ensures open { IfOk result (λ known. known.kind ≡ Kind.Open) }
    {
        let literals = Vec::with_capacity(alloc, MOST_LITERALS)?;
        let values = Assignment::new(alloc, vars)?;
        Ok(KnownAnswer {
            literals,
            values,
            kind: Kind::Open,
        })
    }

    /// What it tells of the assignments that make the cube true.
    pub(crate) fn tells(&self, cube: &[Lit]) -> Kind
        requires { All (λ l. l.var ≤ length self.now.values) cube.now }
        ensures { (p : Problem) → IsAnswerOf p self.now → Tells p cube.now self.now.values result }
    {
        let is_told = match self.kind {
            Kind::Open => false,
            Kind::Least => meets(&self.values, cube),
            Kind::Infeasible => true,
        };
        if is_told && self.is_under(cube) {
            self.kind
        } else {
            Kind::Open
        }
    }

    /// Whether the cube, too, assumes all that it assumes.
    fn is_under(&self, cube: &[Lit]) -> bool
        ensures { IsTrue result → All (λ l. Contains cube.now l) self.now.literals.items }
    {
        for place in 0..self.literals.len() {
            if !is_among(self.literals[place], cube) {
                return false;
            }
        }
        true
    }

    /// The values, where they are a least assignment.
    pub(crate) fn least(&self) -> Option<&Assignment>
        ensures { IfSome result (λ values. length values.now ≡ length self.now.values) }
    {
        match self.kind {
            Kind::Least => Some(&self.values),
            Kind::Open | Kind::Infeasible => None,
        }
    }

    /// The values.
    pub(crate) fn values(&self) -> &Assignment
        ensures { result.now ≡ self.now.values }
    {
        &self.values
    }

    /// Keeps an answer in place of what was known. Where memory is refused nothing is known.
    fn note(&mut self, cube: &[Lit], best: &Best<'_>)
        requires count { length self.old.values ≡ best.now.problem.vars }
        requires least { HoldsLeastUnder best.now.problem cube.now best.now.held }
        ensures { IsAnswerOf best.now.problem self.new }
    {
        self.kind = Kind::Open;
        self.literals.clear();
        if self.literals.extend_from_slice(cube).is_err() {
            return;
        }
        self.kind = match best.assignment() {
            Some(values) => {
                self.values.copy_from(values);
                Kind::Least
            }
            None => Kind::Infeasible,
        };
    }
}

/// The answer to the first question, which often assumes least, and the one to the last question.
#[derive(Drop)]
pub struct KnownAnswers {
    pub(crate) first: KnownAnswer,
    pub(crate) last: KnownAnswer,
}

impl KnownAnswers {
    /// Room for answers on an instance of `vars` variables. Fails where memory is refused.
    pub fn new(alloc: Global, vars: u32) -> Result<KnownAnswers, Memory>
        ensures { IfOk result (λ known. (p : Problem) → vars ≡ p.vars → AreAnswersOf p known) }
    {
        let first = KnownAnswer::new(alloc, vars)?;
        let last = KnownAnswer::new(alloc, vars)?;
        Ok(KnownAnswers { first, last })
    }

    /// Keeps the answer to a question, unless that has more than `MOST_LITERALS` assumptions.
    pub(crate) fn note(&mut self, cube: &[Lit], best: &Best<'_>)
        requires known { AreAnswersOf best.now.problem self.old }
        requires least { HoldsLeastUnder best.now.problem cube.now best.now.held }
        ensures { AreAnswersOf best.now.problem self.new }
    {
        if cube.len() > MOST_LITERALS {
            return;
        }
        if self.first.kind == Kind::Open {
            self.first.note(cube, best);
        } else {
            self.last.note(cube, best);
        }
    }
}

/// Whether the literal is one of the cube's.
fn is_among(lit: Lit, cube: &[Lit]) -> bool
    ensures { IsTrue result → Contains cube.now lit }
{
    cube.iter().any(|other| other.var() == lit.var() && other.positive() == lit.positive())
}

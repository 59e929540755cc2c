//! The questions' search, and the least assignment under assumptions.
//! Source: [ES03]

ghost use Rattle.std.specs.Prelude.{◌≡◌, ◌≢◌, ◌≤◌, false, true, None, length, All, IfOk, IfNone, IfSome, IsTrue};
ghost use Rattle.std.specs.Option.{is_some};
ghost use Rattle.pb_inst.specs.Cubes.{MakesTrue};
ghost use Rattle.pb_inst.specs.declared.limits.TheConstants.{MAX_VARS};
ghost use Rattle.pb_questions.specs.Form.{IsFormOf};
ghost use Rattle.pb_control.specs.Goal.{IsMet};
ghost use Rattle.pb_questions.specs.Known.{AreAnswersOf, IsAnswerOf, Tells};
ghost use Rattle.pb_questions.specs.Under.{named_literals, HoldsLeastUnder, HoldsUnder};

use crate::known::{Kind, KnownAnswer, KnownAnswers};
use pb_inst::{Assignment, Best, Instance, Lit, Memory};
use pb_search::{Alone, Goal, Outcome, WholeSearch};
use std::alloc::Global;
use std::marker::Model;

/// Questions on one instance, asked of its search. Contracts see the instance's `Problem`.
///
/// Each question is asked under assumptions: literals that are to be true. They may repeat, and where two contradict each other
/// nothing is feasible under them. A literal of a variable that the instance does not have is left out, since that variable is
/// free. A question has a budget of decisions, `nodes`, or none; without one it is always answered in full.
#[derive(Drop)]
pub struct Questions<'a> {
    alloc: Global,
    instance: &'a Instance,
    search: WholeSearch,
    known: KnownAnswers,
    suggestion: Option<&'a Assignment>,
    /// Room for the next assignment that is found, where some was lent.
    room: Option<Assignment>,
}

impl<'a> Model for Questions<'a> {
    ghost use Rattle.pb_inst.specs.Problem.{Problem};

    ghost Value = { Problem };

    ghost use Rattle.std.specs.Prelude.{◌≡◌, length, IfSome};
    ghost use Rattle.pb_questions.specs.Form.{IsFormOf};
    ghost use Rattle.pb_questions.specs.Known.{AreAnswersOf};

    ghost view = { λ q. q.instance.now };

    ghost invariant = { λ q. IsFormOf q.instance.now q.search × AreAnswersOf q.instance.now q.known × IfSome q.suggestion (λ s. length s.now ≡ q.instance.now.vars) × IfSome q.room (λ r. length r ≡ q.instance.now.vars) };
}

/// What a search under assumptions held at its end.
#[derive(Drop)]
pub struct Answer<'a> {
    /// The best assignment that was found. It is feasible and makes the assumptions true.
    pub best: Best<'a>,
    /// Whether the search was cut by its budget. If not, the best assignment is the least one, and none where there is none.
    pub cut: bool,
}

impl<'a> Questions<'a> {
    /// Questions that are asked of a search of the instance, and of answers to earlier ones on it. A suggestion is an
    /// assignment to its variables, of which nothing else is known. Where it is feasible and makes a question's assumptions
    /// true, the search begins with it as the best one.
    pub fn new(
        alloc: Global,
        instance: &'a Instance,
        search: WholeSearch,
        known: KnownAnswers,
        suggestion: Option<&'a Assignment>,
    ) -> Questions<'a>
        requires search { IsFormOf instance.now search }
        requires known { AreAnswersOf instance.now known }
        requires suggestion { IfSome suggestion (λ s. length s.now ≡ instance.now.vars) }
        ensures { result ≡ instance.now }
    {
        Questions {
            alloc,
            instance,
            search,
            known,
            suggestion,
            room: None,
        }
    }

    /// Lends an assignment to as many variables as the instance has. The next assignment that is found is held in it, so that
    /// its question takes no memory for one.
    pub fn lend_room(&mut self, room: Assignment)
        requires { length room ≡ self.old.vars }
        ensures { self.new ≡ self.old }
    {
        self.room = Some(room);
    }

    /// The search, with what the questions taught it, and the answers that are kept.
    pub fn into_parts(self) -> (WholeSearch, KnownAnswers)
        ensures search { IsFormOf self.entry result.0 }
        ensures known { AreAnswersOf self.entry result.1 }
    {
        (self.search, self.known)
    }

    /// Searches for the least assignment under the assumptions, with at most `nodes` decisions where a budget is given.
    /// Fails where memory is refused; then the questions stay as they are.
    pub fn solve_under(
        &mut self,
        assumptions: &[Lit],
        nodes: Option<u64>,
    ) -> Result<Answer<'a>, Memory>
        ensures same_instance { IfOk result (λ answer. answer.best.problem ≡ self.old) }
        ensures under { IfOk result (λ answer. HoldsUnder self.old assumptions.now answer.best.held) }
        ensures least { IfOk result (λ answer. answer.cut ≡ false → HoldsLeastUnder self.old assumptions.now answer.best.held) }
        ensures no_budget { IfNone nodes (IfOk result (λ answer. answer.cut ≡ false)) }
        ensures unchanged { self.new ≡ self.old }
    {
        let mut left = nodes;
        if self.names_all(assumptions) {
            return self.search_under(assumptions, &mut left);
        }
        let named = self.named(assumptions)?;
        self.search_under(&named, &mut left)
    }

    /// Whether all literals are of variables that the instance has.
    fn names_all(&self, assumptions: &[Lit]) -> bool
        ensures { IsTrue result → All (λ l. l.var ≤ self.now.vars) assumptions.now }
    {
        let vars = self.instance.vars();
        assumptions.iter().all(|lit| lit.var() <= vars)
    }

    /// Those of the literals whose variables the instance has, in order. Fails where memory is refused.
    pub(crate) fn named(&self, assumptions: &[Lit]) -> Result<Vec<Lit>, Memory>
        ensures { IfOk result (λ named. named.items ≡ named_literals self.now.vars assumptions.now) }
    {
        let vars = self.instance.vars();
        assumptions
            .iter()
            .copied()
            .filter(|lit| lit.var() <= vars)
            .collect(self.alloc)
    }

    /// Finds the least assignment that makes the cube true, with what is left of a budget, or knows it from an earlier answer.
    /// Fails where memory is refused.
    pub(crate) fn search_under(
        &mut self,
        cube: &[Lit],
        left: &mut Option<u64>,
    ) -> Result<Answer<'a>, Memory>
        requires { All (λ l. l.var ≤ self.old.vars) cube.now }
        ensures same_instance { IfOk result (λ answer. answer.best.problem ≡ self.old) }
        ensures under { IfOk result (λ answer. HoldsUnder self.old cube.now answer.best.held) }
        ensures least { IfOk result (λ answer. answer.cut ≡ false → HoldsLeastUnder self.old cube.now answer.best.held) }
        ensures no_budget { IfNone left.old ((left.new ≡ None) × IfOk result (λ answer. answer.cut ≡ false)) }
        ensures unchanged { self.new ≡ self.old }
    {
        self.search_for(cube, Goal::Least, left)
    }

    /// Searches, as `search_under` does, for any goal: where that is met the search may be cut.
    pub(crate) fn search_for(
        &mut self,
        cube: &[Lit],
        goal: Goal,
        left: &mut Option<u64>,
    ) -> Result<Answer<'a>, Memory>
        requires { All (λ l. l.var ≤ self.old.vars) cube.now }
        ensures same_instance { IfOk result (λ answer. answer.best.problem ≡ self.old) }
        ensures under { IfOk result (λ answer. HoldsUnder self.old cube.now answer.best.held) }
        ensures least { IfOk result (λ answer. answer.cut ≡ false → HoldsLeastUnder self.old cube.now answer.best.held) }
        ensures no_budget { IfNone left.old ((left.new ≡ None) × IfOk result (λ answer. answer.cut ≡ true → IsMet goal answer.best.held)) }
        ensures unchanged { self.new ≡ self.old }
    {
        if let Some(told) = self.recall(cube)? {
            return Ok(Answer {
                best: told,
                cut: false,
            });
        }
        let mut best = self.first_best(cube)?;
        // The proof learns by this call that the variables are no more than an instance may have.
        let _ = self.instance.vars();
        let outcome = self.search.run(cube, &mut best, &mut Alone, goal, left);
        // The proof learns by this call that what is held is a solution.
        let _ = best.cost();
        let cut = outcome == Outcome::Cut;
        if !cut {
            self.known.note(cube, &best);
        }
        Ok(Answer { best, cut })
    }

    /// What a search under the cube would hold at its end, where that follows from an earlier answer. Fails where memory is
    /// refused.
    fn recall(&mut self, cube: &[Lit]) -> Result<Option<Best<'a>>, Memory>
        requires { All (λ l. l.var ≤ self.old.vars) cube.now }
        ensures same_instance { IfOk result (λ told. IfSome told (λ best. best.problem ≡ self.old)) }
        ensures least { IfOk result (λ told. IfSome told (λ best. HoldsLeastUnder self.old cube.now best.held)) }
        ensures unchanged { self.new ≡ self.old }
    {
        let room = self.take_room()?;
        let last = self.known.last.tells(cube);
        if last != Kind::Open {
            return Ok(Some(best_told(self.instance, room, &self.known.last, cube, last)));
        }
        let first = self.known.first.tells(cube);
        if first != Kind::Open {
            return Ok(Some(best_told(self.instance, room, &self.known.first, cube, first)));
        }
        self.room = Some(room);
        Ok(None)
    }

    /// What a search under the cube begins with: the best of the suggestion and of what earlier questions found, as far as
    /// these are feasible and make the cube true. Fails where memory is refused.
    fn first_best(&mut self, cube: &[Lit]) -> Result<Best<'a>, Memory>
        requires { All (λ l. l.var ≤ self.old.vars) cube.now }
        ensures same_instance { IfOk result (λ best. best.problem ≡ self.old) }
        ensures under { IfOk result (λ best. HoldsUnder self.old cube.now best.held) }
        ensures unchanged { self.new ≡ self.old }
    {
        let room = self.take_room()?;
        let mut best = Best::within(self.instance, room);
        if let Some(values) = self.suggestion {
            begin_with(&mut best, values, cube);
        }
        // With an objective the search soon finds better ones, and a worse one would steer it elsewhere.
        if !self.instance.has_objective() {
            if let Some(values) = self.known.first.least() {
                begin_with(&mut best, values, cube);
            }
            if let Some(values) = self.known.last.least() {
                begin_with(&mut best, values, cube);
            }
        }
        Ok(best)
    }

    /// The room that was lent, or else new room. Fails where memory is refused.
    fn take_room(&mut self) -> Result<Assignment, Memory>
        ensures room { IfOk result (λ room. length room ≡ self.old.vars) }
        ensures unchanged { self.new ≡ self.old }
    {
        match self.room.take() {
            Some(room) => Ok(room),
            None => Assignment::new(self.alloc, self.instance.vars()),
        }
    }

    /// Whether the instance has an objective.
    pub fn has_objective(&self) -> bool
        ensures { result ≡ is_some self.now.objective }
    {
        self.instance.has_objective()
    }

    /// Where nothing is minimised, the values of the assignment are the first that further searches try.
    pub(crate) fn follow(&mut self, values: &Assignment)
        ensures { self.new ≡ self.old }
    {
        if !self.has_objective() {
            self.search.suggest(values);
        }
    }

    /// The allocator of what the questions make.
    pub(crate) fn alloc(&self) -> Global {
        self.alloc
    }

    /// The number of the instance's variables.
    pub fn vars(&self) -> u32
        ensures value { result ≡ self.now.vars }
        ensures few { result ≤ MAX_VARS }
    {
        self.instance.vars()
    }
}

/// Begins with the assignment where it makes the cube true, is feasible, and is before what is held.
fn begin_with(best: &mut Best<'_>, values: &Assignment, cube: &[Lit])
    requires count { length values.now ≡ best.old.problem.vars }
    requires variables { All (λ l. l.var ≤ best.old.problem.vars) cube.now }
    requires under { HoldsUnder best.old.problem cube.now best.old.held }
    ensures same_instance { best.new.problem ≡ best.old.problem }
    ensures under { HoldsUnder best.old.problem cube.now best.new.held }
{
    if meets(values, cube) {
        let _ = best.take(values);
    }
}

/// What is held where an earlier answer tells what it is under the cube.
fn best_told<'a>(
    instance: &'a Instance,
    room: Assignment,
    known: &KnownAnswer,
    cube: &[Lit],
    kind: Kind,
) -> Best<'a>
    requires room { length room ≡ instance.now.vars }
    requires known { IsAnswerOf instance.now known.now }
    requires told { kind ≢ Kind.Open }
    requires tells { Tells instance.now cube.now known.now.values kind }
    ensures same_instance { result.problem ≡ instance.now }
    ensures least { HoldsLeastUnder instance.now cube.now result.held }
{
    let mut best = Best::within(instance, room);
    if kind == Kind::Least {
        let _ = best.take(known.values());
    }
    best
}

/// Whether the assignment makes the cube true.
pub(crate) fn meets(values: &Assignment, cube: &[Lit]) -> bool
    requires { All (λ l. l.var ≤ length values.now) cube.now }
    ensures { IsTrue result → MakesTrue values.now cube.now }
{
    cube.iter().all(|lit| values.satisfies(*lit))
}

//! Questions on the statements so far.

ghost use Rattle.std.specs.Prelude.{◌≡◌, ◌≢◌, ◌↔◌, ◌⊎◌, [], false, length, IfErr, IfNone, IfOk, IfSome, IsErrOf, OnErr, OnOk};
ghost use Rattle.std.specs.Option.{option_map};
ghost use Rattle.pb_inst.specs.Incumbent.{IsSolution};
ghost use Rattle.pb_questions.specs.Explained.{IsExplained, IsInFull};
ghost use Rattle.pb_questions.specs.Fixed.{AreKnown, IsFixedAnswer};
ghost use Rattle.pb_questions.specs.Form.{IsFormOf};
ghost use Rattle.pb_questions.specs.Known.{AreAnswersOf};
ghost use Rattle.pb_questions.specs.Under.{HoldsLeastUnder, HoldsUnder};
ghost use Rattle.pb_solve.specs.Solving.{HoldsLeast};
ghost use Rattle.pb_session.specs.Asked.{IsRefusal};
ghost use Rattle.pb_session.specs.Found.{solution, status_of};

use crate::Session;
use crate::faults::SessionFault;
use crate::found::{Found, ended_as, found_or_room};
use crate::ready::Ready;
use pb_inst::{Assignment, InstFault, Instance, Lit, Memory};
use pb_questions::{Among, Answer, Explanation, Fixed, KnownAnswers, Questions};
use pb_search::WholeSearch;
use pb_solve::Ran;
use std::alloc::Global;
use std::mem::replace;

/// What a search held at its end, whether it was cut, and the room that it did not need.
#[derive(Drop)]
struct Searched {
    found: Option<Found>,
    room: Option<Assignment>,
    cut: bool,
}

impl Session {
    /// Searches for the least assignment, with at most `nodes` decisions where a budget is given, and keeps what was found in
    /// place of what was found before. Fails, and changes nothing that contracts see, with `Unended` where a sum is not ended,
    /// with `Memory` where memory is refused, and with `BadVariable` or `TooMany` only where some variable of the statements is
    /// no variable of an instance.
    pub fn solve(&mut self, nodes: Option<u64>) -> Result<Ran, SessionFault>
        ensures least { IfOk result (λ ran. ran.cut ≡ false → HoldsLeast self.old.problem self.new.found) }
        ensures sound { IfOk result (λ _. IfSome self.new.found (IsSolution self.old.problem)) }
        ensures status { IfOk result (λ ran. ran.status ≡ status_of self.old.problem ran.cut self.new.found) }
        ensures no_budget { IfNone nodes (IfOk result (λ ran. ran.cut ≡ false)) }
        ensures told { OnOk result (self.new ≡ record self.old { found = self.new.found }) }
        ensures unchanged { OnErr result (self.new ≡ self.old) }
        ensures unended { IsErrOf result SessionFault.Unended ↔ (self.old.terms ≢ []) }
        ensures refused { IfErr result (IsRefusal self.old) }
    {
        self.solve_under(&[], nodes)
    }

    /// Searches, as `solve` does, for the least of the assignments that make the assumptions true. These may repeat, and where
    /// two contradict each other there is none. A literal of a variable that no statement names is free.
    pub fn solve_under(
        &mut self,
        assumptions: &[Lit],
        nodes: Option<u64>,
    ) -> Result<Ran, SessionFault>
        ensures least { IfOk result (λ ran. ran.cut ≡ false → HoldsLeastUnder self.old.problem assumptions.now self.new.found) }
        ensures under { IfOk result (λ _. HoldsUnder self.old.problem assumptions.now self.new.found) }
        ensures status { IfOk result (λ ran. ran.status ≡ status_of self.old.problem ran.cut self.new.found) }
        ensures no_budget { IfNone nodes (IfOk result (λ ran. ran.cut ≡ false)) }
        ensures told { OnOk result (self.new ≡ record self.old { found = self.new.found }) }
        ensures unchanged { OnErr result (self.new ≡ self.old) }
        ensures unended { IsErrOf result SessionFault.Unended ↔ (self.old.terms ≢ []) }
        ensures refused { IfErr result (IsRefusal self.old) }
    {
        let Ready {
            instance,
            search,
            known,
        } = self.take_ready()?;
        let room = self.rooms.pop();
        let mut questions = asked(self.alloc, &instance, search, known, &self.suggestion);
        let searched = search_under(&mut questions, room, assumptions, nodes);
        let has_objective = questions.has_objective();
        let (search, known) = questions.into_parts();
        self.keep_ready(Ready {
            instance,
            search,
            known,
        });
        let Searched { found, room, cut } = searched?;
        let status = ended_as(has_objective, cut, found.is_some());
        self.keep_found(found, room);
        Ok(Ran { status, cut })
    }

    /// Keeps what was found in place of what was found before. The room of the latter serves the next search, and so does a
    /// room that was not needed.
    fn keep_found(&mut self, found: Option<Found>, room: Option<Assignment>)
        ensures { self.new ≡ record self.old { found = option_map solution found } }
    {
        if let Some(Found { cost: _, values }) = replace(&mut self.found, found) {
            self.keep_room(values);
        }
        if let Some(room) = room {
            self.keep_room(room);
        }
    }

    /// Makes room for what a question finds beside what the question before it found, so that no further question takes memory
    /// for it. Where memory is refused, further questions ask for it themselves.
    pub(crate) fn make_rooms(&mut self)
        ensures { self.new ≡ self.old }
    {
        self.rooms.clear();
        self.make_room();
        self.make_room();
    }

    /// Makes room for one assignment to all variables, if memory is given.
    fn make_room(&mut self)
        ensures { self.new ≡ self.old }
    {
        if let Ok(room) = Assignment::new(self.alloc, self.vars()) {
            self.keep_room(room);
        }
    }

    /// Keeps an assignment to all variables, as room for what is found next. An assignment to another number of variables is
    /// dropped, and so is any where memory is refused.
    fn keep_room(&mut self, room: Assignment)
        ensures { self.new ≡ self.old }
    {
        if room.len() == self.vars() {
            let _ = self.rooms.push(room);
        }
    }

    /// Of assumptions under which nothing is feasible, tells some that are enough for that. Unless the budget ends before,
    /// something is feasible once any one of them is left out. All searches together make at most `nodes` decisions, where a
    /// budget is given. Fails as `solve` does. What was found before stays.
    pub fn explain(
        &mut self,
        assumptions: &[Lit],
        nodes: Option<u64>,
    ) -> Result<Explanation, SessionFault>
        ensures explained { IfOk result (IsExplained self.old.problem assumptions.now) }
        ensures no_budget { IfNone nodes (IfOk result IsInFull) }
        ensures unchanged { self.new ≡ self.old }
        ensures unended { IsErrOf result SessionFault.Unended ↔ (self.old.terms ≢ []) }
        ensures refused { IfErr result (IsRefusal self.old) }
    {
        let Ready {
            instance,
            search,
            known,
        } = self.take_ready()?;
        let mut questions = asked(self.alloc, &instance, search, known, &self.suggestion);
        let explanation = questions.explain(assumptions, nodes);
        let (search, known) = questions.into_parts();
        self.keep_ready(Ready {
            instance,
            search,
            known,
        });
        Ok(explanation?)
    }

    /// Tells which variables have one value in all assignments that are asked about, those that make the assumptions true or the
    /// cheapest of them, and which have both. All searches together make at most `nodes` decisions, where a budget is given.
    /// Fails as `solve` does. What was found before stays.
    pub fn fixed(
        &mut self,
        assumptions: &[Lit],
        among: Among,
        nodes: Option<u64>,
    ) -> Result<Fixed, SessionFault>
        ensures answer { IfOk result (IsFixedAnswer self.old.problem assumptions.now among) }
        ensures no_budget { IfNone nodes (IfOk result AreKnown) }
        ensures unchanged { self.new ≡ self.old }
        ensures unended { IsErrOf result SessionFault.Unended ↔ (self.old.terms ≢ []) }
        ensures refused { IfErr result (IsRefusal self.old) }
    {
        let Ready {
            instance,
            search,
            known,
        } = self.take_ready()?;
        let mut questions = asked(self.alloc, &instance, search, known, &self.suggestion);
        let fixed = questions.fixed(assumptions, among, nodes);
        let (search, known) = questions.into_parts();
        self.keep_ready(Ready {
            instance,
            search,
            known,
        });
        Ok(fixed?)
    }

    /// Suggests an assignment to as many variables as the statements name, in place of one that was suggested before. Its
    /// values are the first that searches try, and where it is feasible and makes a question's assumptions true, the search
    /// begins with it as the best one. No answer of a search that is not cut depends on it. Once further statements name more
    /// variables, it only tells what to try first. Fails, and changes nothing, with `Length` where it has another number of
    /// variables, and with `Memory` where memory is refused.
    pub fn suggest(&mut self, values: &Assignment) -> Result<(), SessionFault>
        ensures unchanged { self.new ≡ self.old }
        ensures length { IsErrOf result SessionFault.Length ↔ (length values.now ≢ self.old.problem.vars) }
        ensures other { IfErr result (λ fault. (fault ≡ SessionFault.Length) ⊎ (fault ≡ SessionFault.Statement InstFault.Memory)) }
    {
        if values.len() != self.vars() {
            return Err(SessionFault::Length);
        }
        let mut suggestion = Assignment::new(self.alloc, values.len())?;
        suggestion.copy_from(values);
        self.suggestion = Some(suggestion);
        if let Some(ready) = &mut self.ready {
            ready.suggest(values);
        }
        Ok(())
    }

    /// Empty room for the literals of a question. With `keep_literals` it serves one question after another.
    pub fn take_literals(&mut self) -> Vec<Lit>
        ensures empty { result.items ≡ [] }
        ensures unchanged { self.new ≡ self.old }
    {
        let mut literals = replace(&mut self.literals, Vec::new(self.alloc));
        literals.clear();
        literals
    }

    /// Keeps such room for the next question.
    pub fn keep_literals(&mut self, literals: Vec<Lit>)
        ensures { self.new ≡ self.old }
    {
        self.literals = literals;
    }
}

/// Questions that are asked of the search and of earlier answers. They begin with the suggestion where that is to all variables
/// of the instance.
fn asked<'a>(
    alloc: Global,
    instance: &'a Instance,
    search: WholeSearch,
    known: KnownAnswers,
    suggestion: &'a Option<Assignment>,
) -> Questions<'a>
    requires search { IsFormOf instance.now search }
    requires known { AreAnswersOf instance.now known }
    ensures { result ≡ instance.now }
{
    match suggestion {
        Some(values) if values.len() == instance.vars() => {
            Questions::new(alloc, instance, search, known, Some(values))
        }
        _ => Questions::new(alloc, instance, search, known, None),
    }
}

/// Searches for the least assignment under the assumptions. What is found is held in `room`, where that is to all variables of
/// the instance. Fails where memory is refused.
fn search_under(
    questions: &mut Questions<'_>,
    room: Option<Assignment>,
    assumptions: &[Lit],
    nodes: Option<u64>,
) -> Result<Searched, Memory>
    ensures least { IfOk result (λ searched. searched.cut ≡ false → HoldsLeastUnder questions.old assumptions.now (option_map solution searched.found)) }
    ensures under { IfOk result (λ searched. HoldsUnder questions.old assumptions.now (option_map solution searched.found)) }
    ensures no_budget { IfNone nodes (IfOk result (λ searched. searched.cut ≡ false)) }
    ensures unchanged { questions.new ≡ questions.old }
{
    if let Some(room) = room
        && room.len() == questions.vars()
    {
        questions.lend_room(room);
    }
    let Answer { best, cut } = questions.solve_under(assumptions, nodes)?;
    let (found, room) = found_or_room(best);
    Ok(Searched { found, room, cut })
}

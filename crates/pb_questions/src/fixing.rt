//! Which variables have one value in all assignments that are asked about.
//! Source: [MJL10]

ghost use Rattle.std.specs.Prelude.{◌≡◌, ◌≢◌, ◌<◌, ◌≤◌, true, false, None, All, IfOk, IfNone, OnOk, length, replicate, slice_index_or};
ghost use Rattle.pb_questions.specs.Sought.{IsAnswerToOther, IsWithin};
ghost use Rattle.pb_questions.specs.Fixed.{first_goal, fixed_to, AreKnown, AreStatusesOf, AreUnknown, HoldsFor, IsFixedAnswer, IsLearned, MarksFree};

use crate::Questions;
use crate::seeking::Sought;
use pb_inst::{Assignment, Lit, Memory, Number};
use pb_search::Goal;

/// The assignments that are asked about.
#[derive(Clone, Copy, Debug, PartialEq, Eq)]
pub enum Among {
    /// All that are feasible under the assumptions.
    Feasible,
    /// Those of them that cost least.
    Least,
}

/// What is known of a variable.
#[derive(Clone, Copy, Debug, PartialEq, Eq)]
pub enum VariableStatus {
    /// It is true in each of the assignments.
    FixedTrue,
    /// It is false in each of them.
    FixedFalse,
    /// It is true in one of them, and false in another.
    Free,
    /// The budget ended before this was known.
    Unknown,
}

/// Which variables are fixed.
#[derive(Drop)]
pub enum Fixed {
    /// Nothing is feasible under the assumptions.
    Infeasible,
    /// What is known of each variable, that of variable 1 first.
    Variables(Vec<VariableStatus>),
}

impl<'a> Questions<'a> {
    /// Tells which variables have one value in all assignments that are asked about, and which have both. One search finds the
    /// first of these assignments. Each further search finds one that differs from it in some variable whose status is not
    /// known yet, or shows that there is none. All searches together make at most `nodes` decisions, where a budget is given.
    /// Fails where memory is refused; then the questions stay as they are.
    pub fn fixed(
        &mut self,
        assumptions: &[Lit],
        among: Among,
        nodes: Option<u64>,
    ) -> Result<Fixed, Memory>
        ensures answer { IfOk result (IsFixedAnswer self.old assumptions.now among) }
        ensures no_budget { IfNone nodes (IfOk result AreKnown) }
        ensures unchanged { self.new ≡ self.old }
    {
        let mut left = nodes;
        let named = self.named(assumptions)?;
        let answer = self.search_for(&named, first_goal(among), &mut left)?;
        let Some(first) = answer.best.assignment() else {
            return self.without_first(answer.cut);
        };
        let bound = match among {
            Among::Feasible => None,
            Among::Least if answer.cut => return self.without_first(true),
            Among::Least => answer.best.cost(),
        };
        let statuses = self.statuses(named, first, bound, &mut left)?;
        Ok(Fixed::Variables(statuses))
    }

    /// The answer where the search for the first of the assignments found none. Fails where memory is refused.
    fn without_first(&self, cut: bool) -> Result<Fixed, Memory>
        ensures cut { cut ≡ true → IfOk result (AreUnknown self.now.vars) }
        ensures whole { cut ≡ false → result ≡ Ok Fixed.Infeasible }
    {
        if !cut {
            return Ok(Fixed::Infeasible);
        }
        let statuses = self.unknown()?;
        Ok(Fixed::Variables(statuses))
    }

    /// The status of each variable, before anything is known. Fails where memory is refused.
    fn unknown(&self) -> Result<Vec<VariableStatus>, Memory>
        ensures { IfOk result (λ statuses. statuses.items ≡ replicate self.now.vars VariableStatus.Unknown) }
    {
        vec![in self.alloc(); VariableStatus::Unknown; self.vars() as usize]
    }

    /// The statuses of all variables among the assignments that make the cube true and cost no more than the bound, of which the
    /// first is one. Fails where memory is refused.
    fn statuses(
        &mut self,
        mut cube: Vec<Lit>,
        first: &Assignment,
        bound: Option<Number>,
        left: &mut Option<u64>,
    ) -> Result<Vec<VariableStatus>, Memory>
        requires variables { All (λ l. l.var ≤ self.old.vars) cube.items }
        requires first { IsWithin self.old cube.items bound first.now }
        ensures count { IfOk result (λ statuses. length statuses.items ≡ self.old.vars) }
        ensures statuses { IfOk result (λ statuses. AreStatusesOf (IsWithin self.old cube.items bound) statuses.items) }
        ensures no_budget { IfNone left.old (IfOk result (λ statuses. All (λ status. status ≢ VariableStatus.Unknown) statuses.items)) }
        ensures unchanged { self.new ≡ self.old }
    {
        let mut statuses = self.unknown()?;
        let mut turned = self.first_turned();
        for place in 0..first.len() {
            if statuses[place as usize] == VariableStatus::Unknown {
                let value = first.get(place + 1);
                let sought = self.seek_apart(
                    place,
                    value,
                    first,
                    &statuses,
                    &mut turned,
                    &mut cube,
                    bound,
                    left,
                )?;
                learn(&mut statuses, first, place, value, sought);
            }
        }
        // So that the next question begins near what this one found.
        self.follow(first);
        Ok(statuses)
    }

    /// Seeks an assignment that makes the cube true, costs no more than the bound, and gives the variable at the place the
    /// other value than this one. Leaves the cube as it was. Fails where memory is refused.
    pub(crate) fn seek_other(
        &mut self,
        place: u32,
        value: bool,
        cube: &mut Vec<Lit>,
        bound: Option<Number>,
        left: &mut Option<u64>,
    ) -> Result<Sought<'a>, Memory>
        requires place { place < self.old.vars }
        requires variables { All (λ l. l.var ≤ self.old.vars) cube.old.items }
        ensures other { IfOk result (IsAnswerToOther self.old cube.old.items bound place value) }
        ensures no_budget { IfNone left.old ((left.new ≡ None) × IfOk result (λ sought. sought ≢ Sought.Cut)) }
        ensures same_cube { OnOk result (cube.new.items ≡ cube.old.items) }
        ensures unchanged { self.new ≡ self.old }
    {
        // The proof learns by this call that the variable is no greater than a literal may have.
        let _ = self.vars();
        let Ok(other) = Lit::new(place + 1, !value) else {
            unreachable!()
        };
        cube.push(other)?;
        let sought = self.seek(cube, bound, left)?;
        cube.pop();
        Ok(sought)
    }
}

/// The goal of the search for the first of the assignments.
fn first_goal(among: Among) -> Goal
    ensures { result ≡ first_goal among }
{
    match among {
        Among::Feasible => Goal::Any,
        Among::Least => Goal::Least,
    }
}

/// Records what was learned by seeking an assignment in which the variable at the place has another value than this one, which
/// it has in the first assignment.
fn learn(
    statuses: &mut [VariableStatus],
    first: &Assignment,
    place: u32,
    value: bool,
    sought: Sought<'_>,
)
    requires place { place < length statuses.old }
    requires count { length statuses.old ≡ length first.now }
    requires found { HoldsFor (length first.now) sought }
    ensures { IsLearned first.now place value statuses.old sought.entry statuses.new }
{
    match sought {
        Sought::Found(best) => {
            if let Some(other) = best.assignment() {
                mark_free(statuses, first, other);
            }
        }
        Sought::Nothing => statuses[place as usize] = fixed_to(value),
        Sought::Cut => {}
    }
}

/// Marks the variables in which the assignments differ.
fn mark_free(statuses: &mut [VariableStatus], first: &Assignment, other: &Assignment)
    requires count { length statuses.old ≡ length first.now }
    requires same_count { length other.now ≡ length first.now }
    ensures { MarksFree first.now other.now statuses.old statuses.new }
{
    for place in 0..first.len() {
        if first.get(place + 1) != other.get(place + 1) {
            statuses[place as usize] = VariableStatus::Free;
        }
    }
}

/// The status of a variable that has one value.
fn fixed_to(value: bool) -> VariableStatus
    ensures { result ≡ fixed_to value }
{
    if value {
        VariableStatus::FixedTrue
    } else {
        VariableStatus::FixedFalse
    }
}

//! Which values searches try first when it is asked which variables are fixed. The first assignment has one value of each variable.
//! So a search that tries the other values finds an assignment that differs from it in many variables, and all of these are free.

ghost use Rattle.std.specs.Prelude.{◌≡◌, ◌≢◌, ◌<◌, ◌≤◌, None, All, IfOk, IfNone, IsTrue, OnOk, length};
ghost use Rattle.pb_questions.specs.Sought.{IsAnswerToOther};

use crate::Questions;
use crate::fixing::VariableStatus;
use crate::seeking::Sought;
use pb_inst::{Assignment, Lit, Memory, Number};

/// How many decisions a search that tries other values may make for each variable. Where it meets no conflict it makes fewer than
/// one. Chosen by hand.
const DECISIONS_PER_VARIABLE: u64 = 2;

/// What part of the variables is turned from then on where few decisions were not enough. Chosen by hand.
const TURNED_PART: u32 = 8;

impl<'a> Questions<'a> {
    /// For how many variables searches try the other value at first: for all where nothing is minimised. With an objective it is for
    /// none, since values from outside would lead further questions too.
    pub(crate) fn first_turned(&self) -> u32 {
        if self.has_objective() { 0 } else { self.vars() }
    }

    /// Has the next search try other values than those of the first assignment, for the first `most` variables whose status is not
    /// known. Fails where memory is refused.
    fn turn(
        &mut self,
        statuses: &[VariableStatus],
        first: &Assignment,
        most: u32,
    ) -> Result<(), Memory>
        requires { length statuses.now ≡ length first.now }
        ensures { self.new ≡ self.old }
    {
        let mut values = Assignment::new(self.alloc(), first.len())?;
        let mut turned = 0u32;
        for place in 0..first.len() {
            let value = first.get(place + 1);
            if statuses[place as usize] == VariableStatus::Unknown {
                values.set(place + 1, value != (turned < most));
                turned = turned.saturating_add(1);
            } else {
                // Where all are turned, those that are known to be free make way: a variable that is false leaves most sums to others.
                values.set(place + 1, value && most < first.len());
            }
        }
        self.follow(&values);
        Ok(())
    }

    /// Seeks what `seek_other` does, by few decisions as long as values are turned. Where these are not enough it is sought again
    /// near the first assignment, and if it is found there, fewer variables are turned from then on. Fails where memory is refused.
    pub(crate) fn seek_apart(
        &mut self,
        place: u32,
        value: bool,
        first: &Assignment,
        statuses: &[VariableStatus],
        turned: &mut u32,
        cube: &mut Vec<Lit>,
        bound: Option<Number>,
        left: &mut Option<u64>,
    ) -> Result<Sought<'a>, Memory>
        requires place { place < self.old.vars }
        requires count { length statuses.now ≡ length first.now }
        requires variables { All (λ l. l.var ≤ self.old.vars) cube.old.items }
        ensures other { IfOk result (IsAnswerToOther self.old cube.old.items bound place value) }
        ensures no_budget { IfNone left.old ((left.new ≡ None) × IfOk result (λ sought. sought ≢ Sought.Cut)) }
        ensures same_cube { OnOk result (cube.new.items ≡ cube.old.items) }
        ensures unchanged { self.new ≡ self.old }
    {
        if *turned > 0 {
            self.turn(statuses, first, *turned)?;
            let few = few_of(*left, self.vars());
            let mut rest = few;
            let sought = self.seek_other(place, value, cube, bound, &mut rest)?;
            pay(left, few, rest);
            if is_told(&sought) {
                return Ok(sought);
            }
            self.follow(first);
        }
        let sought = self.seek_other(place, value, cube, bound, left)?;
        if let Sought::Found(_) = &sought {
            *turned /= TURNED_PART;
        }
        Ok(sought)
    }
}

/// The budget of a search over `vars` variables that tries other values, where this is left of the question's.
fn few_of(left: Option<u64>, vars: u32) -> Option<u64> {
    let few = DECISIONS_PER_VARIABLE.saturating_mul(vars as u64);
    Some(left.unwrap_or(few).min(few))
}

/// Takes the decisions of a search with a budget of its own off what is left of the question's, where there is one.
fn pay(left: &mut Option<u64>, few: Option<u64>, rest: Option<u64>)
    ensures { IfNone left.old (left.new ≡ None) }
{
    if let Some(count) = *left {
        let made = few.unwrap_or(0).saturating_sub(rest.unwrap_or(0));
        *left = Some(count.saturating_sub(made));
    }
}

/// Whether the search was not cut.
fn is_told(sought: &Sought<'_>) -> bool
    ensures { IsTrue result → sought.now ≢ Sought.Cut }
{
    match sought {
        Sought::Found(_) | Sought::Nothing => true,
        Sought::Cut => false,
    }
}

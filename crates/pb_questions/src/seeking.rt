//! The search for any assignment under assumptions that costs no more than a bound.

ghost use Rattle.std.specs.Prelude.{◌≡◌, ◌≢◌, ◌≤◌, ◌≤ℤ◌, ◌<ℤ◌, false, None, All, IfOk, IfNone, IfSome, IsSomeAnd, IsTrue};
ghost use Rattle.pb_questions.specs.Sought.{goal_within, IsAnswerTo};

use crate::Questions;
use pb_inst::{Best, Lit, Memory, Number};
use pb_search::Goal;

/// What came of such a search.
#[derive(Drop)]
pub enum Sought<'a> {
    /// One that was found.
    Found(Best<'a>),
    /// There is none.
    Nothing,
    /// The budget ended before this was known.
    Cut,
}

impl<'a> Questions<'a> {
    /// Seeks an assignment that makes the cube true and costs no more than the bound, where one is given, with what is left
    /// of a budget. The search ends at the first that it finds. Fails where memory is refused.
    pub(crate) fn seek(
        &mut self,
        cube: &[Lit],
        bound: Option<Number>,
        left: &mut Option<u64>,
    ) -> Result<Sought<'a>, Memory>
        requires { All (λ l. l.var ≤ self.old.vars) cube.now }
        ensures answer { IfOk result (IsAnswerTo self.old cube.now bound) }
        ensures no_budget { IfNone left.old ((left.new ≡ None) × IfOk result (λ sought. sought ≢ Sought.Cut)) }
        ensures unchanged { self.new ≡ self.old }
    {
        let answer = self.search_for(cube, goal_within(bound), left)?;
        Ok(if holds_within(&answer.best, bound) {
            Sought::Found(answer.best)
        } else if answer.cut {
            Sought::Cut
        } else {
            Sought::Nothing
        })
    }
}

/// The goal of such a search.
fn goal_within(bound: Option<Number>) -> Goal
    ensures { result ≡ goal_within bound }
{
    match bound {
        Some(most) => Goal::AtMost(most),
        None => Goal::Any,
    }
}

/// Whether something is held that costs no more than the bound, where one is given.
fn holds_within(best: &Best<'_>, bound: Option<Number>) -> bool
    ensures yes { IsTrue result → IsSomeAnd best.now.held (λ s. IfSome bound (λ most. s.cost ≤ℤ most)) }
    ensures no { result ≡ false → IfSome best.now.held (λ s. IsSomeAnd bound (λ most. most <ℤ s.cost)) }
{
    match (best.cost(), bound) {
        (Some(cost), Some(most)) => cost <= most,
        (cost, _) => cost.is_some(),
    }
}

//! Why nothing is feasible under assumptions.
//! Source: [CD91]

ghost use Rattle.std.specs.Prelude.{◌≡◌, ◌≢◌, ◌≤◌, true, None, All, Contains, IfOk, IfNone};
ghost use Rattle.pb_questions.specs.Under.{IsInfeasibleUnder};
ghost use Rattle.pb_questions.specs.Explained.{IsCore, IsExplained, IsInFull};

use crate::Questions;
use crate::seeking::Sought;
use pb_inst::{Lit, Memory};

/// Literals under which nothing is feasible.
#[derive(Drop)]
pub struct Core {
    /// Some of the assumptions, in their order or another.
    pub literals: Vec<Lit>,
    /// Whether something is known to be feasible once any one of them is left out. If not, the budget ended before that was
    /// known.
    pub is_minimal: bool,
}

/// What was learned of assumptions.
#[derive(Drop)]
pub enum Explanation {
    /// Some assignment is feasible under them.
    Feasible,
    /// No assignment is, and these of them are why.
    Core(Core),
    /// The budget ended before this was known.
    Cut,
}

impl<'a> Questions<'a> {
    /// Of assumptions under which nothing is feasible, tells some that are enough for that: those that remain once each was
    /// left out in turn wherever the others were enough. All searches together make at most `nodes` decisions, where a budget
    /// is given. Fails where memory is refused; then the questions stay as they are.
    pub fn explain(
        &mut self,
        assumptions: &[Lit],
        nodes: Option<u64>,
    ) -> Result<Explanation, Memory>
        ensures explained { IfOk result (IsExplained self.old assumptions.now) }
        ensures no_budget { IfNone nodes (IfOk result (IsInFull)) }
        ensures unchanged { self.new ≡ self.old }
    {
        let mut left = nodes;
        let named = self.named(assumptions)?;
        Ok(match self.seek(&named, None, &mut left)? {
            Sought::Found(_) => Explanation::Feasible,
            Sought::Nothing => Explanation::Core(self.shrink(named, &mut left)?),
            Sought::Cut => Explanation::Cut,
        })
    }

    /// Tries to leave out each literal, the first one first, and does where nothing is feasible without it. Fails where memory
    /// is refused.
    fn shrink(&mut self, mut literals: Vec<Lit>, left: &mut Option<u64>) -> Result<Core, Memory>
        requires variables { All (λ l. l.var ≤ self.old.vars) literals.items }
        requires infeasible { IsInfeasibleUnder self.old literals.items }
        ensures core { IfOk result (IsCore self.old literals.items) }
        ensures no_budget { IfNone left.old (IfOk result (λ core. core.is_minimal ≡ true)) }
        ensures unchanged { self.new ≡ self.old }
    {
        let mut is_minimal = true;
        for tried in 0..literals.len() {
            let first = literals.remove(0);
            match self.seek(&literals, None, left)? {
                Sought::Nothing => {}
                Sought::Found(_) => literals.push(first)?,
                Sought::Cut => {
                    is_minimal = false;
                    literals.push(first)?;
                }
            }
        }
        Ok(Core {
            literals,
            is_minimal,
        })
    }
}

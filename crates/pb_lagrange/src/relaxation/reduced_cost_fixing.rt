//! Literals that the multipliers fix, and among which variables the next one is looked for.
//! Source: [DFJ54], [CJP83]

ghost use Rattle.std.specs.Prelude.{IfSome};
ghost use Rattle.pb_dual.specs.Multipliers.{IsFixed};

use pb_count::Coefficient;
use pb_dual::{FIXING_WINDOW, Multipliers};
use pb_inst::{Lit, Number};

/// Where literals to fix are looked for.
#[derive(Clone, Copy)]
pub struct Fixing {
    /// How many variables come before the window in which the next literal is looked for.
    from: u32,
    /// Whether one was found at the node where the search is.
    pub has_found: bool,
}

impl Fixing {
    /// From the first variable on.
    pub fn new() -> Fixing {
        Fixing {
            from: 0,
            has_found: false,
        }
    }

    /// The search is at another node, or looks for another literal.
    pub fn forget(&mut self) {
        self.has_found = false;
    }

    /// A literal without a value that every completion of the trail that costs no more than the limit makes true, or none.
    /// Only a window of variables is looked at; where it has none, the next one is looked for in the next window, so that all
    /// variables get their turn.
    pub fn find<C: Coefficient>(
        &mut self,
        multipliers: &Multipliers<C>,
        limit: Number,
    ) -> Option<Lit>
        ensures { IfSome result (IsFixed multipliers.now.form multipliers.now.trail limit) }
    {
        let found = multipliers.fixed_literal(self.from, limit);
        self.has_found = found.is_some();
        if !self.has_found {
            let next = self.from.saturating_add(FIXING_WINDOW);
            self.from = if next < multipliers.form().vars() {
                next
            } else {
                0
            };
        }
        found
    }

    /// As `find`, but looked for in one window after another until all variables were looked at.
    pub fn find_in_all<C: Coefficient>(
        &mut self,
        multipliers: &Multipliers<C>,
        limit: Number,
    ) -> Option<Lit>
        ensures { IfSome result (IsFixed multipliers.now.form multipliers.now.trail limit) }
    {
        for _ in 0..=multipliers.form().vars() / FIXING_WINDOW {
            let found = self.find(multipliers, limit);
            if found.is_some() {
                return found;
            }
        }
        None
    }
}

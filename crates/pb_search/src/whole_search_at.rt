//! The search of a whole instance under literals, which counts in numbers of one width.

ghost use Rattle.std.specs.Prelude.{◌≡◌, IfOk};
ghost use Rattle.pb_search.specs.Searched.{IsSearchedUnder, MaySearchUnder};

use pb_engine::{Coefficient, clause_laws};
use pb_inst::{Assignment, Best, Lit, Memory};
use pb_normal::Form;
use pb_subtree::{Goal, Outcome, SearchState, Share, search_under};
use std::alloc::Global;
use std::marker::Model;

/// An engine for the rows of a normal form, which all searches use again, and the room for decisions and assignments. They
/// count in numbers of type `C`. Contracts see the form.
pub struct WholeSearchAt<C: Coefficient> {
    state: SearchState<C>,
}

impl<C: Coefficient> Model for WholeSearchAt<C> {
    ghost use Rattle.pb_normal.specs.NormalForm.{NormalForm};

    ghost Value = { NormalForm };

    ghost use Rattle.std.specs.Prelude.{[]};
    ghost use Rattle.pb_subtree.specs.Made.{IsMade};

    ghost view = { λ s. s.state.engine.form };

    ghost invariant = { λ s. IsMade s.state.engine.form [] s.state };
}

impl<C: Coefficient> Drop for WholeSearchAt<C> {
    fn drop(self) {
        let WholeSearchAt { state: _ } = self;
    }
}

impl<C: Coefficient> WholeSearchAt<C> {
    /// Makes all that the searches need, over a normal form. Fails where memory is refused.
    pub fn new(alloc: Global, form: &Form<C>) -> Result<WholeSearchAt<C>, Memory>
        ensures { IfOk result (λ s. s ≡ form.now) }
    {
        let state = SearchState::new(alloc, form, &[])?;
        Ok(WholeSearchAt { state })
    }

    /// Searches the assignments that make the cube true, or stops where it would need one decision more than are left, or where
    /// the goal is met.
    pub fn search<S: Share>(
        &mut self,
        cube: &[Lit],
        best: &mut Best<'_>,
        share: &mut S,
        goal: Goal,
        left: &mut Option<u64>,
    ) -> Outcome
        requires { MaySearchUnder best.old.problem self.old cube.now }
        ensures searched { IsSearchedUnder cube.now goal (S.lends share.old) best.old best.new left.old left.new result }
        ensures kept { S.keeps share.old share.new }
        ensures same_lending { S.lends share.new ≡ S.lends share.old }
        ensures unchanged { self.new ≡ self.old }
    {
        clause_laws();
        let outcome = search_under(&mut self.state, &[], cube, best, share, goal, None, left);
        self.state.begin_question();
        outcome
    }

    /// The values of the assignment are tried first from now on.
    pub fn suggest(&mut self, values: &Assignment)
        ensures { self.new ≡ self.old }
    {
        self.state.order.suggest(values);
    }
}

//! The search of a whole instance under assumed literals, again and again, so that each question uses what earlier ones taught.
//! Source: [ES03]

ghost use Rattle.std.specs.Prelude.{◌≡◌, IfOk};
ghost use Rattle.pb_search.specs.Searched.{IsSearchedUnder, MaySearchUnder};

use crate::whole_search_at::WholeSearchAt;
use pb_inst::{Assignment, Best, Lit, Memory};
use pb_normal::{Normal, Width};
use pb_subtree::{Goal, Outcome, Share};
use std::alloc::Global;
use std::marker::Model;

/// What the searches of a whole instance need. It owns all of it, so that it may be kept from one question to the next, with
/// what the searches so far have taught the order of decisions and the multipliers. Contracts see the normal form that it was
/// made of; the instance may be any one whose normal form that is.
pub struct WholeSearch {
    at_width: Width<WholeSearchAt<u64>, WholeSearchAt<u128>>,
}

impl Model for WholeSearch {
    ghost use Rattle.pb_normal.specs.NormalForm.{NormalForm};
    ghost use Rattle.pb_normal.specs.Widths.{either};

    ghost Value = { NormalForm };

    ghost view = { λ s. either s.at_width };
}

impl Drop for WholeSearch {
    fn drop(self) {
        let WholeSearch { at_width: _ } = self;
    }
}

impl WholeSearch {
    /// Makes all that the searches need, over a normal form. Fails where memory is refused.
    pub fn new(alloc: Global, normal: &Normal) -> Result<WholeSearch, Memory>
        ensures { IfOk result (λ s. s ≡ normal.now) }
    {
        let at_width = match normal.form() {
            Width::Narrow(form) => Width::Narrow(WholeSearchAt::new(alloc, form)?),
            Width::Wide(form) => Width::Wide(WholeSearchAt::new(alloc, form)?),
        };
        Ok(WholeSearch { at_width })
    }

    /// Searches the assignments that make a cube true, whose literals are of the instance's variables: the piece of that cube.
    /// Its decisions are taken off what is `left` of a budget, if there is one, so that several calls can share it. It answers
    /// `Cut` where it would need one more, and where the goal is met and something is left to search. After `Whole` no feasible
    /// assignment of the piece is before the best one. In any case the best one is not after what it was, is none only where it
    /// was none, and the search may run again. It takes no memory, and asks the share as `Search::run` does.
    pub fn run<S: Share>(
        &mut self,
        cube: &[Lit],
        best: &mut Best<'_>,
        share: &mut S,
        goal: Goal,
        left: &mut Option<u64>,
    ) -> Outcome
        requires { MaySearchUnder best.old.problem self.old cube.now }
        ensures searched { IsSearchedUnder cube.now goal (S.lends share.old) best.old best.new left.old left.new result }
        ensures kept { S.keeps share.old share.new }
        ensures same_lending { S.lends share.new ≡ S.lends share.old }
        ensures unchanged { self.new ≡ self.old }
    {
        match &mut self.at_width {
            Width::Narrow(search) => search.search(cube, best, share, goal, left),
            Width::Wide(search) => search.search(cube, best, share, goal, left),
        }
    }

    /// Further searches try the values of this assignment from outside first. It may be any one, since no answer depends on it.
    pub fn suggest(&mut self, values: &Assignment)
        ensures { self.new ≡ self.old }
    {
        match &mut self.at_width {
            Width::Narrow(search) => search.suggest(values),
            Width::Wide(search) => search.suggest(values),
        }
    }
}

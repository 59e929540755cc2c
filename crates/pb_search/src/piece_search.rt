//! Searches of pieces that count in numbers of one width: each cube is searched under its literals, by one search that goes on
//! learning.
//! Source: [H11]

ghost use Rattle.std.specs.Prelude.{◌≡◌, ◌≤◌, ℕ, [], length, IfOk, IfNone, IfSome, IsTrue, Option};
ghost use Rattle.pb_cubes.specs.Done.{IsDone};
ghost use Rattle.pb_inst.specs.Incumbent.{Solution};
ghost use Rattle.pb_inst.specs.Problem.{Problem};
ghost use Rattle.pb_search.specs.Form.{IsFormOf};
ghost use Rattle.pb_search.specs.Layout.{IsCubeState};
ghost use Rattle.pb_search.specs.Root.{IsFixedFor};
ghost use Rattle.pb_search.specs.Searched.{IsPieceSearched};
ghost use Rattle.pb_subtree.specs.Held.{MovesOn};

use crate::facts::facts_of;
use crate::piece_tables::PieceTables;
use crate::whole_root::WholeRoot;
use pb_cubes::{Piece, Pieces};
use pb_engine::{Coefficient, clause_laws};
use pb_inst::{Best, Instance, Lit, Memory};
use pb_normal::Form;
use pb_subtree::{Goal, Outcome, SearchState, Share, search_under};
use std::alloc::Global;
use std::marker::Model;

/// A state for the searches of cubes, where there are any.
fn cube_state<'a, C: Coefficient>(
    alloc: Global,
    instance: &Instance,
    form: &Form<C>,
    pieces: &Pieces,
) -> Result<Option<SearchState<C>>, Memory>
    requires form { IsFormOf instance.now form.now }
    ensures none { IfOk result (λ made. IfNone made (pieces.now.cubes ≡ [])) }
    ensures some { IfOk result (λ made. IfSome made (IsCubeState instance.now)) }
{
    facts_of(instance);
    clause_laws();
    if pieces.cubes().is_empty() {
        return Ok(None);
    }
    Ok(Some(SearchState::new(alloc, form, &[])?))
}

/// An engine for the cubes, where there are any, and one for the remainder, which all searches use again, the room for decisions and
/// assignments, and what the search of the whole fixed. They count in numbers of type `C`.
pub struct PieceSearch<'a, C: Coefficient> {
    instance: &'a Instance,
    pieces: &'a Pieces,
    /// For all cubes, and none where there is no cube.
    cube: Option<SearchState<C>>,
    rest: SearchState<C>,
    /// What is fixed for all pieces, where there is a cube.
    whole: Option<WholeRoot<'a>>,
}

impl<'a, C: Coefficient> Model for PieceSearch<'a, C> {
    ghost use Rattle.pb_cubes.specs.Done.{Division};

    ghost Value = { Division };

    ghost use Rattle.std.specs.Prelude.{◌≡◌, IfSome};
    ghost use Rattle.pb_search.specs.Layout.{IsLaidOut};

    ghost view = { λ s. record { problem = s.instance.now; cubes = s.pieces.now.cubes } };

    ghost invariant = { λ s. IsLaidOut s.instance.now s.pieces.now s.cube s.rest × IfSome s.whole (λ w. w.best.problem ≡ s.instance.now) };
}

impl<'a, C: Coefficient> Drop for PieceSearch<'a, C> {
    fn drop(self) {
        let PieceSearch {
            instance: _,
            pieces: _,
            cube: _,
            rest: _,
            whole: _,
        } = self;
    }
}

impl<'a, C: Coefficient> PieceSearch<'a, C> {
    /// Makes all that the searches of the pieces need, over a normal form of the instance. Fails where memory is refused.
    pub fn new(
        alloc: Global,
        instance: &'a Instance,
        form: &Form<C>,
        pieces: &'a Pieces,
    ) -> Result<PieceSearch<'a, C>, Memory>
        requires form { IsFormOf instance.now form.now }
        requires pieces { pieces.now.vars ≡ instance.now.vars }
        ensures { IfOk result (λ s. s ≡ record { problem = instance.now; cubes = pieces.now.cubes }) }
    {
        facts_of(instance);
        clause_laws();
        let cube = cube_state(alloc, instance, form, pieces)?;
        let whole = whole_root(alloc, instance, pieces)?;
        let rest = SearchState::new(alloc, form, pieces.cubes())?;
        Ok(PieceSearch {
            instance,
            pieces,
            cube,
            rest,
            whole,
        })
    }

    /// Makes all that the searches of the pieces need, over tables that are lent. Fails where memory is refused.
    pub fn over(alloc: Global, tables: &'a PieceTables<'a, C>) -> Result<PieceSearch<'a, C>, Memory>
        ensures { IfOk result (λ s. s ≡ tables.now) }
    {
        let (instance, pieces) = (tables.instance(), tables.pieces());
        let whole = whole_root(alloc, instance, pieces)?;
        let (cube, rest) = tables.states(alloc)?;
        Ok(PieceSearch {
            instance,
            pieces,
            cube,
            rest,
            whole,
        })
    }

    /// Begins the search of the whole for so long, where there is a cube. What it fixes for good is kept for the searches of pieces.
    pub fn begin<S: Share>(&mut self, best: &mut Best<'_>, share: &mut S, turns: u32)
        requires { best.old.problem ≡ self.old.problem }
        ensures moves_on { MovesOn best.old best.new }
        ensures kept { S.keeps share.old share.new }
        ensures same_lending { S.lends share.new ≡ S.lends share.old }
        ensures unchanged { self.new ≡ self.old }
    {
        let Some(whole) = &mut self.whole else {
            return;
        };
        let Some(state) = &mut self.cube else {
            return;
        };
        if !whole.is_due(best) {
            return;
        }
        whole.serve(best);
        whole.begin(state, best, share, turns);
    }

    /// Whether nothing comes before the best assignment, since the whole was searched.
    pub fn is_settled(&mut self, best: &Best<'_>) -> bool
        requires { best.now.problem ≡ self.old.problem }
        ensures settled { IsTrue result → (i : ℕ) → IsDone self.old i best.now.held }
        ensures unchanged { self.new ≡ self.old }
    {
        // The contract of this call says that what is held is a solution.
        let _ = best.cost();
        serve(&mut self.whole, best);
        let (_, is_closed) = fixed(&self.whole);
        is_closed
    }

    /// Searches a piece: that of a cube, or the remainder as the last one; or stops where it would need one decision more than
    /// are left, and where turns are counted as `search_under` does.
    pub fn search<S: Share>(
        &mut self,
        piece: u32,
        best: &mut Best<'_>,
        share: &mut S,
        turns: Option<u32>,
        left: &mut Option<u64>,
    ) -> Outcome
        requires piece { piece ≤ length self.old.cubes }
        requires same_instance { best.old.problem ≡ self.old.problem }
        ensures searched { IsPieceSearched self.old piece (S.lends share.old) turns best.old best.new left.old left.new result }
        ensures kept { S.keeps share.old share.new }
        ensures same_lending { S.lends share.new ≡ S.lends share.old }
        ensures unchanged { self.new ≡ self.old }
    {
        // The contract of this call says that what is held is a solution.
        let _ = best.cost();
        serve(&mut self.whole, best);
        let (root, is_closed) = fixed(&self.whole);
        if is_closed {
            return Outcome::Whole;
        }
        match self.pieces.piece(piece) {
            Piece::Cube(cube) => {
                let Some(state) = &mut self.cube else {
                    // Never: there is a state wherever there is a cube.
                    return Outcome::Whole;
                };
                let cube = cube.lits();
                let outcome = search_under(
                    state,
                    root,
                    cube,
                    best,
                    share,
                    Goal::Least,
                    turns,
                    left,
                );
                state.begin_piece();
                outcome
            }
            Piece::Rest(_) => {
                let state = &mut self.rest;
                search_under(state, root, &[], best, share, Goal::Least, turns, left)
            }
        }
    }
}

/// Room for what is fixed for all pieces, which is nothing yet, where there is a cube. Fails where memory is refused.
fn whole_root<'a>(
    alloc: Global,
    instance: &'a Instance,
    pieces: &Pieces,
) -> Result<Option<WholeRoot<'a>>, Memory>
    ensures { IfOk result (λ made. IfSome made (λ w. w.best.problem ≡ instance.now)) }
{
    if pieces.cubes().is_empty() {
        return Ok(None);
    }
    Ok(Some(WholeRoot::none(alloc, instance)?))
}

/// Forgets what is fixed if it need not be for this best assignment.
fn serve(whole: &mut Option<WholeRoot<'_>>, best: &Best<'_>)
    requires { IfSome whole.old (λ w. w.best.problem ≡ best.now.problem) }
    ensures fixed { IfSome whole.new (λ w. IsFixedFor best.now.problem w.literals w.closed best.now.held) }
    ensures same_instance { IfSome whole.new (λ w. w.best.problem ≡ best.now.problem) }
{
    if let Some(whole) = whole {
        whole.serve(best);
    }
}

/// The literals that are fixed, and whether nothing comes before the best assignment.
fn fixed<'r>(whole: &'r Option<WholeRoot<'_>>) -> (&'r [Lit], bool)
    ensures { (p : Problem) (held : Option Solution) → IfSome whole.now (λ w. IsFixedFor p w.literals w.closed held) → IsFixedFor p result.0.now result.1 held }
{
    match whole {
        Some(whole) => (whole.literals(), whole.is_closed()),
        None => (&[], false),
    }
}

//! Tables that count in numbers of one width.

ghost use Rattle.std.specs.Prelude.{◌≡◌, [], IfOk, IfNone, IfSome};
ghost use Rattle.pb_search.specs.Form.{IsFormOf};
ghost use Rattle.pb_search.specs.Layout.{AreTables, IsCubeState, IsLaidOut, pieces_of};

use crate::facts::facts_of;
use pb_cubes::Pieces;
use pb_engine::{Clauses, Coefficient, Rows, clause_laws, shared_in};
use pb_inst::{Instance, Memory};
use pb_normal::Form;
use pb_subtree::SearchState;
use std::alloc::Global;
use std::marker::Model;
use std::sync::Arc;

/// The rows of an instance's normal form and the clauses of its remainder, with where each literal occurs. They count in
/// numbers of type `C`.
pub struct PieceTables<'a, C: Coefficient> {
    instance: &'a Instance,
    pieces: &'a Pieces,
    rows: Arc<Rows<C>, Global>,
    none: Arc<Clauses, Global>,
    rest: Arc<Clauses, Global>,
}

impl<'a, C: Coefficient> Model for PieceTables<'a, C> {
    ghost use Rattle.pb_cubes.specs.Done.{Division};

    ghost Value = { Division };

    ghost use Rattle.std.specs.Arc.{arc_value};
    ghost use Rattle.pb_search.specs.Layout.{AreTables};

    ghost view = { λ t. record { problem = t.instance.now; cubes = t.pieces.now.cubes } };

    ghost invariant = { λ t. AreTables t.instance.now t.pieces.now (arc_value t.rows) (arc_value t.none) (arc_value t.rest) };
}

impl<'a, C: Coefficient> Drop for PieceTables<'a, C> {
    fn drop(self) {
        let PieceTables {
            instance: _,
            pieces: _,
            rows: _,
            none: _,
            rest: _,
        } = self;
    }
}

impl<'a, C: Coefficient> PieceTables<'a, C> {
    /// Builds the tables over a normal form of the instance. Fails where memory is refused.
    pub fn new(
        alloc: Global,
        instance: &'a Instance,
        form: &Form<C>,
        pieces: &'a Pieces,
    ) -> Result<PieceTables<'a, C>, Memory>
        requires form { IsFormOf instance.now form.now }
        requires pieces { pieces.now.vars ≡ instance.now.vars }
        ensures { IfOk result (λ t. t ≡ record { problem = instance.now; cubes = pieces.now.cubes }) }
    {
        facts_of(instance);
        let rows = Rows::new(alloc, form)?;
        let none = Clauses::new(alloc, &rows, &[])?;
        let rest = Clauses::new(alloc, &rows, pieces.cubes())?;
        PieceTables::of_parts(alloc, instance, pieces, rows, none, rest)
    }

    /// The tables of these parts, in memory that the searches share. Fails where memory is refused.
    fn of_parts(
        alloc: Global,
        instance: &'a Instance,
        pieces: &'a Pieces,
        rows: Rows<C>,
        none: Clauses,
        rest: Clauses,
    ) -> Result<PieceTables<'a, C>, Memory>
        requires { AreTables instance.now pieces.now rows none rest }
        ensures { IfOk result (λ t. t ≡ record { problem = instance.now; cubes = pieces.now.cubes }) }
    {
        let rows = shared_in(alloc, rows)?;
        let none = shared_in(alloc, none)?;
        let rest = shared_in(alloc, rest)?;
        Ok(PieceTables {
            instance,
            pieces,
            rows,
            none,
            rest,
        })
    }

    pub fn instance(&self) -> &'a Instance
        ensures { result.now ≡ self.now.problem }
    {
        self.instance
    }

    pub fn pieces(&self) -> &'a Pieces
        ensures { result.now ≡ pieces_of self.now.problem self.now.cubes }
    {
        self.pieces
    }

    /// A state for the searches of cubes, where there are any, and one for that of the remainder.
    pub fn states(&self, alloc: Global) -> Result<(Option<SearchState<C>>, SearchState<C>), Memory>
        ensures { IfOk result (λ t. IsLaidOut self.now.problem (pieces_of self.now.problem self.now.cubes) t.0 t.1) }
    {
        clause_laws();
        let cube = self.cube_state(alloc)?;
        let rest = SearchState::over(alloc, &self.rows, &self.rest, self.pieces.cubes())?;
        Ok((cube, rest))
    }

    /// A state for the searches of cubes, where there are any.
    fn cube_state(&self, alloc: Global) -> Result<Option<SearchState<C>>, Memory>
        ensures none { IfOk result (λ made. IfNone made (self.now.cubes ≡ [])) }
        ensures some { IfOk result (λ made. IfSome made (IsCubeState self.now.problem)) }
    {
        clause_laws();
        if self.pieces.cubes().is_empty() {
            return Ok(None);
        }
        Ok(Some(SearchState::over(alloc, &self.rows, &self.none, &[])?))
    }
}

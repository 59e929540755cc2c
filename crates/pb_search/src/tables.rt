//! What the searches of an instance's pieces share.

ghost use Rattle.std.specs.Prelude.{◌≡◌, IfOk};
ghost use Rattle.pb_normal.specs.NormalForm.{KeepsCost, KeepsFeasible};
ghost use Rattle.pb_normal.specs.Widths.{lent};

use crate::piece_tables::PieceTables;
use pb_cubes::Pieces;
use pb_inst::{Instance, Memory};
use pb_normal::{Normal, Width};
use std::alloc::Global;
use std::marker::Model;

/// The rows of an instance's normal form and the clauses of its remainder, with where each literal occurs. They are built
/// once and lent to the searches of all workers. They count in numbers of the normal form's width.
pub struct SearchTables<'a> {
    at_width: Width<PieceTables<'a, u64>, PieceTables<'a, u128>>,
}

impl<'a> Model for SearchTables<'a> {
    ghost use Rattle.pb_cubes.specs.Done.{Division};
    ghost use Rattle.pb_normal.specs.Widths.{either};

    ghost Value = { Division };

    ghost view = { λ t. either t.at_width };
}

impl<'a> Drop for SearchTables<'a> {
    fn drop(self) {
        let SearchTables { at_width: _ } = self;
    }
}

impl<'a> SearchTables<'a> {
    /// Builds the tables over a normal form of the instance. Fails where memory is refused.
    pub fn new(
        alloc: Global,
        instance: &'a Instance,
        normal: &'a Normal,
        pieces: &'a Pieces,
    ) -> Result<SearchTables<'a>, Memory>
        requires vars { normal.now.vars ≡ instance.now.vars }
        requires feasible { KeepsFeasible instance.now normal.now }
        requires costs { KeepsCost instance.now normal.now }
        requires pieces { pieces.now.vars ≡ instance.now.vars }
        ensures { IfOk result (λ t. t ≡ record { problem = instance.now; cubes = pieces.now.cubes }) }
    {
        let at_width = match normal.form() {
            Width::Narrow(form) => {
                Width::Narrow(PieceTables::new(alloc, instance, form, pieces)?)
            }
            Width::Wide(form) => { Width::Wide(PieceTables::new(alloc, instance, form, pieces)?) }
        };
        Ok(SearchTables { at_width })
    }

    /// The tables at their width.
    pub(crate) fn at_width(&self) -> Width<&PieceTables<'a, u64>, &PieceTables<'a, u128>>
        ensures { lent result ≡ self.now }
    {
        match &self.at_width {
            Width::Narrow(tables) => Width::Narrow(tables),
            Width::Wide(tables) => Width::Wide(tables),
        }
    }
}

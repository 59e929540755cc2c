//! Whether an instance with a piece's clauses keeps the limits on constraints and terms.
ghost use Rattle.std.specs.Prelude.{◌≡◌, ◌↔◌, ◌+◌, ◌≤◌, length, IfSome, IsSome, IsTrue, sum_by};
ghost use Rattle.pb_inst.specs.Limits.{term_count};
ghost use Rattle.pb_inst.specs.Problem.{statements};
ghost use Rattle.pb_inst.specs.declared.limits.TheConstants.{MAX_TERMS};
ghost use Rattle.pb_write.specs.Pieces.{clauses_of, with_clauses, KeepsCounts};

use pb_cubes::Piece;
use pb_inst::{Cube, Instance, MAX_CONSTRAINTS, MAX_TERMS};

/// The number of the instance's constraints and the piece's clauses, where these and their terms are within the limits.
pub(crate) fn constraint_count(instance: &Instance, piece: Piece<'_>) -> Option<usize>
    ensures counted { IfSome result (λ n. n ≡ length (with_clauses instance.now (clauses_of piece.entry)).constraints) }
    ensures kept { IsSome result ↔ KeepsCounts (with_clauses instance.now (clauses_of piece.entry)) }
{
    let clauses = clause_count(piece);
    if clauses > MAX_CONSTRAINTS - instance.len() {
        return None;
    }
    if !has_room_for_terms(piece, spare_terms(instance)) {
        return None;
    }
    Some(instance.len() + clauses)
}

/// The number of the piece's clauses.
fn clause_count(piece: Piece<'_>) -> usize
    ensures { result ≡ length (clauses_of piece.entry) }
{
    match piece {
        Piece::Cube(cube) => cube.lits().len(),
        Piece::Rest(cubes) => cubes.len(),
    }
}

/// How many more terms the instance could have.
fn spare_terms(instance: &Instance) -> usize
    ensures { result + term_count (statements instance.now) ≡ MAX_TERMS }
{
    let mut spare = MAX_TERMS;
    if let Some(terms) = instance.objective() {
        spare -= terms.len();
    }
    for i in 0..instance.len() {
        spare -= instance.constraint(i).terms.len();
    }
    spare
}

/// Whether the clauses of the piece have at most `spare` literals.
fn has_room_for_terms(piece: Piece<'_>, spare: usize) -> bool
    ensures { IsTrue result ↔ (sum_by length (clauses_of piece.entry) ≤ spare) }
{
    match piece {
        Piece::Cube(cube) => cube.lits().len() <= spare,
        Piece::Rest(cubes) => has_literals_within(cubes, spare),
    }
}

/// Whether the cubes have at most `most` literals together.
fn has_literals_within(cubes: &[Cube], most: usize) -> bool
    ensures { IsTrue result ↔ (sum_by length cubes.now ≤ most) }
{
    let mut left = most;
    for cube in cubes {
        let literals = cube.lits().len();
        if literals > left {
            return false;
        }
        left -= literals;
    }
    true
}

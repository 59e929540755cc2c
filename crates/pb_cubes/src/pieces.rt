//! Pieces: one for each cube, and the remainder.
//! Source: [H11]

ghost use Rattle.std.specs.Prelude.{◌≡◌, ◌↔◌, ℕ, Bool, List, ◌+◌, ◌<◌, ◌≤◌, ◌⊎◌, Any, length, vec_len, IfOk, IfErr, IsErrOf, IsTrue, false};
ghost use Rattle.pb_inst.specs.Literal.{Literal};
ghost use Rattle.pb_inst.specs.declared.limits.TheConstants.{MAX_CUBES};
ghost use Rattle.pb_cubes.specs.Pieces.{CubeList, LiesInSome, AreWithin, HasVariableOver};

use crate::{CubeFault, MAX_CUBES};
use pb_inst::Cube;
use std::marker::Model;

/// One piece of the search: a set of assignments.
#[derive(Clone, Copy)]
pub enum Piece<'a> {
    /// The assignments that make every literal of the cube true.
    Cube(&'a Cube),
    /// The remainder: the assignments that make some literal of each of these cubes false.
    Rest(&'a [Cube]),
}

/// A list of at most `MAX_CUBES` cubes over the variables 1 to n, and the pieces that they make: one for each cube, in
/// order, and the remainder as the last one. Every assignment lies in some piece. Pieces may overlap: cubes may repeat,
/// and an empty cube, which every assignment makes true, leaves the remainder without assignments.
#[derive(Drop)]
pub struct Pieces {
    vars: u32,
    cubes: Vec<Cube>,
}

impl Model for Pieces {
    ghost use Rattle.std.specs.Prelude.{length, ◌≤◌};
    ghost use Rattle.pb_inst.specs.declared.limits.TheConstants.{MAX_CUBES};
    ghost use Rattle.pb_cubes.specs.Pieces.{CubeList, AreWithin};

    ghost Value = { CubeList };

    ghost view = { λ p. record { vars = p.vars; cubes = p.cubes.items } };

    ghost invariant = { λ p. (length p.cubes.items ≤ MAX_CUBES) × AreWithin p.vars p.cubes.items };
}

impl Pieces {
    ghost use Rattle.pb_cubes.specs.Piece.{IsPiece};

    /// The pieces of these cubes, which are kept as they are. More than `MAX_CUBES` cubes are `TooMany`; otherwise a
    /// literal of a variable over `n` is `BadVariable`. Takes no memory.
    pub fn new(n: u32, cubes: Vec<Cube>) -> Result<Pieces, CubeFault>
        ensures accepted { IfOk result (λ p. p ≡ record { vars = n; cubes = cubes.items }) }
        ensures too_many { IsErrOf result CubeFault.TooMany ↔ (MAX_CUBES < vec_len cubes) }
        ensures bad_variable { IsErrOf result CubeFault.BadVariable ↔ ((vec_len cubes ≤ MAX_CUBES) × HasVariableOver n cubes.items) }
        ensures no_other { IfErr result (λ fault. (fault ≡ CubeFault.TooMany) ⊎ (fault ≡ CubeFault.BadVariable)) }
    {
        if cubes.len() > MAX_CUBES {
            return Err(CubeFault::TooMany);
        }
        if has_variable_over(&cubes, n) {
            return Err(CubeFault::BadVariable);
        }
        Ok(Pieces { vars: n, cubes })
    }

    /// The number of variables, n.
    pub fn vars(&self) -> u32
        ensures { result ≡ self.now.vars }
    {
        self.vars
    }

    /// The number of pieces, which is that of the cubes and one for the remainder.
    pub fn len(&self) -> u32
        ensures count { result ≡ length self.now.cubes + 1 }
        ensures covers { (a : List Bool) → LiesInSome self.now.cubes result a }
    {
        self.cubes.len() as u32 + 1
    }

    /// The cubes as they were handed over, in order: at most `MAX_CUBES`.
    pub fn cubes(&self) -> &[Cube]
        ensures value { result.now ≡ self.now.cubes }
        ensures within { AreWithin self.now.vars self.now.cubes }
        ensures few { length result.now ≤ MAX_CUBES }
    {
        &self.cubes
    }

    /// Piece `i`, from 0 and below `len()`: that of cube `i`, or, as the last one, the remainder.
    pub fn piece(&self, i: u32) -> Piece<'_>
        requires { i ≤ length self.now.cubes }
        ensures piece { IsPiece self.now.cubes i result }
        ensures within { AreWithin self.now.vars self.now.cubes }
    {
        match self.cubes.get(i as usize) {
            Some(cube) => Piece::Cube(cube),
            None => Piece::Rest(&self.cubes),
        }
    }
}

/// Whether some literal is of a variable over n.
fn has_variable_over(cubes: &[Cube], n: u32) -> bool
    ensures over { IsTrue result → HasVariableOver n cubes.now }
    ensures within { result ≡ false → AreWithin n cubes.now }
{
    cubes
        .iter()
        .any(|cube| cube.lits().iter().any(|lit| lit.var() > n))
}

//! Worked splits and lists of pieces.

use super::texts::instance_of;
use super::written::{Literals, are_cubes, cube_of};
use pb_cubes::{CubeFault, Piece, Pieces, split};
use pb_inst::{Cube, Instance};
use std::alloc::{AllocError, Global};
use std::process::Abort;

/// Instances, whose headers tell their variables, and splits of more variables than are allowed.
const REFUSED: &[(&[u8], u32)] = &[
    (b"", 1),
    (b"* #variable= 3 #constraint= 0\n", 4),
    (b"* #variable= 12 #constraint= 0\n", 13),
    (b"* #variable= 13 #constraint= 0\n", 13),
    (b"* #variable= 100 #constraint= 0\n", u32::MAX),
];

/// The cubes of the split, also where one allocation is refused.
fn split_again(alloc: Global, instance: &Instance, k: u32) -> Result<Vec<Cube>, CubeFault> {
    match split(alloc, instance, k) {
        Err(CubeFault::Memory) => split(alloc, instance, k),
        answer => answer,
    }
}

/// Whether a split by no variable gives the empty cube alone.
fn is_split_by_none(rt: &impl Abort, alloc: Global, text: &[u8]) -> bool {
    let instance = instance_of(rt, alloc, text);
    match split_again(alloc, &instance, 0) {
        Ok(cubes) => are_cubes(&cubes, &[&[]]),
        Err(_) => false,
    }
}

#[test]
fn splits_by_no_variable(rt: HostRuntime) {
    assert!(rt; is_split_by_none(&rt, rt.alloc(), b""));
    assert!(rt; is_split_by_none(&rt, rt.alloc(), b"min: 1 x1 ; 1 x1 1 x2 >= 1 ;"));
}

fn is_refused(rt: &impl Abort, alloc: Global, text: &[u8], k: u32) -> bool {
    let instance = instance_of(rt, alloc, text);
    matches!(split_again(alloc, &instance, k), Err(CubeFault::BadSplit))
}

#[test]
fn refuses_splits(rt: HostRuntime) {
    for (text, k) in REFUSED {
        assert!(rt; is_refused(&rt, rt.alloc(), text, *k), "{text:?}, k = {k}");
    }
}

const CUBES: [Literals; 2] = [&[-3, 1], &[-3]];

/// The cubes of each piece: one, or for the remainder all.
const PIECES: [&[Literals]; 3] = [&[&[-3, 1]], &[&[-3]], &CUBES];

fn cubes_once(rt: &impl Abort, alloc: Global) -> Result<Vec<Cube>, AllocError> {
    let mut cubes = Vec::with_capacity(alloc, CUBES.len())?;
    for literals in CUBES {
        cubes.push(cube_of(rt, alloc, literals))?;
    }
    Ok(cubes)
}

/// The cubes, also where one allocation is refused.
fn cubes(rt: &impl Abort, alloc: Global) -> Vec<Cube> {
    match cubes_once(rt, alloc) {
        Ok(cubes) => cubes,
        Err(_) => cubes_once(rt, alloc).expect(rt, "memory"),
    }
}

fn is_piece(piece: Piece<'_>, expected: &[Literals]) -> bool {
    match piece {
        Piece::Cube(cube) => are_cubes(std::slice::from_ref(cube), expected),
        Piece::Rest(rest) => are_cubes(rest, expected),
    }
}

fn are_pieces(pieces: &Pieces) -> bool {
    if pieces.vars() != 3 || pieces.len() != 3 {
        return false;
    }
    for i in 0..3 {
        if !is_piece(pieces.piece(i), PIECES[i as usize]) {
            return false;
        }
    }
    true
}

#[test]
fn makes_pieces(rt: HostRuntime) {
    let made = Pieces::new(3, cubes(&rt, rt.alloc()));
    assert!(rt; are_pieces(&made.expect(&rt, "pieces")));
}

#[test]
fn refuses_cubes_of_more_variables(rt: HostRuntime) {
    let refused = Pieces::new(2, cubes(&rt, rt.alloc()));
    assert!(rt; matches!(refused, Err(CubeFault::BadVariable)));
}

//! Words of assignments, and cubes of few and of many literals.

use super::instances::zeros;
use super::written::{cube_of, is_cube, lits_of};
use pb_inst::{Cube, Lit};
use std::alloc::Global;
use std::process::Abort;

#[test]
fn words_are_kept(rt: HostRuntime) {
    let alloc = rt.alloc();
    let lit = Lit::new(64, false).expect(&rt, "a variable");
    let mut a = zeros(&rt, alloc, 70);
    let mut b = zeros(&rt, alloc, 70);
    a.set_word(1, u64::MAX);
    assert!(rt; a.word(0) == 0 && a.word(1) == 0b111111);
    b.copy_from(&a);
    assert!(rt; b.get(65) && b.get(70) && !b.get(64) && b.satisfies(lit));
}

const SIXTEEN: [i32; 16] = [-2; 16];

const SEVENTEEN: [i32; 17] = [-2; 17];

/// The cube, which takes no memory of its own.
fn short_cube(rt: &impl Abort, alloc: Global, literals: &[i32]) -> Cube {
    let lits = lits_of(rt, alloc, literals);
    Cube::new(alloc, &lits).expect(rt, "places inline")
}

#[test]
fn cubes_keep_literals(rt: HostRuntime) {
    assert!(rt; is_cube(&cube_of(&rt, rt.alloc(), &SEVENTEEN), &SEVENTEEN));
    assert!(rt; is_cube(&short_cube(&rt, rt.alloc(), &SIXTEEN), &SIXTEEN));
}

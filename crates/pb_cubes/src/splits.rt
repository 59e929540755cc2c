//! The split: 2^k cubes over the k variables that occur most often.

ghost use Rattle.std.specs.Prelude.{◌≡◌, ℕ, ◌<◌, ◌≤◌, ◌^◌, ◌⊎◌, ◌↔◌, Bool, List, length, vec_len, All, Any, IfOk, IfErr, IsErrOf};
ghost use Rattle.pb_inst.specs.declared.limits.TheConstants.{MAX_SPLIT};
ghost use Rattle.pb_inst.specs.declared.limits.TheConstants.{MAX_VARS};
ghost use Rattle.pb_inst.specs.Cubes.{MakesTrue};
ghost use Rattle.pb_cubes.specs.Pieces.{AreWithin};
ghost use Rattle.pb_cubes.specs.Split.{numbered_cube, split_cubes, IsSplit};

use crate::occurrences::most_occurring;
use crate::{CubeFault, MAX_SPLIT};
use pb_inst::{Cube, Instance, Lit, Memory};
use std::alloc::Global;

/// The 2^k cubes over the `k` variables that occur most often in the constraints' terms, as written, ties to the lower
/// index. Cube m, from 0, has a literal of each of these variables, the most frequent first: positive where the
/// binary digit of m is 1, the highest digit for the first variable. So `k` = 0 gives one empty cube, and every assignment
/// makes some cube true.
/// A `k` over `MAX_SPLIT` or over the number of variables is `BadSplit`; refused memory is `Memory`.
pub fn split(alloc: Global, instance: &Instance, k: u32) -> Result<Vec<Cube>, CubeFault>
    ensures bad_split { IsErrOf result CubeFault.BadSplit ↔ ((MAX_SPLIT < k) ⊎ (instance.now.vars < k)) }
    ensures cubes { IfOk result (λ cubes. IsSplit instance.now k cubes.items) }
    ensures number { IfOk result (λ cubes. vec_len cubes ≡ 2 ^ k) }
    ensures within { IfOk result (λ cubes. AreWithin instance.now.vars cubes.items) }
    ensures covers { IfOk result (λ cubes. (a : List Bool) → Any (λ cube. MakesTrue a cube) cubes.items) }
    ensures no_other { IfErr result (λ fault. (fault ≡ CubeFault.BadSplit) ⊎ (fault ≡ CubeFault.Memory)) }
{
    if k > MAX_SPLIT || k > instance.vars() {
        return Err(CubeFault::BadSplit);
    }
    let variables = most_occurring(alloc, instance, k)?;
    let cubes = cubes_over(alloc, &variables)?;
    Ok(cubes)
}

/// All cubes over the variables, by their numbers.
fn cubes_over(alloc: Global, variables: &[u32]) -> Result<Vec<Cube>, Memory>
    requires few { length variables.now ≤ MAX_SPLIT }
    requires in_range { All (λ v. (1 ≤ v) × (v ≤ MAX_VARS)) variables.now }
    ensures { IfOk result (λ cubes. cubes.items ≡ split_cubes variables.now) }
{
    let number_of_cubes = 1u32 << variables.len() as u32;
    let mut cubes = Vec::with_capacity(alloc, number_of_cubes as usize)?;
    for number in 0..number_of_cubes {
        cubes.push_reserved(cube_of_number(alloc, variables, number)?);
    }
    Ok(cubes)
}

/// The cube of this number: the first variable has the highest binary digit.
fn cube_of_number(alloc: Global, variables: &[u32], number: u32) -> Result<Cube, Memory>
    requires few { length variables.now ≤ MAX_SPLIT }
    requires in_range { All (λ v. (1 ≤ v) × (v ≤ MAX_VARS)) variables.now }
    ensures { IfOk result (λ cube. cube ≡ numbered_cube variables.now number) }
{
    let mut lits = [Lit::default(); MAX_SPLIT as usize];
    for (i, variable) in variables.iter().enumerate() {
        let digit = (number >> (variables.len() - 1 - i) as u32) & 1;
        lits[i] = literal(*variable, digit == 1);
    }
    Cube::new(alloc, &lits[..variables.len()])
}

/// The literal of a variable that is known to be in range.
fn literal(variable: u32, positive: bool) -> Lit
    requires { (1 ≤ variable) × (variable ≤ MAX_VARS) }
    ensures { result ≡ record { var = variable; positive = positive } }
{
    match Lit::new(variable, positive) {
        Ok(lit) => lit,
        Err(_) => unreachable!(),
    }
}

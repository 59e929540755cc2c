//! Finding cliques.
ghost use Rattle.std.specs.Prelude.{◌≡◌, All, IfOk, IsTrue, OnOk};
ghost use Rattle.pb_clique.specs.Cliques.{Covers, IsClique};

use crate::arcs::{Arcs, NO_CLIQUE};
use pb_inst::{Lit, Memory};
use pb_rows::LiteralLists;
use std::alloc::Global;

/// The fewest literals of a clique: of two literals the clause says as much.
const FEWEST: usize = 3;

/// How many looks for a clause between two literals the search for cliques may make for each arc.
const LOOKS_PER_ARC: u64 = 64;

/// Cliques of three literals and more, as they are found by going over the arcs in their order: from each arc that no clique has
/// yet, a clique grows by each further literal that has a clause with all its literals so far. Which cliques are found depends on
/// the order alone. Each arc pays for some looks; when all are made, the rest is left as it is.
pub(crate) fn find_cliques(alloc: Global, arcs: &mut Arcs<'_>) -> Result<LiteralLists, Memory>
    ensures same { arcs.new ≡ arcs.old }
    ensures cliques { IfOk result (λ cliques. All (IsClique arcs.old) cliques) }
{
    let mut cliques = LiteralLists::new(alloc);
    let mut clique = Vec::new(alloc);
    let mut looks = LOOKS_PER_ARC.saturating_mul(arcs.len() as u64);
    for place in 0..arcs.len() {
        if !arcs.is_open(place) {
            continue;
        }
        grow_from(arcs, place, &mut clique, &mut looks)?;
        keep(arcs, &clique, &mut cliques)?;
    }
    Ok(cliques)
}

/// Adds the clique to those that were found, and records at its arcs that it has them, where it has enough literals.
fn keep(arcs: &mut Arcs<'_>, clique: &[Lit], cliques: &mut LiteralLists) -> Result<(), Memory>
    requires clique { IsClique arcs.old clique.now }
    requires cliques { All (IsClique arcs.old) cliques.old }
    ensures same { arcs.new ≡ arcs.old }
    ensures cliques { OnOk result (All (IsClique arcs.old) cliques.new) }
{
    if clique.len() < FEWEST {
        return Ok(());
    }
    let number = u32::try_from(cliques.len()).unwrap_or(NO_CLIQUE);
    cliques.push(clique)?;
    mark(arcs, clique, number);
    Ok(())
}

/// Grows a clique from the arc at this place: first by literals whose arcs come after it, then by those whose arcs come before.
fn grow_from(
    arcs: &Arcs<'_>,
    place: usize,
    clique: &mut Vec<Lit>,
    looks: &mut u64,
) -> Result<(), Memory>
    ensures { OnOk result (IsClique arcs.now clique.new.items) }
{
    clique.clear();
    let Some(arc) = arcs.get(place) else {
        return Ok(());
    };
    clique.push(arc.from)?;
    clique.push(arc.to)?;
    let (begin, end) = arcs.neighbours(place);
    grow(arcs, place.saturating_add(1), end, clique, looks)?;
    grow(arcs, begin, place, clique, looks)
}

/// Adds each literal to which an arc at one of these places leads and that has a clause with all literals of the clique so far.
fn grow(
    arcs: &Arcs<'_>,
    begin: usize,
    end: usize,
    clique: &mut Vec<Lit>,
    looks: &mut u64,
) -> Result<(), Memory>
    requires { IsClique arcs.now clique.old.items }
    ensures { OnOk result (IsClique arcs.now clique.new.items) }
{
    for place in begin..end {
        if let Some(arc) = arcs.get(place)
            && covers_all(arcs, clique, arc.to, looks)
        {
            clique.push(arc.to)?;
        }
    }
    Ok(())
}

/// Whether the literal has a clause with each of these. Each look is counted, and without looks left the answer is no.
fn covers_all(arcs: &Arcs<'_>, clique: &[Lit], lit: Lit, looks: &mut u64) -> bool
    ensures { IsTrue result → All (λ other. Covers arcs.now other lit) clique.now }
{
    for other in clique {
        if *looks == 0 || !arcs.has(*other, lit) {
            return false;
        }
        *looks -= 1;
    }
    true
}

/// Records at all arcs between literals of the clique that it has them.
fn mark(arcs: &mut Arcs<'_>, clique: &[Lit], number: u32)
    ensures { arcs.new ≡ arcs.old }
{
    for lit in clique {
        mark_from(arcs, *lit, clique, number);
    }
}

fn mark_from(arcs: &mut Arcs<'_>, from: Lit, clique: &[Lit], number: u32)
    ensures { arcs.new ≡ arcs.old }
{
    for to in clique {
        arcs.put_clique(from, *to, number);
    }
}

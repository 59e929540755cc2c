//! The clauses of two literals, sorted, so that it is soon found whether two literals stand in one.
ghost use Rattle.std.specs.Prelude.{◌≡◌, ◌<◌, All, length, IfOk, IfSome, IsTrue, OnOk};
ghost use Rattle.pb_clique.specs.Cliques.{Covers};

use crate::clauses::clause_of;
use pb_inst::{Instance, Lit, Memory};
use std::alloc::Global;
use std::marker::Model;

/// No clique has this number.
pub(crate) const NO_CLIQUE: u32 = u32::MAX;

/// A clause of two literals as it is seen from one of them: where `from` is false, `to` is true.
#[derive(Clone, Copy)]
pub(crate) struct Arc {
    /// What arcs are sorted by: the number of `from`, and then that of `to`.
    key: u64,
    pub(crate) from: Lit,
    pub(crate) to: Lit,
}

/// Both arcs of each clause of two literals of an instance, sorted, and beside each arc the clique that has its literals, if one
/// does. Contracts see the instance.
#[derive(Drop)]
pub(crate) struct Arcs<'i> {
    instance: &'i Instance,
    arcs: Vec<Arc>,
    cliques: Vec<u32>,
}

impl<'i> Model for Arcs<'i> {
    ghost use Rattle.std.specs.Prelude.{All};
    ghost use Rattle.pb_inst.specs.Problem.{Problem};
    ghost use Rattle.pb_clique.specs.Cliques.{Covers};

    ghost Value = { Problem };

    ghost view = { λ s. s.instance.now };

    ghost invariant = { λ s. All (λ arc. Covers s.instance.now arc.from arc.to) s.arcs.items };
}

impl<'i> Arcs<'i> {
    /// The arcs of the instance. Fails where memory is refused.
    pub(crate) fn new(alloc: Global, instance: &'i Instance) -> Result<Arcs<'i>, Memory>
        ensures { IfOk result (λ arcs. arcs ≡ instance.now) }
    {
        let arcs = sorted_arcs(alloc, instance)?;
        let cliques = Vec::from_elem(alloc, NO_CLIQUE, arcs.len())?;
        Ok(Arcs {
            instance,
            arcs,
            cliques,
        })
    }

    /// The number of arcs.
    pub(crate) fn len(&self) -> usize {
        self.arcs.len()
    }

    /// The arc at this place, if there is one.
    pub(crate) fn get(&self, place: usize) -> Option<Arc>
        ensures { IfSome result (λ arc. Covers self.now arc.from arc.to) }
    {
        self.arcs.get(place).copied()
    }

    /// Whether the literals stand in a clause.
    pub(crate) fn has(&self, from: Lit, to: Lit) -> bool
        ensures { IsTrue result → Covers self.now from to }
    {
        let Some(place) = self.place_of(from, to) else {
            return false;
        };
        match self.get(place) {
            Some(arc) => arc.from == from && arc.to == to,
            None => false,
        }
    }

    /// Where the arcs that lead from the literal of the arc at this place begin and end.
    pub(crate) fn neighbours(&self, place: usize) -> (usize, usize) {
        let Some(arc) = self.arcs.get(place) else {
            return (0, 0);
        };
        let first = number_of(arc.from) << 32;
        let begin = self.arcs.partition_point(|other| other.key < first);
        let end = self
            .arcs
            .partition_point(|other| other.key <= first | u64::from(u32::MAX));
        (begin, end)
    }

    /// The number of the clique that has both literals, if one does.
    pub(crate) fn clique_of(&self, from: Lit, to: Lit) -> Option<u32> {
        let place = self.place_of(from, to)?;
        self.clique_at(place)
    }

    /// Whether a clique may begin at the arc at this place: no clique has its literals yet, and it is the first arc of the two.
    pub(crate) fn is_open(&self, place: usize) -> bool {
        let Some(arc) = self.arcs.get(place) else {
            return false;
        };
        self.clique_at(place).is_none() && number_of(arc.from) < number_of(arc.to)
    }

    /// The number of the clique that has the literals of the arc at this place, if one does.
    fn clique_at(&self, place: usize) -> Option<u32> {
        match self.cliques.get(place) {
            Some(clique) if *clique != NO_CLIQUE => Some(*clique),
            _ => None,
        }
    }

    /// Records that the clique of this number has both literals.
    pub(crate) fn put_clique(&mut self, from: Lit, to: Lit, clique: u32)
        ensures { self.new ≡ self.old }
    {
        if let Some(place) = self.place_of(from, to)
            && let Some(kept) = self.cliques.get_mut(place)
        {
            *kept = clique;
        }
    }

    /// The place of the arc between the literals, if there is one.
    fn place_of(&self, from: Lit, to: Lit) -> Option<usize> {
        let key = key_of(from, to);
        match self.arcs.binary_search_by_key(&key, |arc| arc.key) {
            Ok(place) => Some(place),
            Err(_) => None,
        }
    }
}

/// Both arcs of each clause of two literals, sorted.
fn sorted_arcs(alloc: Global, instance: &Instance) -> Result<Vec<Arc>, Memory>
    ensures { IfOk result (λ arcs. All (λ arc. Covers instance.now arc.from arc.to) arcs.items) }
{
    let mut arcs = unsorted_arcs(alloc, instance)?;
    arcs.sort_unstable_by_key(|arc| arc.key);
    Ok(arcs)
}

/// Both arcs of each clause of two literals, in the order of the constraints.
fn unsorted_arcs(alloc: Global, instance: &Instance) -> Result<Vec<Arc>, Memory>
    ensures { IfOk result (λ arcs. All (λ arc. Covers instance.now arc.from arc.to) arcs.items) }
{
    let mut arcs = Vec::new(alloc);
    for i in 0..instance.len() {
        put_arcs(&mut arcs, instance, i)?;
    }
    Ok(arcs)
}

/// Adds both arcs of the constraint at this place, where it is a clause of two literals.
fn put_arcs(arcs: &mut Vec<Arc>, instance: &Instance, i: usize) -> Result<(), Memory>
    requires within { i < length instance.now.constraints }
    requires arcs { All (λ arc. Covers instance.now arc.from arc.to) arcs.old.items }
    ensures { OnOk result (All (λ arc. Covers instance.now arc.from arc.to) arcs.new.items) }
{
    let Some((one, other)) = clause_of(&instance.constraint(i)) else {
        return Ok(());
    };
    arcs.push(arc_between(one, other))?;
    arcs.push(arc_between(other, one))?;
    Ok(())
}

fn arc_between(from: Lit, to: Lit) -> Arc
    ensures { (result.from ≡ from) × (result.to ≡ to) }
{
    Arc {
        key: key_of(from, to),
        from,
        to,
    }
}

/// What an arc is sorted by.
fn key_of(from: Lit, to: Lit) -> u64 {
    number_of(from) << 32 | number_of(to)
}

/// A number of the literal, less than 2^32.
fn number_of(lit: Lit) -> u64 {
    u64::from(lit.var()) << 1 | u64::from(lit.positive())
}

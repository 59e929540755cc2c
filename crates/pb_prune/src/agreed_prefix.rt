//! On how many of the first variables the trail is known to agree with the best assignment, for the tie rule.

ghost use Rattle.std.specs.Prelude.{◌≡◌, ℕ, ◌+◌, ◌-◌, ◌<◌, ◌≤◌, List, Option, length, take, true, false, IsTrue, IfSome, slice_index_or};
ghost use Rattle.pb_inst.specs.Literal.{Literal};
ghost use Rattle.pb_inst.specs.Incumbent.{Solution};
ghost use Rattle.pb_engine.specs.Soundness.{IsSoundTrail};
ghost use Rattle.pb_prune.specs.Subtree.{DifferAt, HasOnesWithin, IsNotBefore};
ghost use Rattle.pb_prune.specs.AgreedPrefix.{KnowsPrefix, KnowsHeldPrefix};

use pb_engine::{Coefficient, EngineAt};
use pb_inst::{Assignment, Best, Lit};

/// The prefix of variables on which the trail has the ones of the best assignment: each of the first `count` variables
/// that the best one makes true is made true by the first `seen` literals of the trail. It goes along with the search, so
/// that no node goes through the whole best assignment again.
#[derive(Clone, Copy)]
pub struct AgreedPrefix {
    seen: usize,
    count: u32,
    /// A variable that was true on the trail and is false in the best assignment, or 0. It is tested again before it is used,
    /// since the trail may have lost it.
    surplus: u32,
    /// Whether the best assignment came from another search since this one began. Nothing is promised of it.
    borrowed: bool,
}

impl AgreedPrefix {
    /// What is known of every trail: none lacks a 1 before the first one of the best assignment. So no search of a piece
    /// looks at the variables before it.
    pub fn of(best: &Best<'_>) -> AgreedPrefix
        ensures { (trail : List Literal) → KnowsHeldPrefix trail best.now.held result }
    {
        AgreedPrefix {
            seen: 0,
            count: best.leading_zeros(),
            surplus: 0,
            borrowed: false,
        }
    }

    /// The best assignment may be another one, which this search found.
    pub fn begin_again(&mut self, best: &Best<'_>)
        ensures { (trail : List Literal) → KnowsHeldPrefix trail best.now.held self.new }
    {
        let borrowed = self.borrowed;
        *self = AgreedPrefix::of(best);
        self.borrowed = borrowed;
    }

    /// The best assignment is another one, which another search found.
    pub fn begin_with_borrowed(&mut self, best: &Best<'_>)
        ensures { (trail : List Literal) → KnowsHeldPrefix trail best.now.held self.new }
    {
        *self = AgreedPrefix::of(best);
        self.borrowed = true;
    }

    /// Whether another search's assignment was held since this search began.
    pub fn has_borrowed(&self) -> bool {
        self.borrowed
    }

    /// Whether the trail has a 1 where the assignment has 0, and before it every 1 of the assignment. It looks at the
    /// literals that joined the trail since the last time.
    pub fn has_surplus<C: Coefficient>(&mut self, engine: &EngineAt<C>, held: &Assignment) -> bool
        requires known { KnowsPrefix engine.now.trail held.now self.old }
        ensures later { IsTrue result → IsNotBefore engine.now.trail held.now }
        ensures known { KnowsPrefix engine.now.trail held.now self.new }
    {
        let from = self.seen;
        self.seen = engine.trail_len();
        // Before the first variable there is none that the trail could have beyond the assignment.
        if self.count == 0 {
            return false;
        }
        if is_surplus(engine, held, self.count, self.surplus) {
            return true;
        }
        let Some(var) = surplus_from(engine, held, self.count, from) else {
            return false;
        };
        self.surplus = var;
        true
    }

    /// Counts on up to the first variable where the trail, with zeros elsewhere, and the assignment differ. Gives how many
    /// variables come before it.
    pub fn extend<C: Coefficient>(&mut self, engine: &EngineAt<C>, held: &Assignment) -> u32
        requires known { KnowsPrefix engine.now.trail held.now self.old }
        ensures ones { HasOnesWithin engine.now.trail held.now 0 result }
        ensures within { result ≤ length held.now }
        ensures differ { result < length held.now → DifferAt engine.now.trail held.now (result + 1) }
        ensures known { KnowsPrefix engine.now.trail held.now self.new }
    {
        self.seen = engine.trail_len();
        self.count = agreed_from(engine, held, self.count);
        self.count
    }

    /// Forgets what the literals from this one on made known, before they are taken back.
    pub fn forget_from<C: Coefficient>(&mut self, engine: &EngineAt<C>, lit: Lit, best: &Best<'_>)
        requires sound { IsSoundTrail engine.now }
        requires known { KnowsHeldPrefix engine.now.trail best.now.held self.old }
        ensures known { KnowsHeldPrefix engine.now.trail best.now.held self.new }
    {
        if self.count == 0 {
            self.seen = 0;
        } else if let Some(held) = best.assignment() {
            self.forget_down_to(engine, lit, held);
        }
    }

    /// Forgets, where an assignment is held, what each literal from the end of the trail back to this one made known.
    fn forget_down_to<C: Coefficient>(&mut self, engine: &EngineAt<C>, lit: Lit, held: &Assignment)
        requires sound { IsSoundTrail engine.now }
        requires known { KnowsPrefix engine.now.trail held.now self.old }
        ensures known { KnowsPrefix engine.now.trail held.now self.new }
    {
        for place in (0..engine.trail_len()).rev() {
            let last = engine.literal(place);
            if place + 1 == self.seen {
                self.forget_last(engine, last, held);
            }
            if last.var() == lit.var() {
                return;
            }
        }
    }

    /// Forgets what the last one of the literals seen made known.
    fn forget_last<C: Coefficient>(&mut self, engine: &EngineAt<C>, last: Lit, held: &Assignment)
        requires sound { IsSoundTrail engine.now }
        requires some { 1 ≤ self.old.seen }
        requires last { last ≡ slice_index_or engine.now.trail (self.old.seen - 1) last }
        requires known { KnowsPrefix engine.now.trail held.now self.old }
        ensures known { KnowsPrefix engine.now.trail held.now self.new }
    {
        self.seen -= 1;
        self.count = count_without(held, self.count, last);
    }

    /// After literals were taken back: nothing is known where one of those seen is gone.
    pub fn cut<C: Coefficient>(&mut self, engine: &EngineAt<C>)
        ensures known { (n : ℕ) → (longer : List Literal) → (held : Option Solution) → engine.now.trail ≡ take n longer → KnowsHeldPrefix longer held self.old → KnowsHeldPrefix engine.now.trail held self.new }
    {
        if self.seen > engine.trail_len() {
            self.forget();
        }
    }

    /// Nothing is known.
    fn forget(&mut self)
        ensures { (trail : List Literal) → (held : Option Solution) → KnowsHeldPrefix trail held self.new }
    {
        self.seen = 0;
        self.count = 0;
    }
}

/// How many of the first `count` variables stay counted without the literal: all, or those before its variable where the
/// assignment makes the literal true as a variable.
fn count_without(held: &Assignment, count: u32, last: Lit) -> u32
    requires within { count ≤ length held.now }
    ensures fewer { result ≤ count }
    ensures without { last.positive ≡ true → last.var ≤ count → slice_index_or held.now (last.var - 1) false ≡ true → result < last.var }
{
    if !last.positive() || last.var() > count {
        return count;
    }
    if held.get(last.var()) {
        return last.var() - 1;
    }
    count
}

/// Whether the variable is one of the first `count`, the trail makes it true and the assignment does not.
fn is_surplus<C: Coefficient>(engine: &EngineAt<C>, held: &Assignment, count: u32, var: u32) -> bool
    requires within { count ≤ length held.now }
    requires ones { HasOnesWithin engine.now.trail held.now 0 count }
    ensures { IsTrue result → IsNotBefore engine.now.trail held.now }
{
    if var == 0 || var > count {
        return false;
    }
    if held.get(var) {
        return false;
    }
    engine.value(var) == Some(true)
}

/// A variable of that kind among those of the trail's literals from the place on.
fn surplus_from<C: Coefficient>(
    engine: &EngineAt<C>,
    held: &Assignment,
    count: u32,
    from: usize,
) -> Option<u32>
    requires within { count ≤ length held.now }
    requires ones { HasOnesWithin engine.now.trail held.now 0 count }
    ensures { IfSome result (λ _. IsNotBefore engine.now.trail held.now) }
{
    for place in from..engine.trail_len() {
        let var = engine.literal(place).var();
        if is_surplus(engine, held, count, var) {
            return Some(var);
        }
    }
    None
}

/// How many variables come before the first one, after the first `from`, where the trail, with zeros elsewhere, and the
/// assignment differ; all where there is none.
fn agreed_from<C: Coefficient>(engine: &EngineAt<C>, held: &Assignment, from: u32) -> u32
    requires within { from ≤ length held.now }
    requires ones { HasOnesWithin engine.now.trail held.now 0 from }
    ensures ones { HasOnesWithin engine.now.trail held.now 0 result }
    ensures within { result ≤ length held.now }
    ensures differ { result < length held.now → DifferAt engine.now.trail held.now (result + 1) }
{
    for place in from..held.len() {
        if held.get(place + 1) != engine.value(place + 1).unwrap_or(false) {
            return place;
        }
    }
    held.len()
}

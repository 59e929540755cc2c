//! What a search gives to other searches and takes from them.

ghost use Rattle.std.specs.Prelude.{◌≡◌, Bool, false, length, IsTrue, refl};

use pb_inst::{Assignment, Number};

/// The ways between a search and others that run beside it.
pub trait Share {
    /// What the calls leave unchanged, as a relation of the value before and after.
    ghost keeps: { Self → Self → Type 0 };

    /// Whether it lends assignments.
    ghost lends: { Self → Bool };

    /// Tells of an assignment that the search found, and of its cost.
    fn offer(&mut self, cost: Number, assignment: &Assignment)
        ensures kept { keeps self.old self.new }
        ensures same_lending { lends self.new ≡ lends self.old };

    /// Hands over bits that may be an assignment of a cost below the given one. They may be any, so whoever borrows checks them.
    fn borrow(&mut self, below: Number, into: &mut Assignment) -> bool
        ensures kept { keeps self.old self.new }
        ensures same_lending { lends self.new ≡ lends self.old }
        ensures lent { IsTrue result → IsTrue (lends self.old) }
        ensures same_length { length into.new ≡ length into.old };

    /// Whether others have done what the search is for. A search that counts turns ends then. It is asked before
    /// each decision, so an answer costs no more than a load.
    fn is_over(&self) -> bool;

    ghost keeps_itself: { (s : Self) → keeps s s };

    ghost keeps_onward: { (s t u : Self) → keeps s t → keeps t u → keeps s u };
}

/// A share with nobody, so that a search alone is the same code: it does nothing and does not lend.
#[derive(Clone, Copy)]
pub struct Alone;

impl Share for Alone {
    ghost keeps = { λ s t. t ≡ s };

    ghost lends = { λ s. false };

    ghost keeps_itself = { λ s. refl };

    ghost keeps_onward = { λ s t u h k. Prim.cc };

    fn offer(&mut self, _cost: Number, _assignment: &Assignment) {}

    fn borrow(&mut self, _below: Number, _into: &mut Assignment) -> bool {
        false
    }

    fn is_over(&self) -> bool {
        false
    }
}

//! The rule of the board's table, and what each atomic step tells the seat that steps. The types have no values: they
//! name the definitions of specs/Rule.antt and specs/Steps.antt at a call.

ghost use Rattle.std.specs.Prelude.{ℕ};
ghost use Rattle.pb_board.specs.Rule.{BoardRule, spent, whole};
ghost use Rattle.pb_board.specs.Steps.{Claims, Counts, Offers, Reads, Stays, given, joined, kept};

use crate::view::View;
use atomic_table::{Join, Play, Split, TableRule};
use std::marker::{Brand, PhantomData};

/// The claimed numbers are those below the counter, each once, and the least word is the least of all offers.
pub struct Rule;

impl TableRule<(), View, u32> for Rule {
    ghost holds = { λ workers s. BoardRule workers s };

    ghost first = { whole };
}

/// The number found joins the claims.
pub struct Claim;

impl Play<(), View> for Claim {
    ghost then = { Claims };
}

/// The key joins the offers.
pub struct Offer;

impl Play<(), View> for Offer {
    ghost then = { Offers };
}

/// The word found is what was seen.
pub struct Read;

impl Play<(), View> for Read {
    ghost then = { Reads };
}

/// Nothing changes.
pub struct Stay;

impl Play<(), View> for Stay {
    ghost then = { Stays };
}

/// Nothing changes, and the seat is shown to have no more parts than there may be workers.
pub struct Count;

impl Play<(), View> for Count {
    ghost then = { Counts };
}

/// How many parts the first of two seats keeps, as a ghost number that a call picks.
pub trait Keep {
    ghost parts: { ℕ };
}

impl Keep for Brand {
    ghost parts = { 0 };
}

/// One seat becomes two.
pub struct Cut<K: Keep> {
    marker: PhantomData<K>,
}

impl<K: Keep> Split<View> for Cut<K> {
    ghost left = { kept K.parts };

    ghost right = { given K.parts };
}

/// Two seats become one.
pub struct Both;

impl Join<View> for Both {
    ghost both = { joined };

    ghost spent = { spent };
}

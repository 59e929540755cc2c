//! A share that hands over what it likes.

ghost use Rattle.std.specs.Prelude.{⊤, true};

use super::values::{Values, set};
use pb_inst::{Assignment, Number};
use pb_search::Share;

/// What a share was asked and told.
#[derive(Clone, Copy)]
pub struct Notes {
    /// How often it was asked.
    pub asked: u64,
    /// The first cost that it was to be below, and 0 before.
    pub first_below: Number,
    /// The last cost that it was to be below, and 0 before.
    pub last_below: Number,
    /// How often it was offered something.
    pub offered: u64,
    /// The last cost of what it was offered, and 0 before.
    pub last_offered: Number,
}

/// Hands over values in turn, and begins again after the last ones. Where there are none, it may pretend that it handed
/// something over, and leave the bits as they are.
#[derive(Clone, Copy)]
pub struct Lender<'a> {
    lent: &'a [Values],
    next: usize,
    pretends: bool,
    pub notes: Notes,
}

impl<'a> Lender<'a> {
    pub fn new(lent: &'a [Values], pretends: bool) -> Lender<'a> {
        let notes = Notes {
            asked: 0,
            first_below: 0,
            last_below: 0,
            offered: 0,
            last_offered: 0,
        };
        Lender {
            lent,
            next: 0,
            pretends,
            notes,
        }
    }
}

impl<'a> Share for Lender<'a> {
    ghost keeps = { λ s t. ⊤ };

    ghost lends = { λ s. true };

    ghost keeps_itself = { λ s. tt };

    ghost keeps_onward = { λ s t u h k. tt };

    fn offer(&mut self, cost: Number, _assignment: &Assignment) {
        self.notes.offered = self.notes.offered.saturating_add(1);
        self.notes.last_offered = cost;
    }

    fn borrow(&mut self, below: Number, into: &mut Assignment) -> bool {
        self.notes.asked = self.notes.asked.saturating_add(1);
        if self.notes.asked == 1 {
            self.notes.first_below = below;
        }
        self.notes.last_below = below;
        if self.next >= self.lent.len() {
            self.next = 0;
        }
        let Some(values) = self.lent.get(self.next) else {
            return self.pretends;
        };
        set(into, *values);
        self.next += 1;
        true
    }

    fn is_over(&self) -> bool {
        false
    }
}

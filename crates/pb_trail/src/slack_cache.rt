//! The slack cache: the slack at which each long row was last looked through.

ghost use Rattle.std.specs.Prelude.{◌≡◌, ◌<◌, true, length, IfOk, IfSome};
ghost use Rattle.pb_trail.specs.SlackCache.{IsKnown, IsEntryOf, KnowsNothing, NotesOnly};

use pb_count::{Coefficient, Counter};
use pb_inst::Memory;
use pb_normal::{Form, FormTerm};
use std::alloc::Global;
use std::marker::Model;

/// A row of the form with at least `LONG` terms is long. Looking through a shorter one costs less than finding out what is
/// known of it. The number was chosen by hand.
const LONG: usize = 64;

/// The slack at which a row was last looked through, and the number of undoings from which on it is stale.
#[derive(Clone, Copy)]
struct CachedSlack<C: Coefficient> {
    row: usize,
    slack: Counter<C>,
    until: u64,
}

impl<C: Coefficient> Model for CachedSlack<C> {
    ghost use Rattle.pb_trail.specs.SlackCache.{CachedSlack as Cached};

    ghost Value = { Cached };

    ghost view = { λ l. record { row = l.row; slack = l.slack; until = l.until } };

    ghost inverse = { λ l. record { row = l.row; slack = l.slack; until = l.until } };
}

/// The slack at which each long row was last looked through, in the order of the rows, and how often literals were taken off
/// the trail. A slack is stale once literals were taken off since. Short rows are not kept, and take no memory.
#[derive(Drop)]
pub struct SlackCache<C: Coefficient> {
    last: Vec<CachedSlack<C>>,
    /// Stays at the greatest number once it gets there, and from then on nothing is known.
    undone: u64,
}

impl<C: Coefficient> Model for SlackCache<C> {
    ghost use Rattle.std.specs.Prelude.{◌+◌, ◌^◌, ◌<◌, ◌≤◌, All};
    ghost use Rattle.pb_trail.specs.SlackCache.{SlackCacheState};

    ghost Value = { SlackCacheState };

    ghost view = { λ l. record { last = l.last.items; undone = l.undone } };

    ghost invariant = { λ l. All (λ entry. (entry.until ≤ l.undone + 1) × (entry.until < 2 ^ 64)) l.last.items };
}

impl<C: Coefficient> SlackCache<C> {
    /// The cache that knows nothing yet. It makes room for all long rows of the form.
    pub fn new(alloc: Global, form: &Form<C>) -> Result<SlackCache<C>, Memory>
        ensures { IfOk result (λ slack_cache. KnowsNothing slack_cache) }
    {
        let mut last = Vec::with_capacity(alloc, count_long(form))?;
        for row in 0..form.len() {
            if is_long(form.terms(row)) {
                let slack = Counter::of(0);
                last.push(CachedSlack {
                    row,
                    slack,
                    until: 0,
                })?;
            }
        }
        Ok(SlackCache { last, undone: 0 })
    }

    /// Whether the row was looked through at this slack or a lesser one, with nothing undone since.
    pub fn knows(&self, row: usize, slack: Counter<C>) -> bool
        ensures { result ≡ true → IsKnown self.now row slack }
    {
        match self.place_of(row) {
            Some(place) => {
                let entry = self.last[place];
                self.undone < entry.until && !slack.is_below(entry.slack)
            }
            None => false,
        }
    }

    /// Notes that the row was looked through at the slack. A short row is not noted.
    pub fn note(&mut self, row: usize, slack: Counter<C>)
        ensures { NotesOnly self.old self.new row slack }
    {
        if let Some(place) = self.place_of(row) {
            let until = self.undone.saturating_add(1);
            self.last[place] = CachedSlack { row, slack, until };
        }
    }

    /// Forgets all, since literals are taken off the trail.
    pub fn forget(&mut self)
        ensures { KnowsNothing self.new }
    {
        self.undone = self.undone.saturating_add(1);
    }

    /// The place of the row's slack, if the row is long.
    fn place_of(&self, row: usize) -> Option<usize>
        ensures { IfSome result (λ place. IsEntryOf self.now row place) }
    {
        match self.last.binary_search_by_key(&row, |entry| entry.row) {
            Ok(place) => Some(place),
            Err(_) => None,
        }
    }
}

/// Whether a row of these terms is long.
#[inline]
pub fn is_long<C: Coefficient>(terms: &[FormTerm<C>]) -> bool {
    terms.len() >= LONG
}

/// The number of long rows.
fn count_long<C: Coefficient>(form: &Form<C>) -> usize {
    let mut count = 0;
    for row in 0..form.len() {
        if is_long(form.terms(row)) {
            count += 1;
        }
    }
    count
}

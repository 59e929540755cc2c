//! When the search asks its share for an assignment: at the beginning of a piece, and after every 256th decision, where the
//! decisions of probes and dives count too.

/// After how many decisions the share is asked. Any moment would do. Asked this seldom, it costs next to nothing, and what
/// another search found still soon prunes here.
const INTERVAL: u64 = 256;

/// The decisions since the share was asked last. No answer depends on them, so nothing is promised.
#[derive(Clone, Copy)]
pub struct Looks {
    decisions: u64,
    /// Whether a dive was handed a better assignment on its way.
    has_borrowed: bool,
}

impl Looks {
    /// The share was just asked.
    pub fn new() -> Looks {
        Looks {
            decisions: 0,
            has_borrowed: false,
        }
    }

    /// `decisions` more decisions were made.
    pub fn count(&mut self, decisions: u64) {
        self.decisions = self.decisions.saturating_add(decisions);
    }

    /// Whether the share is to be asked before the next decision.
    pub fn is_due(&self) -> bool {
        self.decisions >= INTERVAL
    }

    /// How many decisions may be made before it is to be asked.
    pub fn until_due(&self) -> u64 {
        INTERVAL.saturating_sub(self.decisions)
    }

    /// The share is asked now.
    pub fn begin_again(&mut self) {
        self.decisions = 0;
    }

    /// A dive was handed a better assignment.
    pub fn note_borrowed(&mut self) {
        self.has_borrowed = true;
    }

    /// Whether a dive was handed a better assignment since this was asked last.
    pub fn take_borrowed(&mut self) -> bool {
        let has_borrowed = self.has_borrowed;
        self.has_borrowed = false;
        has_borrowed
    }
}

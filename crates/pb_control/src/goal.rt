//! When a search is over before all was searched.

ghost use Rattle.std.specs.Prelude.{◌≡◌, ◌≢◌, ◌⊎◌, false, Some, IsTrue};
ghost use Rattle.pb_control.specs.Goal.{IsMet};

use pb_inst::{Best, Number};

/// What is searched for.
#[derive(Clone, Copy, Debug, PartialEq, Eq)]
pub enum Goal {
    /// The least assignment, so all is searched.
    Least,
    /// Any assignment: the search ends with the first that is held.
    Any,
    /// One that costs no more: the search ends with the first such that is held.
    AtMost(Number),
}

impl Goal {
    /// Whether the search ends before its next decision: what is held is what is searched for, or no decision is left.
    pub fn is_reached(self, best: &Best<'_>, left: Option<u64>) -> bool
        ensures reached { IsTrue result → (left ≡ Some 0) ⊎ IsMet self best.now.held }
        ensures some_left { result ≡ false → left ≢ Some 0 }
    {
        left == Some(0) || self.is_met(best)
    }

    /// Whether what is held is what is searched for.
    pub fn is_met(self, best: &Best<'_>) -> bool
        ensures { IsTrue result → IsMet self best.now.held }
    {
        match (self, best.cost()) {
            (Goal::Least, _) | (_, None) => false,
            (Goal::Any, Some(_)) => true,
            (Goal::AtMost(most), Some(cost)) => cost <= most,
        }
    }
}

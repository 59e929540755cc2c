//! How the search of a piece ends.

/// How far a search of a piece got.
#[derive(Clone, Copy, Debug, PartialEq, Eq)]
pub enum Outcome {
    /// The whole piece was searched: none of its feasible assignments is before the best one.
    Whole,
    /// The search would have needed one decision more than it was allowed. What it found so far is held.
    Cut,
}

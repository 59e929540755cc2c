//! What a bound says of a subtree.

/// What the bound says of a subtree.
#[derive(Clone, Copy, PartialEq, Eq)]
pub enum Pruning {
    /// Something in it may cost less than the best assignment.
    Open,
    /// Nothing in it costs less, but an assignment that costs as much may come before the best one, and this
    /// variable is the first at which the best one differs from the trail with zeros elsewhere.
    Tied(u32),
    /// Nothing in it comes before the best assignment.
    Closed,
}

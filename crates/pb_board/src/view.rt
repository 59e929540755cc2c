//! What the proofs know of a seat.

use std::collections::LinkedList;

/// What a seat knows: its parts, the numbers that it claimed, the keys that it offered, and the least key that it has
/// seen. No value of it is made.
pub struct View {
    pub parts: u32,
    pub claimed: LinkedList<u64>,
    pub offered: LinkedList<u64>,
    pub seen: u64,
}

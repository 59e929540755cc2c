//! How many workers share an instance, and in which order each looks at the others.

ghost use Rattle.std.specs.Prelude.{◌≡◌, ◌≢◌, ◌<◌, ◌≤◌, ℕ, OkIff};
ghost use Rattle.pb_inst.specs.declared.limits.TheConstants.{MAX_WORKERS};

use crate::MAX_WORKERS;
use std::marker::Model;
use thiserror::Error;

/// A number of workers that is not from 1 to `MAX_WORKERS`.
#[derive(Clone, Copy, Debug, PartialEq, Eq, Error)]
#[error("the number of workers is out of range")]
pub struct BadWorkers;

/// How many workers share an instance: 1 to `MAX_WORKERS`. Contracts see the number.
#[derive(Clone, Copy, Debug, PartialEq, Eq)]
pub struct Workers {
    count: u32,
}

impl Model for Workers {
    ghost Value = { ℕ };

    ghost view = { λ w. w.count };

    ghost invariant = { λ w. (1 ≤ w.count) × (w.count ≤ MAX_WORKERS) };

    ghost inverse = { λ n. record { count = n } };
}

impl Workers {
    /// A number from 1 to `MAX_WORKERS`. Fails at any other number.
    pub fn new(count: u32) -> Result<Workers, BadWorkers>
        ensures { OkIff result ((1 ≤ count) × (count ≤ MAX_WORKERS)) count }
    {
        if count == 0 || count > MAX_WORKERS {
            return Err(BadWorkers);
        }
        Ok(Workers { count })
    }

    /// The number, from 1 to `MAX_WORKERS`.
    pub fn get(self) -> u32
        ensures value { result ≡ self }
        ensures in_range { (1 ≤ result) × (result ≤ MAX_WORKERS) }
    {
        self.count
    }
}

/// Of `count` workers or tasks, numbered from 0 on, the one whose turn comes after that of `last`, passing over `this`. It
/// is `this` only where there is no other.
pub fn next_other(count: u32, this: u32, last: u32) -> u32
    ensures other { 1 < count → result ≢ this }
    ensures within { 0 < count → result < count }
{
    let next = next_in_turn(count, last);
    if next == this {
        next_in_turn(count, next)
    } else {
        next
    }
}

/// The one before `this`, and the last one where `this` is 0. Tasks are begun in the order of their numbers, so among
/// those that have begun, the one just before knows most.
pub fn next_in_turn(count: u32, this: u32) -> u32
    ensures another { 1 < count → result ≢ this }
    ensures within { 0 < count → result < count }
{
    let greatest = count.saturating_sub(1);
    if this == 0 {
        greatest
    } else {
        greatest.min(this - 1)
    }
}

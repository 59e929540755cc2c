//! The limits of an instance, of the cubes that divide it, and of what searches it.

use crate::Magnitude;

/// The most variables that an instance may have.
pub const MAX_VARS: u32 = 1_048_576;

/// The most constraints that an instance may have.
pub const MAX_CONSTRAINTS: usize = 4_194_304;

/// The most terms that the objective and all constraints may have together.
pub const MAX_TERMS: usize = 16_777_216;

/// The most that absolute coefficients may add up to: in a constraint together with its bound, in the objective alone.
/// It is 2^126 - 1, so that no partial sum leaves the range of a `Number`.
pub const SUM_BOUND: Magnitude = 85_070_591_730_234_615_865_843_651_857_942_052_863;

/// The most workers that may share an instance.
pub const MAX_WORKERS: u32 = 64;

/// The most cubes that may divide one search.
pub const MAX_CUBES: usize = 1_048_575;

/// The most variables of a split.
pub const MAX_SPLIT: u32 = 12;

/// The most pieces into which an instance may be divided: those of the cubes, and the remainder.
pub const MAX_PIECES: u64 = 1_048_576;

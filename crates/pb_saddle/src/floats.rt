//! Numbers of 128 bits as floats, and lists of floats.

use std::num::{nearest_u64_to_f64, saturating_f64_to_u64};

/// One more than the greatest number of 64 bits.
const WORD: u128 = 18_446_744_073_709_551_616;

/// That number as a float: a power of 2, so that it is exact.
const WORD_AS_FLOAT: f64 = 18_446_744_073_709_551_616.0;

/// The number as a float, about: both halves and their sum are rounded.
#[inline]
pub fn float(number: u128) -> f64 {
    let low = nearest_u64_to_f64((number % WORD) as u64);
    if number < WORD {
        return low;
    }
    nearest_u64_to_f64((number / WORD) as u64) * WORD_AS_FLOAT + low
}

/// The float rounded down to a whole number and cut to the range; 0 where it is not a number.
pub fn number(value: f64) -> u128 {
    let high = saturating_f64_to_u64(value / WORD_AS_FLOAT);
    let low = saturating_f64_to_u64(value - nearest_u64_to_f64(high) * WORD_AS_FLOAT);
    u128::from(high) * WORD + u128::from(low)
}

/// The value at the place; 0 behind the end, so that no caller has to show that a place is in range.
#[inline]
pub fn at(values: &[f64], place: usize) -> f64 {
    if place < values.len() {
        return values[place];
    }
    0.0
}

/// Puts the value at the place, if there is such a place.
#[inline]
pub fn put(values: &mut [f64], place: usize, value: f64) {
    if place < values.len() {
        values[place] = value;
    }
}

/// Adds the value at the end, if there is room.
pub fn add(values: &mut Vec<f64>, value: f64) {
    if values.len() < values.capacity() {
        values.push_reserved(value);
    }
}

/// Fills the list anew with `count` copies of the value, or as many as there is room for.
pub fn refill(values: &mut Vec<f64>, count: usize, value: f64) {
    values.clear();
    for _ in 0..count {
        add(values, value);
    }
}

/// Fills the list anew with the others, or as many of them as there is room for.
pub fn copy(values: &mut Vec<f64>, others: &[f64]) {
    values.clear();
    for other in others {
        add(values, *other);
    }
}

//! Flags kept 64 to a word.

ghost use Rattle.std.specs.Prelude.{◌≡◌, ℕ, ◌+◌, ◌*◌, ◌/◌, ◌^◌, ◌<◌, ◌≤◌, None, true, false, length, min, replicate, slice_index_or, slice_set, IfOk};
ghost use Rattle.std.specs.Option.{ForSome};
ghost use Rattle.pb_bits.specs.RowSet.{HasMember, HasNoneBetween};

use crate::flags::Flags;
use pb_inst::Memory;
use std::alloc::Global;
use std::marker::Model;

/// Flags, 64 in a word. Contracts see a list of truth values.
#[derive(Drop)]
pub struct Bits {
    words: Vec<u64>,
    count: usize,
}

impl Model for Bits {
    ghost use Rattle.std.specs.Prelude.{List, Bool};
    ghost use Rattle.pb_bits.specs.Bits.{bits_of, AreBits};

    ghost Value = { List Bool };

    ghost view = { λ b. bits_of b.words.items b.count };

    ghost invariant = { λ b. AreBits b.words.items b.count };
}

impl Bits {
    pub fn get(&self, index: usize) -> bool
        requires { index < length self.now }
        ensures { result ≡ slice_index_or self.now index false }
    {
        self.words[index / 64] >> (index % 64) & 1 == 1
    }

    /// The first flag that is set at or after a place, within the place's word, or none.
    pub fn next_in_word(&self, from: usize) -> Option<usize>
        requires { from < length self.now }
        ensures some { ForSome result (λ index. (from ≤ index) × (index < length self.now) × (slice_index_or self.now index false ≡ true) × HasNoneBetween self.now from index) }
        ensures none { result ≡ None → HasNoneBetween self.now from (64 * (from / 64 + 1)) }
    {
        let word = self.words[from / 64];
        let rest = word >> (from % 64);
        if rest == 0 {
            return None;
        }
        Some(from + rest.trailing_zeros() as usize)
    }

    /// Whether no flag in the place's word is set.
    pub fn has_none_in_word(&self, index: usize) -> bool
        requires { index < length self.now }
        ensures none { result ≡ true → (i : ℕ) → i / 64 ≡ index / 64 → slice_index_or self.now i false ≡ false }
        ensures some { result ≡ false → HasMember self.now (index / 64) }
    {
        self.words[index / 64] == 0
    }
}

impl Flags for Bits {
    ghost flags = { λ b. b };

    fn new(alloc: Global, count: usize) -> Result<Bits, Memory> {
        let words = vec![in alloc; 0; count / 64 + 1]?;
        Ok(Bits { words, count })
    }

    fn len(&self) -> usize {
        self.count
    }

    fn set(&mut self, index: usize) {
        self.words[index / 64] |= 1 << (index % 64);
    }

    fn clear(&mut self, index: usize) {
        self.words[index / 64] &= !(1 << (index % 64));
    }

    fn next(&self, from: usize) -> Option<usize> {
        let mut place = from;
        while place < self.len() {
            if let Some(index) = self.next_in_word(place) {
                return Some(index);
            }
            place = 64 * (place / 64 + 1);
        }
        None
    }
}

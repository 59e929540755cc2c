//! Assignments of truth values to variables.

ghost use Rattle.std.specs.Prelude.{◌≡◌, ◌≢◌, ℕ, ◌+◌, ◌-◌, ◌*◌, ◌/◌, ◌%◌, ◌<◌, ◌≤◌, Bool, false, List, length, replicate, IfOk, slice_index_or, slice_set, if◌then◌else◌};
ghost use Rattle.pb_inst.specs.Words.{has_bit, truth_values, IsPacked};
ghost use Rattle.pb_inst.specs.Meaning.{literal_value};

use crate::{Lit, Memory};
use std::alloc::Global;
use std::marker::Model;

const WORD_BITS: usize = 64;

/// Truth values of the variables 1 to n. Contracts see a list of them that begins with variable 1.
#[derive(Drop)]
pub struct Assignment {
    vars: u32,
    words: Vec<u64>,
}

impl Model for Assignment {
    ghost Value = { List Bool };

    ghost view = { λ a. truth_values a.vars a.words.items };

    ghost invariant = { λ a. IsPacked a.vars a.words.items };
}

impl Assignment {
    /// The assignment that makes all variables from 1 to n false. Fails where memory is refused.
    pub fn new(alloc: Global, n: u32) -> Result<Assignment, Memory>
        ensures { IfOk result (λ a. a ≡ replicate n false) }
    {
        let count = (n as usize + (WORD_BITS - 1)) / WORD_BITS;
        let words = vec![in alloc; 0u64; count]?;
        Ok(Assignment { vars: n, words })
    }

    /// The number of variables, n.
    pub fn len(&self) -> u32
        ensures { result ≡ length self.now }
    {
        self.vars
    }

    /// The value of a variable from 1 to n.
    pub fn get(&self, var: u32) -> bool
        requires { (1 ≤ var) × (var ≤ length self.now) }
        ensures { result ≡ slice_index_or self.now (var - 1) false }
    {
        let place = (var - 1) as usize;
        self.words[place / WORD_BITS] >> (place % WORD_BITS) & 1 == 1
    }

    /// Gives a variable from 1 to n a value.
    pub fn set(&mut self, var: u32, value: bool)
        requires { (1 ≤ var) × (var ≤ length self.old) }
        ensures { self.new ≡ slice_set self.old (var - 1) value }
    {
        let place = (var - 1) as usize;
        let word = self.words[place / WORD_BITS];
        self.words[place / WORD_BITS] = with_bit(word, place % WORD_BITS, value);
    }

    /// Whether a literal of a variable up to n is true.
    pub fn satisfies(&self, lit: Lit) -> bool
        requires { lit.var ≤ length self.now }
        ensures { literal_value self.now lit ≡ (if result then 1 else 0) }
    {
        self.get(lit.var()) == lit.positive()
    }

    /// How many words of 64 bits hold the values: n / 64, rounded up.
    pub fn words(&self) -> usize
        ensures { result ≡ (length self.now + 63) / 64 }
    {
        self.words.len()
    }

    /// The i-th word, from 0: its bit k is the value of variable 64 i + k + 1, and 0 past the last variable.
    pub fn word(&self, i: usize) -> u64
        requires { 64 * i < length self.now }
        ensures { (k : ℕ) → k < 64 → slice_index_or self.now (64 * i + k) false ≡ has_bit result k }
    {
        self.words[i]
    }

    /// Gives the variables of the i-th word, from 0, the values of the bits. Bits past the last variable are dropped.
    pub fn set_word(&mut self, i: usize, word: u64)
        requires { 64 * i < length self.old }
        ensures same_length { length self.new ≡ length self.old }
        ensures within { (k : ℕ) → k < length self.old → k / 64 ≡ i → slice_index_or self.new k false ≡ has_bit word (k % 64) }
        ensures elsewhere { (k : ℕ) → k / 64 ≢ i → slice_index_or self.new k false ≡ slice_index_or self.old k false }
    {
        let used = self.vars as usize - i * WORD_BITS;
        self.words[i] = with_low_bits(word, used);
    }

    /// Copies the values of another assignment to the same number of variables.
    pub fn copy_from(&mut self, other: &Assignment)
        requires { length self.old ≡ length other.now }
        ensures { self.new ≡ other.now }
    {
        self.words.copy_from_slice(&other.words);
    }
}

/// The word with bit k set to the value.
fn with_bit(word: u64, k: usize, value: bool) -> u64
    requires { k < 64 }
    ensures here { has_bit result k ≡ value }
    ensures elsewhere { (i : ℕ) → i < 64 → i ≢ k → has_bit result i ≡ has_bit word i }
{
    if value {
        word | 1 << k
    } else {
        word & !(1 << k)
    }
}

/// The word with the bits from `used` on set to 0.
fn with_low_bits(word: u64, used: usize) -> u64
    ensures kept { (k : ℕ) → k < 64 → k < used → has_bit result k ≡ has_bit word k }
    ensures cleared { (k : ℕ) → k < 64 → used ≤ k → has_bit result k ≡ false }
{
    if used < WORD_BITS {
        word & ((1 << used) - 1)
    } else {
        word
    }
}

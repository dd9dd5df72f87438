//! A bit for each slot, in words of 64, so that a search skips slots that are not ready.
ghost use Rattle.std.specs.Prelude.{◌≡◌, ◌≢◌, ℕ, ◌*◌, ◌+◌, ◌/◌, ◌^◌, ◌<◌, ◌≤◌, cond, false, length, take, replicate, slice_set, IfOk, MatchOption};
ghost use Rattle.std.specs.Int.{bit_at};
ghost use Rattle.node_state.specs.Bits.{first_bit_from};
ghost use Rattle.node_state.specs.Words.{AreClear, IsFirstSet};

use std::alloc::{AllocError, Global};
use std::marker::Model;

/// The number of slots in a word.
const WORD: u32 = 64;

/// The set of ready slots of a node. Contracts see a truth value for each slot, in order.
#[derive(Drop)]
pub struct ReadySet {
    slots: u32,
    words: Vec<u64>,
}

impl Model for ReadySet {
    ghost use Rattle.std.specs.Prelude.{Bool, List, ◌≤◌, ◌*◌, length};

    ghost Value = { List Bool };

    ghost use Rattle.node_state.specs.Words.{bits_of};

    ghost view = { λ r. bits_of r.words.items r.slots };

    ghost invariant = { λ r. r.slots ≤ length r.words.items * 64 };
}

impl ReadySet {
    /// Makes a set for `slots` slots, none of them ready. Returns `Err` if memory runs out.
    pub fn make(alloc: Global, slots: u32) -> Result<ReadySet, AllocError>
        ensures { IfOk result (λ r. r ≡ replicate slots false) }
    {
        let words = vec![in alloc; 0; slots.div_ceil(WORD) as usize]?;
        Ok(ReadySet { slots, words })
    }

    /// Sets whether a slot is ready.
    pub fn set(&mut self, slot: u32, ready: bool)
        requires { slot < length self.old }
        ensures { self.new ≡ slice_set self.old slot ready }
    {
        let place = (slot / WORD) as usize;
        self.words[place] = with_bit(self.words[place], slot % WORD, ready);
    }

    /// The least ready slot from `from` on, below `end`. None exactly if there is none. It reads one word for each 64
    /// slots, up to the first word with a ready slot.
    pub fn first_within(&self, from: u32, end: u32) -> Option<u32>
        requires { end ≤ length self.now }
        ensures { result ≡ first_bit_from from (take end self.now) }
    {
        if from >= end {
            return None;
        }
        match first_from(self.words.as_slice(), from, end.div_ceil(WORD)) {
            Some(slot) if slot < end => Some(slot),
            _ => None,
        }
    }
}

/// The word with this bit set or cleared.
fn with_bit(word: u64, place: u32, ready: bool) -> u64
    requires { place < 64 }
    ensures same { bit_at result place ≡ cond ready 1 0 }
    ensures others { (i : ℕ) → i < 64 → i ≢ place → bit_at result i ≡ bit_at word i }
{
    let bit = 1 << place;
    if ready { word | bit } else { word & !bit }
}

/// The least set bit from `from` on in the same word.
fn first_in_word(words: &[u64], from: u32) -> Option<u32>
    requires { from / 64 < length words.now }
    ensures { MatchOption result (AreClear words.now from (from / 64 * 64 + 64)) (λ slot. IsFirstSet words.now from slot) }
{
    let rest = words[(from / WORD) as usize] & (u64::MAX << (from % WORD));
    if rest == 0 {
        return None;
    }
    Some(from / WORD * WORD + rest.trailing_zeros())
}

/// The least set bit of the words from `from` on, below `end`.
fn first_in_words(words: &[u64], from: u32, end: u32) -> Option<u32>
    requires end { end ≤ length words.now }
    requires few { end * 64 ≤ 2 ^ 32 }
    ensures { MatchOption result (AreClear words.now (from * 64) (end * 64)) (λ slot. IsFirstSet words.now (from * 64) slot) }
{
    for word in from..end {
        let first = first_in_word(words, word * WORD);
        if first.is_some() {
            return first;
        }
    }
    None
}

/// The least set bit from `from` on, in the words below `end`.
fn first_from(words: &[u64], from: u32, end: u32) -> Option<u32>
    requires from { from < end * 64 }
    requires end { end ≤ length words.now }
    requires few { end * 64 ≤ 2 ^ 32 }
    ensures { MatchOption result (AreClear words.now from (end * 64)) (λ slot. IsFirstSet words.now from slot) }
{
    let here = first_in_word(words, from);
    if here.is_some() {
        return here;
    }
    first_in_words(words, from / WORD + 1, end)
}

//! Marked entries: a bit each, 64 to a word, the lowest in the first. Past the last word none is
//! marked.

ghost use Rattle.std.specs.Prelude.{◌≡◌, ℕ, ◌+◌, ◌*◌, ◌<◌, ◌≤◌, ◌==◌, ◌||◌, true, false, length, get_or, max};
ghost use Rattle.std.specs.Vec.{vec_len, vec_capacity};
ghost use Rattle.carol_holding.specs.Marked.{IsFirstBeyond, is_marked};

use crate::row::{MOST_ENTRIES, MOST_WORDS};

/// Whether the entry is marked.
pub fn is_marked(words: &[u64], entry: u32) -> bool
    ensures { result ≡ is_marked words.now entry }
{
    (word_at(words, (entry / u64::BITS) as usize) >> (entry % u64::BITS)) & 1 == 1
}

/// Marks the entry. There is room for a word for each.
pub fn mark(words: &mut Vec<u64>, entry: u32)
    requires entry { entry < MOST_ENTRIES }
    requires few { vec_len words.old ≤ MOST_WORDS }
    requires room { MOST_WORDS ≤ vec_capacity words.old }
    ensures each { (i : ℕ) → is_marked words.new.items i
        ≡ ((entry == i) || is_marked words.old.items i) }
    ensures few { vec_len words.new ≤ MOST_WORDS }
    ensures room { MOST_WORDS ≤ vec_capacity words.new }
{
    let at = (entry / u64::BITS) as usize;
    lengthen(words, at + 1);
    words[at] |= 1 << (entry % u64::BITS);
}

/// The lowest entry, from this one on, that isn't marked.
pub fn first_unmarked(words: &[u64], from: u32) -> u32
    requires few { length words.now ≤ MOST_WORDS }
    requires from { from ≤ MOST_ENTRIES }
    ensures unmarked { is_marked words.now result ≡ false }
    ensures marked { (i : ℕ) → from ≤ i → i < result → is_marked words.now i ≡ true }
    ensures least { from ≤ result }
    ensures within { result ≤ MOST_ENTRIES }
{
    let mut at = from;
    while is_marked(words, at) {
        at += 1;
    }
    at
}

/// The lowest entry that is marked in the one and not in the other, where all that are marked in
/// the one before word `start` are marked in the other too.
pub fn first_beyond(mine: &[u64], theirs: &[u64], start: usize) -> Option<u32>
    requires few { length mine.now ≤ MOST_WORDS }
    requires before { (i : ℕ) → i < 64 * start → is_marked mine.now i ≡ true
        → is_marked theirs.now i ≡ true }
    ensures { IsFirstBeyond mine.now theirs.now result }
{
    for at in start..mine.len() {
        let beyond = word_at(mine, at) & !word_at(theirs, at);
        if beyond != 0 {
            return Some(at as u32 * u64::BITS + beyond.trailing_zeros());
        }
    }
    None
}

// Appends words with no mark, for which there is room, until there are this many.
fn lengthen(words: &mut Vec<u64>, len: usize)
    requires { len ≤ vec_capacity words.old }
    ensures each { (i : ℕ) → is_marked words.new.items i ≡ is_marked words.old.items i }
    ensures long { len ≤ vec_len words.new }
    ensures short { vec_len words.new ≤ max len (vec_len words.old) }
    ensures capacity { vec_capacity words.old ≤ vec_capacity words.new }
{
    if words.len() < len {
        words.resize(len, 0).unwrap();
    }
}

// The word at this place; past the last it has no mark.
fn word_at(words: &[u64], at: usize) -> u64
    ensures { result ≡ get_or words.now at 0 }
{
    words.get(at).copied().unwrap_or(0)
}

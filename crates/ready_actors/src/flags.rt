//! Flags of numbers, 64 to a word.
ghost use Rattle.std.specs.Prelude.{◌≡◌, ◌≢◌, ◌+◌, ◌*◌, ◌/◌, ◌%◌, ◌^◌, ◌<◌, ◌≤◌, ◌==◌, if◌then◌else◌, ℕ, not, true, false, length, max, IfNone, IfSome, OnErr, OnOk};
ghost use Rattle.ready_actors.specs.Flags.{IsFirstIn, IsFirstOf, IsNoneIn, IsNoneOf, has_flag, has_one, has_word, word_at};

use crgc_ids::NoMemory;

/// The lowest one of the word, from this place on.
pub fn first_one(word: u64, from: u32) -> Option<u32>
    ensures some { IfSome result (IsFirstOf (has_one word) from) }
    ensures in_range { IfSome result (λ place. place < 64) }
    ensures none { IfNone result (IsNoneOf (has_one word) from) }
    ensures zero { IfNone result (from ≡ 0 → word ≡ 0) }
{
    if from >= 64 {
        return None;
    }
    let rest = word >> from;
    if rest == 0 {
        None
    } else {
        Some(from + rest.trailing_zeros())
    }
}

/// The word with a one at this place.
pub fn with_one(word: u64, place: u32) -> u64
    requires { place < 64 }
    ensures ones { (i : ℕ) → has_one result i ≡ (if place == i then true else has_one word i) }
    ensures some { 0 < result }
{
    word | 1 << place
}

/// The word with no one at this place.
pub fn without_one(word: u64, place: u32) -> u64
    requires { place < 64 }
    ensures ones { (i : ℕ) → has_one result i ≡ (if place == i then false else has_one word i) }
    ensures none { word ≡ 0 → result ≡ 0 }
{
    word & !(1 << place)
}

/// Whether the flag of the number is set.
pub fn is_set(words: &[u64], number: u32) -> bool
    ensures { result ≡ has_flag words.now number }
{
    match words.get((number / 64) as usize) {
        Some(word) => *word >> (number % 64) & 1 == 1,
        None => false,
    }
}

/// The flag of the number is set; the answer is whether it was not.
pub fn set(words: &mut [u64], number: u32) -> bool
    requires { number / 64 < length words.old }
    ensures flags { (k : ℕ) → has_flag words.new k ≡ (if number == k then true else has_flag words.old k) }
    ensures words { (g : ℕ) → g ≢ number / 64 → word_at words.new g ≡ word_at words.old g }
    ensures some { has_word words.new (number / 64) ≡ true }
    ensures room { length words.new ≡ length words.old }
    ensures added { result ≡ not (has_flag words.old number) }
{
    let added = !is_set(words, number);
    let index = (number / 64) as usize;
    words[index] = with_one(words[index], number % 64);
    added
}

/// The flag of the number is not set; the answer is whether its word has no other.
pub fn unset(words: &mut [u64], number: u32) -> bool
    ensures flags { (k : ℕ) → has_flag words.new k ≡ (if number == k then false else has_flag words.old k) }
    ensures words { (g : ℕ) → g ≢ number / 64 → word_at words.new g ≡ word_at words.old g }
    ensures none { word_at words.old (number / 64) ≡ 0 → word_at words.new (number / 64) ≡ 0 }
    ensures empty { result ≡ not (has_word words.new (number / 64)) }
    ensures room { length words.new ≡ length words.old }
{
    let index = (number / 64) as usize;
    if index >= words.len() {
        return true;
    }
    words[index] = without_one(words[index], number % 64);
    words[index] == 0
}

/// The lowest number from this one on whose flag is set, in the same word.
pub fn first_in_word(words: &[u64], from: u32) -> Option<u32>
    ensures some { IfSome result (IsFirstIn words.now from) }
    ensures none { IfNone result (IsNoneIn words.now from) }
    ensures empty { IfNone result (from % 64 ≡ 0 → has_word words.now (from / 64) ≡ false) }
{
    let word = *words.get((from / 64) as usize)?;
    let place = first_one(word, from % 64)?;
    Some(from / 64 * 64 + place)
}

/// There is a word for the number, in which no flag is set where there was none. After `NoMemory` all is as before.
pub fn reach(words: &mut Vec<u64>, number: u32) -> Result<(), NoMemory>
    ensures ok { OnOk result (number / 64 < length words.new.items) }
    ensures words { (g : ℕ) → word_at words.new.items g ≡ word_at words.old.items g }
    ensures room { length words.new.items ≤ max (length words.old.items) (number / 64 + 1) }
    ensures err { OnErr result (words.new.items ≡ words.old.items) }
{
    let count = (number / 64) as usize + 1;
    if count <= words.len() {
        return Ok(());
    }
    match words.resize(count, 0) {
        Ok(()) => Ok(()),
        Err(_) => Err(NoMemory),
    }
}

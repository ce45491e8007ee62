//! Numbers among the words.
ghost use Rattle.std.specs.Prelude.{◌≡◌, ◌<◌, ◌≤◌, ◌^◌, ◌↔◌, ℕ, IfSome, IsTrue, MatchOption, decimal};
ghost use Rattle.command_words.specs.Reading.{HasPlainStart, number_of};

/// The number from `least` to `most` that is spelled so, in decimal without sign and without leading zeros.
#[tactic(auto, unfolding(crate::specs::Reading::number_of))]
pub fn number(word: &str, least: u64, most: u64) -> Option<u64>
    ensures value { result ≡ number_of least most word.now }
    ensures in_range { IfSome result (λ n. n ≤ most) }
{
    match spelled_number(word) {
        Some(n) if least <= n && n <= most => Some(n),
        _ => None,
    }
}

/// The number below 2^64 that is spelled so.
fn spelled_number(word: &str) -> Option<u64>
    ensures { MatchOption result ((n : ℕ) → n < 2 ^ 64 → decimal n ≡ word.now → ⊥) (λ n. decimal n ≡ word.now) }
{
    if has_plain_start(word.as_bytes()) {
        match word.parse() {
            Ok(n) => Some(n),
            Err(_) => None,
        }
    } else {
        None
    }
}

/// Whether the word is not empty and begins with no plus, nor with a zero before other bytes.
fn has_plain_start(word: &[u8]) -> bool
    ensures { IsTrue result ↔ (HasPlainStart word.now) }
{
    !word.is_empty() && word[0] != b'+' && (word.len() == 1 || word[0] != b'0')
}

//! What one option says.
ghost use Rattle.std.specs.Prelude.{◌≡◌, Some, None, MatchOption, map, string_bytes};
ghost use Rattle.command_words.specs.Reading.{cut_at_sign, first_setting, setting_of};

use crate::number::number;

/// How many workers a run has at most.
pub const MOST_WORKERS: u64 = 32;

/// The greatest size of a generated script.
pub const GREATEST_SIZE: u64 = 10_000;

/// What one option says. A number is in its option's range.
#[derive(Clone, Copy, PartialEq, Eq, Debug)]
pub enum Setting {
    /// `--brief`
    Brief,
    /// `--workers`
    Workers(u32),
    /// `--seed`
    Seed(u64),
    /// `--size`
    Size(u32),
}

/// The setting with which the words begin, and the words after it; None exactly where they begin with none.
#[tactic(auto, unfolding(crate::specs::Reading::first_setting))]
pub fn first_setting(words: &[String]) -> Option<(Setting, &[String])>
    ensures { MatchOption result (first_setting (map string_bytes words.now) ≡ None)
        (λ p. first_setting (map string_bytes words.now) ≡ Some (p.0, map string_bytes p.1.now)) }
{
    let (word, rest) = words.split_first()?;
    if let Some((name, value)) = name_and_value(word) {
        return Some((named_setting(name, value)?, rest));
    }
    if word.as_str() == "--brief" {
        return Some((Setting::Brief, rest));
    }
    let (value, rest) = rest.split_first()?;
    Some((named_setting(word, value)?, rest))
}

/// The texts before and after the first equals sign; None exactly where there is none.
fn name_and_value(word: &str) -> Option<(&str, &str)>
    ensures { MatchOption result (cut_at_sign word.now ≡ None) (λ p. cut_at_sign word.now ≡ Some (p.0.now, p.1.now)) }
{
    word.split_once('=')
}

/// The setting of the option with this name and value.
#[tactic(auto, unfolding(crate::specs::Reading::setting_of))]
fn named_setting(name: &str, value: &str) -> Option<Setting>
    ensures { result ≡ setting_of name.now value.now }
{
    if name == "--workers" {
        Some(Setting::Workers(number(value, 0, MOST_WORKERS)? as u32))
    } else if name == "--seed" {
        Some(Setting::Seed(number(value, 0, u64::MAX)?))
    } else if name == "--size" {
        Some(Setting::Size(number(value, 1, GREATEST_SIZE)? as u32))
    } else {
        None
    }
}

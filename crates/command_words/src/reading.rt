//! From the words to the command that they spell.
ghost use Rattle.std.specs.Prelude.{◌≡◌, ◌≤◌, ◌↔◌, IfSome, IsTrue, MatchOption, map, string_bytes};
ghost use Rattle.command_words.specs.Commands.{IsCommand, IsInRange, Spells, WantsWorkers};
ghost use Rattle.command_words.specs.Reading.{command_of, gen_of, play_of, run_of, settings_in};

use crate::command::Command;
use crate::setting::{Setting, first_setting};

/// The command that the words spell; None exactly where they spell none. Linear time in the first few words; it takes no
/// memory.
pub fn read_command(words: &[String]) -> Option<Command>
    ensures spelled { MatchOption result (¬ IsCommand (map string_bytes words.now)) (λ command. Spells (map string_bytes words.now) command) }
    ensures in_range { IfSome result (λ command. IsInRange command) }
{
    let (name, options) = words.split_first()?;
    named_command(name, all_settings(options)?)
}

/// Whether the words are a run with worker threads, of which there are 1 to 32.
pub fn wants_workers(words: &[String]) -> bool
    ensures { IsTrue result ↔ (WantsWorkers (map string_bytes words.now)) }
{
    match read_command(words) {
        Some(Command::Run { workers, .. }) => workers > 0,
        _ => false,
    }
}

/// Settings in the order of the words. No command has more than two.
#[derive(Clone, Copy, PartialEq, Eq, Debug)]
pub enum Settings {
    Empty,
    One(Setting),
    Two(Setting, Setting),
}

/// The settings that the words spell, where they are two at most.
fn all_settings(words: &[String]) -> Option<Settings>
    ensures { result ≡ settings_in (map string_bytes words.now) }
{
    if words.is_empty() {
        return Some(Settings::Empty);
    }
    let (first, rest) = first_setting(words)?;
    if rest.is_empty() {
        return Some(Settings::One(first));
    }
    let (second, rest) = first_setting(rest)?;
    if rest.is_empty() {
        Some(Settings::Two(first, second))
    } else {
        None
    }
}

/// The command of this name with these settings.
#[tactic(auto, unfolding(crate::specs::Reading::command_of))]
fn named_command(name: &str, settings: Settings) -> Option<Command>
    ensures { result ≡ command_of name.now settings }
{
    if name == "play" {
        play(settings)
    } else if name == "run" {
        run(settings)
    } else if name == "gen" {
        generate(settings)
    } else {
        None
    }
}

fn play(settings: Settings) -> Option<Command>
    ensures { result ≡ play_of settings }
{
    match settings {
        Settings::Empty => Some(Command::Play { brief: false }),
        Settings::One(Setting::Brief) => Some(Command::Play { brief: true }),
        _ => None,
    }
}

fn run(settings: Settings) -> Option<Command>
    ensures { result ≡ run_of settings }
{
    match settings {
        Settings::One(Setting::Workers(workers)) => Some(Command::Run {
            workers,
            brief: false,
        }),
        Settings::Two(Setting::Workers(workers), Setting::Brief)
        | Settings::Two(Setting::Brief, Setting::Workers(workers)) => Some(Command::Run {
            workers,
            brief: true,
        }),
        _ => None,
    }
}

fn generate(settings: Settings) -> Option<Command>
    ensures { result ≡ gen_of settings }
{
    match settings {
        Settings::Two(Setting::Seed(seed), Setting::Size(size))
        | Settings::Two(Setting::Size(size), Setting::Seed(seed)) => Some(Command::Gen {
            seed,
            size,
        }),
        _ => None,
    }
}

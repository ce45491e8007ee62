//! Laws of the definitions. Each function does nothing, and its contract is the law.
ghost use Rattle.std.specs.Prelude.{◌≡◌, ℕ, List};
ghost use Rattle.command_words.specs.declared.command.Command.{Command};
ghost use Rattle.command_words.specs.Commands.{Spells};

/// No words spell two commands.
pub fn no_words_spell_two_commands()
    ensures { (words : List (List ℕ)) (c d : Command) → Spells words c → Spells words d → c ≡ d }
{}

//! The words of a script: the names of its objects and of their keys.
ghost use Rattle.std.specs.Prelude.{◌≡◌};
ghost use Rattle.script_reader.specs.Words.{spelled};

/// The name of an object or of a key.
#[derive(Clone, Copy, PartialEq, Eq, Debug)]
pub enum Word {
    Script,
    Behaviour,
    Seed,
    Tie,
    Loss,
    Repeat,
    Crash,
    Nodes,
    Behaviours,
    Seeds,
    Ties,
    Losses,
    Repeats,
    Crashes,
    Turns,
    Name,
    Wake,
    Message,
    Node,
    Wakes,
    From,
    To,
    As,
    Number,
    After,
}

impl Word {
    /// The word as it is spelled.
    pub fn text(self) -> &'static str
        ensures { result.now ≡ spelled self }
    {
        match self {
            Word::Script => "script",
            Word::Behaviour => "behaviour",
            Word::Seed => "seed",
            Word::Tie => "tie",
            Word::Loss => "loss",
            Word::Repeat => "repeat",
            Word::Crash => "crash",
            Word::Nodes => "nodes",
            Word::Behaviours => "behaviours",
            Word::Seeds => "seeds",
            Word::Ties => "ties",
            Word::Losses => "losses",
            Word::Repeats => "repeats",
            Word::Crashes => "crashes",
            Word::Turns => "turns",
            Word::Name => "name",
            Word::Wake => "wake",
            Word::Message => "message",
            Word::Node => "node",
            Word::Wakes => "wakes",
            Word::From => "from",
            Word::To => "to",
            Word::As => "as",
            Word::Number => "number",
            Word::After => "after",
        }
    }
}

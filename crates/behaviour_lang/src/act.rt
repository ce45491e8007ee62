//! What a turn does, one step at a time.
use crgc_ids::{ActorId, RefList};

/// Which of the two lists of a behaviour a turn runs: the one for a wake, or the one for a message.
#[derive(Clone, Copy, PartialEq, Eq, Debug)]
pub enum List {
    Wake,
    Message,
}

/// What an actor does that the others may see. A spawned child gets a behaviour by its number.
#[derive(Debug, Drop)]
pub enum Act {
    Spawn { behaviour: u32 },
    Send { to: ActorId, refs: RefList },
    Drop { target: ActorId },
    Retire,
}

/// One step of a turn: an act, some steps of work, or its end.
#[derive(Debug, Drop)]
pub enum Step {
    Act(Act),
    Work(u32),
    End,
}

//! The answers of a world.
use crgc_ids::{ActorId, RefList, Which};
use history_model::Rule;

/// What an event told that was done.
#[derive(Debug, Drop)]
pub enum Told {
    /// Nothing: so it is with the forms of which no other variant speaks.
    Plain,
    /// Who was born.
    Born(ActorId),
    /// The references of the message that was taken.
    Taken(RefList),
    /// The number of the message on its link.
    Number(u32),
    /// The message went to an actor of the sender's node.
    Local,
    /// The copy was the first of its message to be admitted.
    Admitted,
    /// A copy of the message was admitted before.
    Discarded,
}

/// What came of an event.
#[derive(Debug, Drop)]
pub enum Applied {
    /// The history has the event more.
    Done(Told),
    /// The first rule that the event breaks.
    Illegal(Rule),
    /// The limit that the event, which is legal, would pass.
    Limit(Which),
}

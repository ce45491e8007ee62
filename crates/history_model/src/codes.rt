//! Events in eight bytes each, and the actors for which these have no room.
ghost use Rattle.std.specs.Prelude.{◌≡◌, IfOk, length};
ghost use Rattle.history_model.specs.Codes.{event_of, further_count};

use crate::events::Event;
use crgc_ids::{ActorId, NoMemory, NodeId, RefList};
use std::alloc::Global;

/// An event but for its further actors: the target of a tie or a drop, and the recipient and the references of a message, of which
/// it has the number.
#[derive(Clone, Copy, Debug)]
pub enum Code {
    Seed {
        node: NodeId,
    },
    Tie {
        owner: ActorId,
    },
    Wake {
        actor: ActorId,
    },
    Take {
        actor: ActorId,
    },
    Spawn {
        parent: ActorId,
    },
    Send {
        refs: u16,
        from: ActorId,
    },
    Drop {
        actor: ActorId,
    },
    Retire {
        actor: ActorId,
    },
    Rest {
        actor: ActorId,
    },
    Flush {
        actor: ActorId,
    },
    Publish {
        node: NodeId,
    },
    Window {
        at: NodeId,
        from: NodeId,
    },
    Admit {
        from: NodeId,
        at: NodeId,
        number: u32,
    },
    Lose {
        from: NodeId,
        at: NodeId,
        number: u32,
    },
    Repeat {
        from: NodeId,
        at: NodeId,
        number: u32,
    },
    Crash {
        node: NodeId,
    },
    Remove {
        at: NodeId,
        gone: NodeId,
    },
    Hand {
        to: NodeId,
        origin: NodeId,
        number: u32,
    },
    Sweep {
        node: NodeId,
    },
}

/// How many further actors an event with this code has. Constant time.
#[inline(always)]
pub fn further_count(code: Code) -> usize
    ensures { result ≡ further_count code }
{
    match code {
        Code::Tie { .. } | Code::Drop { .. } => 1,
        Code::Send { refs, .. } => refs as usize + 1,
        _ => 0,
    }
}

/// The event with this code and these further actors. Linear in these.
#[inline(always)]
pub fn event_of(alloc: Global, code: Code, further: &[ActorId]) -> Result<Event, NoMemory>
    requires { length further.now ≡ further_count code }
    ensures { IfOk result (λ event. event ≡ event_of code further.now) }
{
    Ok(match code {
        Code::Seed { node } => Event::Seed { node },
        Code::Tie { owner } => Event::Tie {
            owner,
            target: further[0],
        },
        Code::Wake { actor } => Event::Wake { actor },
        Code::Take { actor } => Event::Take { actor },
        Code::Spawn { parent } => Event::Spawn { parent },
        Code::Send { refs: _, from } => Event::Send {
            from,
            to: further[0],
            refs: refs_of(alloc, &further[1..])?,
        },
        Code::Drop { actor } => Event::Drop {
            actor,
            target: further[0],
        },
        Code::Retire { actor } => Event::Retire { actor },
        Code::Rest { actor } => Event::Rest { actor },
        Code::Flush { actor } => Event::Flush { actor },
        Code::Publish { node } => Event::Publish { node },
        Code::Window { at, from } => Event::Window { at, from },
        Code::Admit { from, at, number } => Event::Admit { from, at, number },
        Code::Lose { from, at, number } => Event::Lose { from, at, number },
        Code::Repeat { from, at, number } => Event::Repeat { from, at, number },
        Code::Crash { node } => Event::Crash { node },
        Code::Remove { at, gone } => Event::Remove { at, gone },
        Code::Hand { to, origin, number } => Event::Hand { to, origin, number },
        Code::Sweep { node } => Event::Sweep { node },
    })
}

/// The list of these actors. Linear time.
fn refs_of(alloc: Global, actors: &[ActorId]) -> Result<RefList, NoMemory>
    ensures { IfOk result (λ refs. refs ≡ actors.now) }
{
    let mut refs = RefList::new(alloc);
    for actor in actors {
        refs.push(*actor)?;
    }
    Ok(refs)
}

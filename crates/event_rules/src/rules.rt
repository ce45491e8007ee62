//! The first rule that an event breaks.
ghost use Rattle.std.specs.Prelude.{◌≡◌};
ghost use Rattle.history_model.specs.Legal as legal;

use crate::actors::{of_busy, of_drop, of_flush, of_retire, of_take, of_tie, of_wake};
use crate::links::{of_copy, of_remove, of_window};
use crate::moment::Moment;
use crate::nodes::{of_hand, of_node, of_publish};
use crate::sends::of_send;
use history_model::{Event, Rule};

/// The first rule that the event breaks at the moment; None exactly where it is legal. It asks at most eight times; a
/// send five times, and twice for each reference.
pub fn refusal<M: Moment>(moment: &M, event: &Event) -> Option<Rule>
    ensures { result ≡ legal.refusal (M.story moment.now).cluster event.now (M.story moment.now).past }
{
    match event {
        Event::Seed { node } => of_node(moment, *node),
        Event::Tie { owner, target } => of_tie(moment, *owner, *target),
        Event::Wake { actor } => of_wake(moment, *actor),
        Event::Take { actor } => of_take(moment, *actor),
        Event::Spawn { parent } => of_busy(moment, *parent),
        Event::Send { from, to, refs } => of_send(moment, *from, *to, refs),
        Event::Drop { actor, target } => of_drop(moment, *actor, *target),
        Event::Retire { actor } => of_retire(moment, *actor),
        Event::Rest { actor } => of_busy(moment, *actor),
        Event::Flush { actor } => of_flush(moment, *actor),
        Event::Publish { node } => of_publish(moment, *node),
        Event::Window { at, from } => of_window(moment, *at, *from),
        Event::Admit { from, at, number } => of_copy(moment, *from, *at, *number),
        Event::Lose { from, at, number } => of_copy(moment, *from, *at, *number),
        Event::Repeat { from, at, number } => of_copy(moment, *from, *at, *number),
        Event::Crash { node } => of_node(moment, *node),
        Event::Remove { at, gone } => of_remove(moment, *at, *gone),
        Event::Hand { to, origin, number } => of_hand(moment, *to, *origin, *number),
        Event::Sweep { node } => of_node(moment, *node),
    }
}

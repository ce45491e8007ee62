//! The messages of a list of events, the oldest first, as far as they go to an actor or carry it.
ghost use Rattle.std.specs.Prelude.{◌≡◌, ◌≤◌, ◌+◌, ◌==◌, ◌&&◌, ◌∷◌, [], nat_lt, not, if◌then◌else◌, length, map, reverse, option_to_list};
ghost use Rattle.std.specs.List.{filter, list_any};
ghost use Rattle.history_model.specs.declared.events.Event.TheVariants.{Admit, Send};
ghost use Rattle.history_model.specs.Cluster.{same_actor};
ghost use Rattle.history_model.specs.Live.{is_under_way};
ghost use Rattle.history_model.specs.Messages.{admitted_by, is_take_by, is_to, mail, message_at, takes, was_admitted};
ghost use Rattle.history_model.specs.Tally.{tally};
ghost use Rattle.history_model.specs.Uses.{sent_by};
ghost use Rattle.quiet_check.specs.Plain.{carrying, counts, is_coming, is_send_on, some_moment, touches, uses, uses_coming, uses_waiting, waits};

use crate::constants::is_same;
use crate::links::{has_copy, is_admitted, is_sent_on, sent_on};
use crate::nodes::{is_link_closed, is_node_up};
use crgc_ids::{ActorId, RefList};
use history_model::Event;

/// What is kept of a message where one asks after an actor: whom it goes to, and how many references to the actor it carries.
#[derive(Clone, Copy, Debug)]
pub struct Carrying {
    pub to: ActorId,
    pub refs: usize,
}

fn refs_to(refs: &[ActorId], actor: ActorId) -> usize
    ensures value { result ≡ tally (same_actor actor) refs.now }
    ensures bound { result ≤ length refs.now }
{
    let mut count = 0;
    for target in refs {
        if is_same(actor, *target) {
            count += 1;
        }
    }
    count
}

/// The message of a send.
fn message_of(to: ActorId, refs: &RefList, actor: ActorId) -> Carrying
    ensures { result ≡ record { to = to; refs = tally (same_actor actor) refs.now } }
{
    Carrying {
        to,
        refs: refs_to(refs.as_slice(), actor),
    }
}

/// The message that the event sends.
fn sent_message(event: &Event, actor: ActorId) -> Option<Carrying>
    ensures { map (carrying actor) (sent_by event.now) ≡ option_to_list result }
{
    match event {
        Event::Send { to, refs, .. } => Some(message_of(*to, refs, actor)),
        _ => None,
    }
}

fn is_send_of(event: &Event, earlier: &[Event], from: u8, at: u8, number: usize) -> bool
    ensures { result ≡ (is_send_on from at event.now && (tally (is_send_on from at) (reverse earlier.now) == number)) }
{
    is_sent_on(event, from, at) && sent_on(earlier, from, at) == number
}

fn message_after(
    event: &Event,
    earlier: &[Event],
    from: u8,
    at: u8,
    number: usize,
    actor: ActorId,
    before: Option<Carrying>,
) -> Option<Carrying>
    requires { map (carrying actor) (message_at from at number (reverse earlier.now)) ≡ option_to_list before }
    ensures { map (carrying actor) (message_at from at number (event.now ∷ reverse earlier.now)) ≡ option_to_list result }
{
    if is_send_of(event, earlier, from, at, number) {
        sent_message(event, actor)
    } else {
        before
    }
}

/// The message with this number on the link.
fn message_numbered(
    events: &[Event],
    from: u8,
    at: u8,
    number: usize,
    actor: ActorId,
) -> Option<Carrying>
    ensures { map (carrying actor) (message_at from at number (reverse events.now)) ≡ option_to_list result }
{
    let mut found = None;
    for (i, event) in events.iter().enumerate() {
        found = message_after(event, &events[..i], from, at, number, actor, found);
    }
    found
}

/// The message of an admission, where it is the first of its number.
fn first_admitted(
    earlier: &[Event],
    from: u8,
    at: u8,
    number: usize,
    actor: ActorId,
) -> Option<Carrying>
    ensures { map (carrying actor) (admitted_by (Admit from at number) (reverse earlier.now)) ≡ option_to_list result }
{
    if is_admitted(earlier, from, at, number) {
        return None;
    }
    message_numbered(earlier, from, at, number, actor)
}

/// The message of a send, where it stays on one node.
fn sent_within(from: ActorId, to: ActorId, refs: &RefList, actor: ActorId) -> Option<Carrying>
    ensures { map (carrying actor) (if from.node == to.node then (record { from = from; to = to; refs = refs.now }) ∷ [] else []) ≡ option_to_list result }
{
    if from.node().get() == to.node().get() {
        return Some(message_of(to, refs, actor));
    }
    None
}

/// The message that the event admits.
pub fn admitted_message(event: &Event, earlier: &[Event], actor: ActorId) -> Option<Carrying>
    ensures { map (carrying actor) (admitted_by event.now (reverse earlier.now)) ≡ option_to_list result }
{
    match event {
        Event::Send { from, to, refs } => sent_within(*from, *to, refs, actor),
        Event::Admit { from, at, number } => {
            first_admitted(earlier, from.get(), at.get(), *number as usize, actor)
        }
        _ => None,
    }
}

fn count_to(message: Option<Carrying>, to: ActorId) -> usize
    ensures value { result ≡ counts to message }
    ensures bound { result ≤ 1 }
{
    match message {
        Some(found) => { if is_same(found.to, to) { 1 } else { 0 } }
        None => 0,
    }
}

/// How many messages to the actor the event admits: one, or none.
fn admitted_to(event: &Event, earlier: &[Event], to: ActorId) -> usize
    ensures value { result ≡ length (filter (is_to to) (admitted_by event.now (reverse earlier.now))) }
    ensures bound { result ≤ 1 }
{
    count_to(admitted_message(event, earlier, to), to)
}

/// How many messages to the actor were admitted.
pub fn mail_to(events: &[Event], to: ActorId) -> usize
    ensures value { result ≡ length (mail to (reverse events.now)) }
    ensures bound { result ≤ length events.now }
{
    let mut count = 0;
    for (i, event) in events.iter().enumerate() {
        count += admitted_to(event, &events[..i], to);
    }
    count
}

fn is_take(event: &Event, actor: ActorId) -> bool
    ensures { result ≡ is_take_by actor event.now }
{
    match event {
        Event::Take { actor: a } => is_same(*a, actor),
        _ => false,
    }
}

/// How many messages the actor took.
pub fn takes_by(events: &[Event], actor: ActorId) -> usize
    ensures value { result ≡ takes actor (reverse events.now) }
    ensures bound { result ≤ length events.now }
{
    let mut count = 0;
    for event in events {
        if is_take(event, actor) {
            count += 1;
        }
    }
    count
}

/// Whether a message to the actor that is admitted after the earlier events still waits.
fn is_waiting(events: &[Event], earlier: &[Event], to: ActorId) -> bool
    ensures { result ≡ waits (reverse events.now) (reverse earlier.now) to }
{
    is_node_up(events, to.node().get()) && takes_by(events, to) <= mail_to(earlier, to)
}

/// Whether the number is on the link between two different nodes, the second of which is up.
fn is_on_link(events: &[Event], from: u8, at: u8, number: usize) -> bool
    ensures { result ≡ is_coming (reverse events.now) from at number }
{
    from != at
        && is_node_up(events, at)
        && !is_link_closed(events, from, at)
        && !is_admitted(events, from, at, number)
        && has_copy(events, from, at, number)
}

fn is_touching(message: &Carrying, actor: ActorId) -> bool
    ensures { result ≡ touches actor message.now }
{
    is_same(message.to, actor) || 0 < message.refs
}

/// Whether the event admits a message that waits, and that goes to the actor or carries it.
fn is_waiting_for(events: &[Event], event: &Event, earlier: &[Event], actor: ActorId) -> bool
    ensures { result ≡ list_any (uses_waiting (reverse events.now) actor (reverse earlier.now))
        (map (carrying actor) (admitted_by event.now (reverse earlier.now))) }
{
    match admitted_message(event, earlier, actor) {
        Some(message) => is_touching(&message, actor) && is_waiting(events, earlier, message.to),
        None => false,
    }
}

/// Whether the next message between the two actors is on its link.
fn is_send_coming(events: &[Event], earlier: &[Event], from: ActorId, to: ActorId) -> bool
    ensures { result ≡ is_coming (reverse events.now) from.node to.node (tally (is_send_on from.node to.node) (reverse earlier.now)) }
{
    let source = from.node().get();
    let target = to.node().get();
    is_on_link(events, source, target, sent_on(earlier, source, target))
}

/// Whether the next message between the two actors is on its link, and goes to the actor or carries it.
fn is_send_coming_for(
    events: &[Event],
    earlier: &[Event],
    actor: ActorId,
    from: ActorId,
    to: ActorId,
    refs: &RefList,
) -> bool
    ensures { result ≡ uses_coming (reverse events.now) actor (Send from to refs.now) (reverse earlier.now) }
{
    let message = message_of(to, refs, actor);
    is_touching(&message, actor) && is_send_coming(events, earlier, from, to)
}

/// Whether the event sends a message that is on its link, and that goes to the actor or carries it.
fn is_coming_for(events: &[Event], event: &Event, earlier: &[Event], actor: ActorId) -> bool
    ensures { result ≡ uses_coming (reverse events.now) actor event.now (reverse earlier.now) }
{
    match event {
        Event::Send { from, to, refs } => {
            is_send_coming_for(events, earlier, actor, *from, *to, refs)
        }
        _ => false,
    }
}

/// Whether a live message goes to the actor or carries it. The fourth power of the number of events.
pub fn is_in_live_message(events: &[Event], actor: ActorId) -> bool
    ensures { result ≡ some_moment (uses (reverse events.now) actor) (reverse events.now) }
{
    let mut used = false;
    for (i, event) in events.iter().enumerate() {
        let earlier = &events[..i];
        used = is_waiting_for(events, event, earlier, actor)
            || is_coming_for(events, event, earlier, actor)
            || used;
    }
    used
}

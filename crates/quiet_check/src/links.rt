//! The links after a list of events, the oldest first.
ghost use Rattle.std.specs.Prelude.{◌≡◌, ◌≤◌, ◌+◌, ◌∷◌, ◌||◌, nat_lt, length, reverse};
ghost use Rattle.history_model.specs.Messages.{copies, is_admit, is_lose, is_repeat, sent, was_admitted};
ghost use Rattle.history_model.specs.Tally.{tally};
ghost use Rattle.quiet_check.specs.Plain.{arrives, is_departure, is_missing, is_send_on, is_undelivered, some_moment};

use crate::nodes::is_node_up;
use crgc_ids::ActorId;
use history_model::Event;

pub fn is_sent_on(event: &Event, from: u8, at: u8) -> bool
    ensures { result ≡ is_send_on from at event.now }
{
    match event {
        Event::Send { from: f, to, .. } => f.node().get() == from && to.node().get() == at,
        _ => false,
    }
}

/// How many messages were sent from the one node to the other.
pub fn sent_on(events: &[Event], from: u8, at: u8) -> usize
    ensures value { result ≡ tally (is_send_on from at) (reverse events.now) }
    ensures bound { result ≤ length events.now }
{
    let mut count = 0;
    for event in events {
        if is_sent_on(event, from, at) {
            count += 1;
        }
    }
    count
}

fn is_admission(event: &Event, from: u8, at: u8, number: usize) -> bool
    ensures { result ≡ is_admit from at number event.now }
{
    match event {
        Event::Admit {
            from: x,
            at: y,
            number: k,
        } => x.get() == from && y.get() == at && *k as usize == number,
        _ => false,
    }
}

/// Whether the number of the link was admitted.
pub fn is_admitted(events: &[Event], from: u8, at: u8, number: usize) -> bool
    ensures { result ≡ was_admitted from at number (reverse events.now) }
{
    let mut admitted = false;
    for event in events {
        admitted = is_admission(event, from, at, number) || admitted;
    }
    admitted
}

fn is_repetition(event: &Event, from: u8, at: u8, number: usize) -> bool
    ensures { result ≡ is_repeat from at number event.now }
{
    match event {
        Event::Repeat {
            from: x,
            at: y,
            number: k,
        } => x.get() == from && y.get() == at && *k as usize == number,
        _ => false,
    }
}

/// How many copies of the number were added to the link.
fn repetitions(events: &[Event], from: u8, at: u8, number: usize) -> usize
    ensures value { result ≡ tally (is_repeat from at number) (reverse events.now) }
    ensures bound { result ≤ length events.now }
{
    let mut count = 0;
    for event in events {
        if is_repetition(event, from, at, number) {
            count += 1;
        }
    }
    count
}

fn is_loss_or_admission(event: &Event, from: u8, at: u8, number: usize) -> bool
    ensures { result ≡ is_departure from at number event.now }
{
    match event {
        Event::Lose {
            from: x,
            at: y,
            number: k,
        } => x.get() == from && y.get() == at && *k as usize == number,
        _ => is_admission(event, from, at, number),
    }
}

/// How many copies of the number were lost or admitted.
fn departures(events: &[Event], from: u8, at: u8, number: usize) -> usize
    ensures value { result ≡ tally (is_departure from at number) (reverse events.now) }
    ensures bound { result ≤ length events.now }
{
    let mut count = 0;
    for event in events {
        if is_loss_or_admission(event, from, at, number) {
            count += 1;
        }
    }
    count
}

/// Whether a copy of the number is on the link.
pub fn has_copy(events: &[Event], from: u8, at: u8, number: usize) -> bool
    ensures { result ≡ nat_lt 0 (copies from at number (reverse events.now)) }
{
    let gone = departures(events, from, at, number);
    let added = repetitions(events, from, at, number);
    if number < sent_on(events, from, at) {
        gone <= added
    } else {
        gone < added
    }
}

fn is_arriving(events: &[Event], from: u8, at: u8, number: usize) -> bool
    ensures { result ≡ arrives (reverse events.now) from at number }
{
    is_admitted(events, from, at, number) || has_copy(events, from, at, number)
}

/// Whether both nodes, which differ, are up, and the number was not admitted and no copy of it is on the link.
fn is_number_missing(events: &[Event], from: u8, at: u8, number: usize) -> bool
    ensures { result ≡ is_undelivered (reverse events.now) from at number }
{
    from != at
        && is_node_up(events, from)
        && is_node_up(events, at)
        && !is_arriving(events, from, at, number)
}

/// Whether the message that is sent next between the two actors is missing.
fn is_send_missing(events: &[Event], earlier: &[Event], from: ActorId, to: ActorId) -> bool
    ensures { result ≡ is_undelivered (reverse events.now) from.node to.node (tally (is_send_on from.node to.node) (reverse earlier.now)) }
{
    let source = from.node().get();
    let target = to.node().get();
    is_number_missing(events, source, target, sent_on(earlier, source, target))
}

/// Whether the event sends a message that is missing.
fn is_message_missing(events: &[Event], event: &Event, earlier: &[Event]) -> bool
    ensures { result ≡ is_missing (reverse events.now) event.now (reverse earlier.now) }
{
    match event {
        Event::Send { from, to, .. } => { is_send_missing(events, earlier, *from, *to) }
        _ => false,
    }
}

/// Whether a message between two nodes that are up is neither admitted nor on the link. Quadratic time.
pub fn are_messages_missing(events: &[Event]) -> bool
    ensures { result ≡ some_moment (is_missing (reverse events.now)) (reverse events.now) }
{
    let mut missing = false;
    for (i, event) in events.iter().enumerate() {
        missing = is_message_missing(events, event, &events[..i]) || missing;
    }
    missing
}

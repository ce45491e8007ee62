//! The events of lines.
ghost use Rattle.std.specs.Prelude.{◌≡◌, true, IfSome};
ghost use Rattle.true_config.specs.Applying.{CarriesFew};

use event_lines::read;
use history_model::Event;
use journal_model::Line;
use std::alloc::Global;

/// The event that the line spells; None where it spells none, or a message with more than 16 references.
pub fn event_of(alloc: Global, line: &[u8]) -> Option<Event>
    ensures { IfSome result CarriesFew }
{
    let Ok(Line::Event(event)) = read(alloc, line) else {
        return None;
    };
    if carries_few(&event) {
        Some(event)
    } else {
        None
    }
}

/// Whether the event, where it is a send, carries at most 16 references.
fn carries_few(event: &Event) -> bool
    ensures { result ≡ true → CarriesFew event.now }
{
    match event {
        Event::Send { refs, .. } => refs.len() <= 16,
        _ => true,
    }
}

/// Whether the event is a hand or a sweep.
pub fn is_of_collector(event: &Event) -> bool {
    matches!(event, Event::Hand { .. } | Event::Sweep { .. })
}

//! The limits that an event would pass.
ghost use Rattle.std.specs.Prelude.{◌≡◌, ◌≢◌, None, nat_lt, IfOk};
ghost use Rattle.history_model.specs.Legal.{refusal};
ghost use Rattle.history_model.specs.Streams.{queue, window};
ghost use Rattle.journal_model.specs.Limits.{limit_passed, named_count, passes_actors, passes_delta};
ghost use Rattle.true_config.specs.Applying.{hindrance};
ghost use Rattle.crgc_ids.specs.declared.limits.TheConstants.{MOST_NAMED};

use crate::World;
use crate::applied::Applied;
use crgc_ids::{MOST_ACTORS, MOST_EVENTS, MOST_NAMED, NoMemory, NodeId, Which};
use event_rules::refusal;
use history_model::{Event, Rule};

impl World {
    /// What hinders the event: the first rule that it breaks, or else the limit that it would pass; None exactly where it may
    /// follow. In the time of `refusal` and `limit`.
    #[inline(always)]
    pub(crate) fn hindrance(&self, event: &Event) -> Result<Option<Applied>, NoMemory>
        ensures { IfOk result (λ x. x ≡ hindrance self.now.cluster event.now self.now.past) }
    {
        if let Some(rule) = self.refusal(event) {
            return Ok(Some(Applied::Illegal(rule)));
        }
        match self.limit(event) {
            Ok(Some(which)) => Ok(Some(Applied::Limit(which))),
            Ok(None) => Ok(None),
            Err(_) => Err(NoMemory),
        }
    }

    /// The first rule that the event breaks; None exactly where it is legal. It asks at most eight times, and a send twice more
    /// for each reference.
    #[inline(always)]
    pub fn refusal(&self, event: &Event) -> Option<Rule>
        ensures { result ≡ refusal self.now.cluster event.now self.now.past }
    {
        refusal(self, event)
    }

    /// The limit that a legal event would pass, if any: an actor beyond the greatest serial, then a bulletin that names more than
    /// 200,000 actors, then an event beyond the 1,000,000th. For a publish it adds the queue up, in time in proportion to
    /// n log n for n rows.
    #[inline(always)]
    pub fn limit(&self, event: &Event) -> Result<Option<Which>, NoMemory>
        requires { refusal self.now.cluster event.now self.now.past ≡ None }
        ensures { IfOk result (λ limit. limit ≡ limit_passed self.now.cluster event.now self.now.past) }
    {
        if self.passes_actors(event) {
            return Ok(Some(Which::Actors));
        }
        let Ok(over) = self.passes_delta(event) else {
            return Err(NoMemory);
        };
        if over {
            return Ok(Some(Which::Delta));
        }
        if self.history.len() >= MOST_EVENTS as usize {
            return Ok(Some(Which::Events));
        }
        Ok(None)
    }

    /// Whether the event gives birth to an actor beyond the greatest serial.
    fn passes_actors(&self, event: &Event) -> bool
        ensures { result ≡ passes_actors event.now self.now.past }
    {
        match event {
            Event::Seed { node } => self.born(*node) >= MOST_ACTORS,
            Event::Spawn { parent } => self.born(parent.node()) >= MOST_ACTORS,
            _ => false,
        }
    }

    /// Whether the bulletin that a legal event makes would name too many actors.
    fn passes_delta(&self, event: &Event) -> Result<bool, NoMemory>
        requires { refusal self.now.cluster event.now self.now.past ≡ None }
        ensures { IfOk result (λ over. over ≡ passes_delta self.now.cluster event.now self.now.past) }
    {
        match event {
            Event::Publish { node } => self.queue_names_too_many(*node),
            Event::Window { at, from } => Ok(self.window_names_too_many(*from, *at)),
            Event::Remove { at, gone } => Ok(self.window_names_too_many(*gone, *at)),
            _ => Ok(false),
        }
    }

    /// Whether the next window of the link would name too many actors.
    fn window_names_too_many(&self, from: NodeId, at: NodeId) -> bool
        requires { from ≢ at }
        ensures { result ≡ nat_lt MOST_NAMED (named_count (window from at self.now.past)) }
    {
        self.traffic.named(from, at) > MOST_NAMED
    }

    /// Whether the next Delta of the node would name too many actors.
    pub(crate) fn queue_names_too_many(&self, node: NodeId) -> Result<bool, NoMemory>
        ensures { IfOk result (λ over. over ≡ nat_lt MOST_NAMED (named_count (queue self.now.cluster node self.now.past))) }
    {
        self.streams.names_too_many(node)
    }
}

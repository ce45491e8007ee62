//! Publications.
ghost use Rattle.std.specs.Prelude.{◌≡◌, ◌<◌, None, IfOk, length};
ghost use Rattle.history_model.specs.declared.events.Event.TheVariants as events;
ghost use Rattle.history_model.specs.Legal.{refusal};
ghost use Rattle.true_config.specs.Applying.{OnDone, UnlessDone, answer_to};
ghost use Rattle.true_config.specs.Steps.{Adds};
ghost use Rattle.crgc_ids.specs.declared.limits.TheConstants.{MOST_EVENTS};

use crate::World;
use crate::applied::{Applied, Told};
use crgc_ids::{MOST_EVENTS, NoMemory, NodeId, Which};
use delta_graph::DeltaFault;
use history_model::Event;

impl World {
    /// The queue of a node becomes a bulletin, or the answer is what hinders that. The queue is added up once: only so is it
    /// known how many actors it names.
    pub(crate) fn publish_if_possible(&mut self, node: NodeId) -> Result<Applied, NoMemory>
        ensures answer { IfOk result (λ x. x ≡ answer_to self.old.cluster (events.Publish node) self.old.past) }
        ensures done { OnDone result (Adds (events.Publish node) self.old self.new) }
        ensures unless { UnlessDone result (self.new ≡ self.old) }
    {
        if let Some(rule) = self.refusal(&Event::Publish { node }) {
            return Ok(Applied::Illegal(rule));
        }
        if self.history.len() < MOST_EVENTS as usize {
            return self.publish(node);
        }
        match self.queue_names_too_many(node) {
            Ok(true) => Ok(Applied::Limit(Which::Delta)),
            Ok(false) => Ok(Applied::Limit(Which::Events)),
            Err(_) => Err(NoMemory),
        }
    }

    /// The queue of a node becomes a bulletin, or it names too many actors. After any answer but `Done`, and after `NoMemory`,
    /// all is as before.
    fn publish(&mut self, node: NodeId) -> Result<Applied, NoMemory>
        requires legal { refusal self.old.cluster (events.Publish node) self.old.past ≡ None }
        requires room { length self.old.past < MOST_EVENTS }
        ensures answer { IfOk result (λ x. x ≡ answer_to self.old.cluster (events.Publish node) self.old.past) }
        ensures done { OnDone result (Adds (events.Publish node) self.old self.new) }
        ensures unless { UnlessDone result (self.new ≡ self.old) }
    {
        let Ok(()) = self.history.push(Event::Publish { node }) else {
            return Err(NoMemory);
        };
        match self.streams.publish(node) {
            Ok(()) => Ok(Applied::Done(Told::Plain)),
            Err(DeltaFault::TableFull) => {
                self.history.take_back();
                Ok(Applied::Limit(Which::Delta))
            }
            Err(DeltaFault::NoMemory) => {
                self.history.take_back();
                Err(NoMemory)
            }
        }
    }
}

//! The rules of the events that name nodes alone.
ghost use Rattle.std.specs.Prelude.{◌≡◌};
ghost use Rattle.history_model.specs.declared.events.Event.TheVariants.{Seed, Publish, Crash, Hand, Sweep};
ghost use Rattle.history_model.specs.Legal.{refusal};

use crate::moment::Moment;
use crgc_ids::NodeId;
use history_model::Rule;

/// The rules of a seed, a crash and a sweep: the node is one of the cluster, and up.
pub fn of_node<M: Moment>(moment: &M, node: NodeId) -> Option<Rule>
    ensures seed { result ≡ refusal (M.story moment.now).cluster (Seed node) (M.story moment.now).past }
    ensures crash { result ≡ refusal (M.story moment.now).cluster (Crash node) (M.story moment.now).past }
    ensures sweep { result ≡ refusal (M.story moment.now).cluster (Sweep node) (M.story moment.now).past }
{
    if node.get() >= moment.nodes() {
        return Some(Rule::NoNode);
    }
    if !moment.is_up(node) {
        return Some(Rule::Down);
    }
    None
}

/// The rules of a publish.
pub fn of_publish<M: Moment>(moment: &M, node: NodeId) -> Option<Rule>
    ensures { result ≡ refusal (M.story moment.now).cluster (Publish node) (M.story moment.now).past }
{
    if node.get() >= moment.nodes() {
        return Some(Rule::NoNode);
    }
    if !moment.is_up(node) {
        return Some(Rule::Down);
    }
    if !moment.has_entries(node) {
        return Some(Rule::EmptyQueue);
    }
    None
}

/// The rules of a hand.
pub fn of_hand<M: Moment>(moment: &M, to: NodeId, origin: NodeId, number: u32) -> Option<Rule>
    ensures { result ≡ refusal (M.story moment.now).cluster (Hand to origin number) (M.story moment.now).past }
{
    if to.get() >= moment.nodes() {
        return Some(Rule::NoNode);
    }
    if origin.get() >= moment.nodes() {
        return Some(Rule::NoNode);
    }
    if !moment.is_up(to) {
        return Some(Rule::Down);
    }
    if number >= moment.stream_len(origin) {
        return Some(Rule::NoBulletin);
    }
    None
}

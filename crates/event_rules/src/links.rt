//! The rules of the events on links.
ghost use Rattle.std.specs.Prelude.{◌≡◌};
ghost use Rattle.history_model.specs.declared.events.Event.TheVariants.{Admit, Lose, Remove, Repeat, Window};
ghost use Rattle.history_model.specs.Legal.{refusal};

use crate::moment::Moment;
use crgc_ids::NodeId;
use history_model::Rule;

/// The rules of an admission, a loss and a repeat.
pub fn of_copy<M: Moment>(moment: &M, from: NodeId, at: NodeId, number: u32) -> Option<Rule>
    ensures admit { result ≡ refusal (M.story moment.now).cluster (Admit from at number) (M.story moment.now).past }
    ensures lose { result ≡ refusal (M.story moment.now).cluster (Lose from at number) (M.story moment.now).past }
    ensures repeat { result ≡ refusal (M.story moment.now).cluster (Repeat from at number) (M.story moment.now).past }
{
    if from.get() >= moment.nodes() {
        return Some(Rule::NoNode);
    }
    if at.get() >= moment.nodes() {
        return Some(Rule::NoNode);
    }
    if from.get() == at.get() {
        return Some(Rule::SameNode);
    }
    if !moment.is_up(at) {
        return Some(Rule::Down);
    }
    if moment.is_closed(from, at) {
        return Some(Rule::Closed);
    }
    if !moment.has_copy(from, at, number) {
        return Some(Rule::NotOnLink);
    }
    None
}

/// The rules of a window.
pub fn of_window<M: Moment>(moment: &M, at: NodeId, from: NodeId) -> Option<Rule>
    ensures { result ≡ refusal (M.story moment.now).cluster (Window at from) (M.story moment.now).past }
{
    if at.get() >= moment.nodes() {
        return Some(Rule::NoNode);
    }
    if from.get() >= moment.nodes() {
        return Some(Rule::NoNode);
    }
    if at.get() == from.get() {
        return Some(Rule::SameNode);
    }
    if !moment.is_up(at) {
        return Some(Rule::Down);
    }
    if moment.is_closed(from, at) {
        return Some(Rule::Closed);
    }
    if !moment.has_admitted(from, at) {
        return Some(Rule::NothingAdmitted);
    }
    None
}

/// The rules of a removal.
pub fn of_remove<M: Moment>(moment: &M, at: NodeId, gone: NodeId) -> Option<Rule>
    ensures { result ≡ refusal (M.story moment.now).cluster (Remove at gone) (M.story moment.now).past }
{
    if at.get() >= moment.nodes() {
        return Some(Rule::NoNode);
    }
    if gone.get() >= moment.nodes() {
        return Some(Rule::NoNode);
    }
    if at.get() == gone.get() {
        return Some(Rule::SameNode);
    }
    if !moment.is_up(at) {
        return Some(Rule::Down);
    }
    if moment.is_up(gone) {
        return Some(Rule::NotCrashed);
    }
    if moment.is_closed(gone, at) {
        return Some(Rule::Removed);
    }
    None
}

//! The rules of the events of one actor, and of two.
ghost use Rattle.std.specs.Prelude.{◌≡◌, nat_lt};
ghost use Rattle.history_model.specs.Cluster.{same_actor};
ghost use Rattle.history_model.specs.Held.{held};
ghost use Rattle.history_model.specs.declared.events.Event.TheVariants.{Drop, Flush, Rest, Retire, Spawn, Take, Tie, Wake};
ghost use Rattle.history_model.specs.Legal.{gives_up_parent, refusal};
ghost use Rattle.history_model.specs.State.{is_up};

use crate::moment::Moment;
use crgc_ids::ActorId;
use history_model::Rule;

/// Whether the two are one actor.
fn is_same(a: ActorId, b: ActorId) -> bool
    ensures { result ≡ same_actor a b }
{
    a.node().get() == b.node().get() && a.serial() == b.serial()
}

/// Whether the actor's node is up.
pub fn is_node_up<M: Moment>(moment: &M, actor: ActorId) -> bool
    ensures { result ≡ is_up actor.node (M.story moment.now).past }
{
    moment.is_up(actor.node())
}

/// Whether the owner holds a reference to the target.
pub fn is_held<M: Moment>(moment: &M, owner: ActorId, target: ActorId) -> bool
    ensures { result ≡ nat_lt 0 (held (M.story moment.now).cluster owner target (M.story moment.now).past) }
{
    moment.held(owner, target) > 0
}

/// The rules of a tie.
pub fn of_tie<M: Moment>(moment: &M, owner: ActorId, target: ActorId) -> Option<Rule>
    ensures { result ≡ refusal (M.story moment.now).cluster (Tie owner target) (M.story moment.now).past }
{
    if !moment.is_actor(owner) {
        return Some(Rule::NoActor);
    }
    if !moment.is_actor(target) {
        return Some(Rule::NoActor);
    }
    if !is_node_up(moment, owner) {
        return Some(Rule::Down);
    }
    if !is_node_up(moment, target) {
        return Some(Rule::Down);
    }
    if is_same(owner, target) {
        return Some(Rule::SameActor);
    }
    if !moment.is_root(owner) {
        return Some(Rule::NotRoot);
    }
    if !moment.is_root(target) {
        return Some(Rule::NotRoot);
    }
    None
}

/// The rules of a wake.
pub fn of_wake<M: Moment>(moment: &M, actor: ActorId) -> Option<Rule>
    ensures { result ≡ refusal (M.story moment.now).cluster (Wake actor) (M.story moment.now).past }
{
    if !moment.is_actor(actor) {
        return Some(Rule::NoActor);
    }
    if !is_node_up(moment, actor) {
        return Some(Rule::Down);
    }
    if !moment.is_root(actor) {
        return Some(Rule::NotRoot);
    }
    if moment.is_busy(actor) {
        return Some(Rule::Busy);
    }
    None
}

/// The rules of a take.
pub fn of_take<M: Moment>(moment: &M, actor: ActorId) -> Option<Rule>
    ensures { result ≡ refusal (M.story moment.now).cluster (Take actor) (M.story moment.now).past }
{
    if !moment.is_actor(actor) {
        return Some(Rule::NoActor);
    }
    if !is_node_up(moment, actor) {
        return Some(Rule::Down);
    }
    if moment.is_busy(actor) {
        return Some(Rule::Busy);
    }
    if !moment.has_mail(actor) {
        return Some(Rule::NoMail);
    }
    None
}

/// The rules of a spawn and of a rest: the actor is busy, on a node that is up.
pub fn of_busy<M: Moment>(moment: &M, actor: ActorId) -> Option<Rule>
    ensures spawn { result ≡ refusal (M.story moment.now).cluster (Spawn actor) (M.story moment.now).past }
    ensures rest { result ≡ refusal (M.story moment.now).cluster (Rest actor) (M.story moment.now).past }
{
    if !moment.is_actor(actor) {
        return Some(Rule::NoActor);
    }
    if !is_node_up(moment, actor) {
        return Some(Rule::Down);
    }
    if !moment.is_busy(actor) {
        return Some(Rule::Idle);
    }
    None
}

/// The rules of a retirement.
pub fn of_retire<M: Moment>(moment: &M, actor: ActorId) -> Option<Rule>
    ensures { result ≡ refusal (M.story moment.now).cluster (Retire actor) (M.story moment.now).past }
{
    if !moment.is_actor(actor) {
        return Some(Rule::NoActor);
    }
    if !is_node_up(moment, actor) {
        return Some(Rule::Down);
    }
    if !moment.is_root(actor) {
        return Some(Rule::NotRoot);
    }
    if !moment.is_busy(actor) {
        return Some(Rule::Idle);
    }
    None
}

/// The rules of a flush.
pub fn of_flush<M: Moment>(moment: &M, actor: ActorId) -> Option<Rule>
    ensures { result ≡ refusal (M.story moment.now).cluster (Flush actor) (M.story moment.now).past }
{
    if !moment.is_actor(actor) {
        return Some(Rule::NoActor);
    }
    if !is_node_up(moment, actor) {
        return Some(Rule::Down);
    }
    if !moment.can_flush(actor) {
        return Some(Rule::Blank);
    }
    None
}

/// Whether the actor would give up its last reference to its parent.
fn is_last_to_parent<M: Moment>(moment: &M, actor: ActorId, target: ActorId) -> bool
    ensures { result ≡ gives_up_parent (M.story moment.now).cluster actor target (M.story moment.now).past }
{
    moment.version() == 2 && moment.is_parent(target, actor) && moment.held(actor, target) == 1
}

/// The rules of a drop.
pub fn of_drop<M: Moment>(moment: &M, actor: ActorId, target: ActorId) -> Option<Rule>
    ensures { result ≡ refusal (M.story moment.now).cluster (Drop actor target) (M.story moment.now).past }
{
    if !moment.is_actor(actor) {
        return Some(Rule::NoActor);
    }
    if !moment.is_actor(target) {
        return Some(Rule::NoActor);
    }
    if !is_node_up(moment, actor) {
        return Some(Rule::Down);
    }
    if !moment.is_busy(actor) {
        return Some(Rule::Idle);
    }
    if !is_held(moment, actor, target) {
        return Some(Rule::NotHeld);
    }
    if is_last_to_parent(moment, actor, target) {
        return Some(Rule::Supervisor);
    }
    None
}

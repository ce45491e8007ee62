//! The world answers what the rules ask.
use crate::World;
use crgc_ids::{ActorId, NodeId};
use event_rules::Moment;

impl Moment for World {
    ghost story = { λ w. w };

    fn nodes(&self) -> u8 {
        World::nodes(self)
    }

    fn version(&self) -> u8 {
        World::version(self)
    }

    fn is_up(&self, node: NodeId) -> bool {
        World::is_up(self, node)
    }

    fn is_actor(&self, actor: ActorId) -> bool {
        World::is_actor(self, actor)
    }

    fn is_busy(&self, actor: ActorId) -> bool {
        World::is_busy(self, actor)
    }

    fn is_root(&self, actor: ActorId) -> bool {
        World::is_root(self, actor)
    }

    fn is_parent(&self, parent: ActorId, child: ActorId) -> bool {
        World::is_parent(self, parent, child)
    }

    fn held(&self, owner: ActorId, target: ActorId) -> u32 {
        World::held(self, owner, target)
    }

    fn has_mail(&self, actor: ActorId) -> bool {
        World::has_mail(self, actor)
    }

    fn can_flush(&self, actor: ActorId) -> bool {
        World::can_flush(self, actor)
    }

    fn has_entries(&self, node: NodeId) -> bool {
        World::has_entries(self, node)
    }

    fn stream_len(&self, node: NodeId) -> u32 {
        World::stream_len(self, node)
    }

    fn is_closed(&self, from: NodeId, at: NodeId) -> bool {
        World::is_closed(self, from, at)
    }

    fn has_admitted(&self, from: NodeId, at: NodeId) -> bool {
        World::has_admitted(self, from, at)
    }

    fn has_copy(&self, from: NodeId, at: NodeId, number: u32) -> bool {
        World::has_copy(self, from, at, number)
    }
}

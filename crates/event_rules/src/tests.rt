//! The rules at the beginning of a history, where nothing has happened.
ghost use Rattle.std.specs.Prelude.{[]};

use crate::{Moment, refusal};
use crgc_ids::{ActorId, NodeId};
use history_model::{Event, Rule};
use std::test::Fail;

/// A cluster of two nodes before its first event.
struct Beginning;

impl Moment for Beginning {
    ghost story = { λ b. record { cluster = record { nodes = 2; version = 2 }; past = [] } };

    fn nodes(&self) -> u8 {
        2
    }

    fn version(&self) -> u8 {
        2
    }

    fn is_up(&self, _node: NodeId) -> bool {
        true
    }

    fn is_actor(&self, _actor: ActorId) -> bool {
        false
    }

    fn is_busy(&self, _actor: ActorId) -> bool {
        false
    }

    fn is_root(&self, _actor: ActorId) -> bool {
        false
    }

    fn is_parent(&self, _parent: ActorId, _child: ActorId) -> bool {
        false
    }

    fn held(&self, _owner: ActorId, _target: ActorId) -> u32 {
        0
    }

    fn has_mail(&self, _actor: ActorId) -> bool {
        false
    }

    fn can_flush(&self, _actor: ActorId) -> bool {
        true
    }

    fn has_entries(&self, _node: NodeId) -> bool {
        false
    }

    fn stream_len(&self, _node: NodeId) -> u32 {
        0
    }

    fn is_closed(&self, _from: NodeId, _at: NodeId) -> bool {
        false
    }

    fn has_admitted(&self, _from: NodeId, _at: NodeId) -> bool {
        false
    }

    fn has_copy(&self, _from: NodeId, _at: NodeId, _number: u32) -> bool {
        false
    }
}

#[test]
fn an_empty_cluster_can_seed_and_crash(rt: HostRuntime) -> Result<(), Fail> {
    let node = NodeId::new(0).ok_or("node 0")?;
    let other = NodeId::new(1).ok_or("node 1")?;
    let stranger = NodeId::new(2).ok_or("node 2")?;
    let actor = ActorId::new(node, 0).ok_or("actor 0.0")?;
    let table = [
        (Event::Seed { node }, None),
        (Event::Crash { node }, None),
        (Event::Sweep { node }, None),
        (Event::Seed { node: stranger }, Some(Rule::NoNode)),
        (Event::Wake { actor }, Some(Rule::NoActor)),
        (Event::Publish { node }, Some(Rule::EmptyQueue)),
        (
            Event::Window {
                at: node,
                from: node,
            },
            Some(Rule::SameNode),
        ),
        (
            Event::Window {
                at: node,
                from: other,
            },
            Some(Rule::NothingAdmitted),
        ),
        (
            Event::Admit {
                from: node,
                at: other,
                number: 0,
            },
            Some(Rule::NotOnLink),
        ),
        (
            Event::Remove {
                at: node,
                gone: other,
            },
            Some(Rule::NotCrashed),
        ),
        (
            Event::Hand {
                to: node,
                origin: other,
                number: 0,
            },
            Some(Rule::NoBulletin),
        ),
    ];
    for (event, rule) in &table {
        assert_eq!(rt; refusal(&Beginning, event), *rule);
    }
    Ok(())
}

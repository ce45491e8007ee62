//! The constants of a cluster, and the tests on actors.
ghost use Rattle.std.specs.Prelude.{◌≡◌};
ghost use Rattle.history_model.specs.Cluster.{same_actor};

use crgc_ids::ActorId;
use history_model::History;
use std::marker::Model;

/// The constants of a history. Contracts see the record of the two numbers.
#[derive(Clone, Copy, Debug)]
pub struct Constants {
    nodes: u8,
    version: u8,
}

impl Model for Constants {
    ghost use Rattle.history_model.specs.Cluster.{Cluster};

    ghost Value = { Cluster };

    ghost view = { λ c. record { nodes = c.nodes; version = c.version } };

    ghost inverse = { λ c. record { nodes = c.nodes; version = c.version } };
}

impl Constants {
    pub fn of(history: &History) -> Constants
        ensures { result ≡ history.now.cluster }
    {
        Constants {
            nodes: history.nodes(),
            version: history.version(),
        }
    }

    pub fn nodes(self) -> u8
        ensures { result ≡ self.nodes }
    {
        self.nodes
    }

    pub fn version(self) -> u8
        ensures { result ≡ self.version }
    {
        self.version
    }
}

/// Whether the two are one actor.
pub fn is_same(a: ActorId, b: ActorId) -> bool
    ensures { result ≡ same_actor a b }
{
    a.node().get() == b.node().get() && a.serial() == b.serial()
}

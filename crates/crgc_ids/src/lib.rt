//! The names that every other crate uses: nodes, actors, sets of nodes, cuts, and small lists.
#![tactic(auto)]

mod cut;
mod ids;
pub mod laws;
mod limits;
mod lists;
mod node_set;
mod refs;
mod rising;

pub use cut::Cut;
pub use ids::{ActorId, NodeId};
pub use limits::{MOST_ACTORS, MOST_BYTES, MOST_EVENTS, MOST_NAMED};
pub use lists::{ActorList, ItemList, Octets};
pub use node_set::NodeSet;
pub use refs::RefList;
pub use rising::{ActorCount, ActorCounts, PairCount, PairCounts, RisingList, Row};

/// Want of memory: the allocator gave none.
#[derive(Clone, Copy, PartialEq, Eq, Debug)]
pub struct NoMemory;

/// Which limit was passed: the bytes of the input, the events of the history, the actors of a node, or the actors that
/// one bulletin names.
#[derive(Clone, Copy, PartialEq, Eq, Debug)]
pub enum Which {
    Input,
    Events,
    Actors,
    Delta,
}

#[cfg(test)]
mod tests;

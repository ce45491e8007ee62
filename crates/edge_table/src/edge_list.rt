//! Edges in the order of their numbers.
ghost use Rattle.std.specs.Prelude.{◌≡◌, ◌-◌, ◌<◌, ◌++◌, [], ◌∷◌, IsSome, OnOk, length, slice_index_or, slice_set, take};
ghost use Rattle.std.specs.Option.{option_to_list};
ghost use Rattle.edge_table.specs.Table.{no_edge};

use crate::table::Edge;
use crgc_ids::{ActorId, NoMemory};
use std::alloc::Global;
use std::marker::Model;
use std::snapshot::Snapshot;

/// An edge, and the pair of its owner and its target. It has no room for the pair: contracts see it, and no code can.
#[derive(Drop)]
struct PairedEdge {
    edge: Edge,
    pair: Snapshot<(ActorId, ActorId)>,
}

/// Edges, each between an owner and a target, in the order in which they were added. Contracts see the list of the pairs, that of
/// the edges, and for how many more there is room.
#[derive(Drop)]
pub struct EdgeList {
    items: Vec<PairedEdge>,
}

impl Model for EdgeList {
    ghost use Rattle.std.specs.Prelude.{◌-◌, map, vec_capacity, vec_len};
    ghost use Rattle.edge_table.specs.Paired.{PairedEdges};

    ghost Value = { PairedEdges };

    ghost view = { λ l. record {
      pairs = map (λ e. e.pair.value) l.items.items;
      edges = map (λ e. e.edge) l.items.items;
      room = vec_capacity l.items - vec_len l.items;
    } };
}

impl EdgeList {
    /// No edge.
    pub fn new(alloc: Global) -> EdgeList
        ensures pairs { result.pairs ≡ [] }
        ensures edges { result.edges ≡ [] }
    {
        EdgeList {
            items: Vec::new(alloc),
        }
    }

    /// How many edges there are.
    #[inline(always)]
    pub fn len(&self) -> usize
        ensures { result ≡ length self.now.edges }
    {
        self.items.len()
    }

    /// Room for one more edge.
    pub fn reserve(&mut self) -> Result<(), NoMemory>
        ensures pairs { self.new.pairs ≡ self.old.pairs }
        ensures edges { self.new.edges ≡ self.old.edges }
        ensures ok { OnOk result (0 < self.new.room) }
    {
        match self.items.reserve(1) {
            Ok(()) => Ok(()),
            Err(_) => Err(NoMemory),
        }
    }

    /// The edge from the owner to the target comes last. It takes no memory.
    pub fn push(&mut self, owner: ActorId, target: ActorId, edge: Edge)
        requires { 0 < self.old.room }
        ensures pairs { self.new.pairs ≡ self.old.pairs ++ (owner, target) ∷ [] }
        ensures edges { self.new.edges ≡ self.old.edges ++ edge ∷ [] }
    {
        self.items.push_reserved(PairedEdge {
            edge,
            pair: Snapshot::of(&(owner, target)),
        });
    }

    /// The last edge, if there is one, is taken away.
    pub fn pop(&mut self) -> Option<Edge>
        ensures pairs { self.new.pairs ≡ take (length self.old.pairs - 1) self.old.pairs }
        ensures edges { self.old.edges ≡ self.new.edges ++ option_to_list result }
        ensures some { 0 < length self.old.edges → IsSome result }
    {
        match self.items.pop() {
            Some(last) => Some(last.edge),
            None => None,
        }
    }

    /// The edge with this number.
    #[inline(always)]
    pub fn get(&self, number: usize) -> Edge
        requires { number < length self.now.edges }
        ensures { result ≡ slice_index_or self.now.edges number no_edge }
    {
        self.items[number].edge
    }

    /// This is the edge with this number from now on; its pair stays.
    #[inline(always)]
    pub fn set(&mut self, number: usize, edge: Edge)
        requires { number < length self.old.edges }
        ensures pairs { self.new.pairs ≡ self.old.pairs }
        ensures edges { self.new.edges ≡ slice_set self.old.edges number edge }
    {
        self.items[number].edge = edge;
    }
}

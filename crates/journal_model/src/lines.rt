//! What one line of a journal says, and why a line says nothing.
use crgc_ids::{ItemList, NodeId};
use history_model::{Event, Stop};

/// The counts of a cut, one an origin in order.
pub type CountList = ItemList<u32>;

/// Nodes in the order in which they were put in.
pub type NodeList = ItemList<NodeId>;

/// What one line of a journal says.
#[derive(Debug, Drop)]
pub enum Line {
    /// An event.
    Event(Event),
    /// What a sweep of `node` goes by: how many bulletins of each origin are folded, and the lost nodes.
    Cut {
        node: NodeId,
        counts: CountList,
        lost: NodeList,
    },
    /// What a sweep of `by` stops, with its evidence.
    Stop {
        by: NodeId,
        stop: Stop,
    },
    /// How many events there were, and how many actors were stopped.
    End {
        events: u32,
        stopped: u32,
    },
}

/// Why a line says nothing, by the word that a fault line prints for it.
#[derive(Clone, Copy, PartialEq, Eq, Debug)]
pub enum LineFault {
    /// `word`: no form has its first word.
    Word,
    /// `field`: a field that its form needs is missing, or a word in place of a field is not spelled so.
    Field,
    /// `extra`: words follow after all that its form takes.
    Extra,
}

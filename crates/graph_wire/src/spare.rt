//! Room that is used again.
use crate::table::TableActor;
use crgc_ids::{ActorCount, PairCount};
use history_model::{Bulletin, Delta, StateRow, Window};
use std::alloc::Global;

/// A vector with room for more rows than this is not kept.
const MOST_KEPT: usize = 1024;

/// The vectors of bulletins that were given up, for those that are read next, so that reading takes memory only where a
/// bulletin is longer than those before it. No clause tells what is in them: nothing of it is read.
#[derive(Drop)]
pub struct Spare {
    pub table: Vec<TableActor>,
    pub states: Vec<StateRow>,
    pub counts: Vec<ActorCount>,
    pub created: Vec<PairCount>,
    pub released: Vec<PairCount>,
}

impl Spare {
    /// No room.
    pub fn new(alloc: Global) -> Spare {
        Spare {
            table: Vec::new(alloc),
            states: Vec::new(alloc),
            counts: Vec::new(alloc),
            created: Vec::new(alloc),
            released: Vec::new(alloc),
        }
    }

    /// The bulletin is given up, and its room is kept, unless it is much. Constant time.
    pub fn keep(&mut self, b: Bulletin) {
        match b {
            Bulletin::Delta(delta) => self.keep_delta(delta),
            Bulletin::Window(window) => self.keep_window(window),
            Bulletin::Final(window) => self.keep_window(window),
        }
    }

    fn keep_delta(&mut self, delta: Delta) {
        keep(&mut self.states, delta.states.into_vec());
        keep(&mut self.counts, delta.sent.into_vec());
        keep(&mut self.created, delta.created.into_vec());
        keep(&mut self.released, delta.released.into_vec());
    }

    fn keep_window(&mut self, window: Window) {
        keep(&mut self.counts, window.messages.into_vec());
        keep(&mut self.created, window.carried.into_vec());
    }
}

/// The vector is kept as the spare one, unless its room is much.
pub fn keep<T: Copy>(spare: &mut Vec<T>, rows: Vec<T>) {
    if rows.capacity() <= MOST_KEPT {
        *spare = rows;
    }
}

//! Where the turns of actors begin.
use crgc_ids::ActorId;
use std::hint::spin_loop;
use std::sync::atomic::{AtomicU64, Ordering};

/// What is told of the beginning of each turn. It promises nothing but that it returns.
pub trait Gate {
    /// The worker's turn with this actor begins.
    fn turn_begins(&self, worker: u32, actor: ActorId);
}

/// A gate that does nothing.
#[derive(Clone, Copy, PartialEq, Eq, Debug)]
pub struct QuietGate;

impl Gate for QuietGate {
    fn turn_begins(&self, _worker: u32, _actor: ActorId) {}
}

// How far a gate that holds has come: no turn has begun; the first one is held; the second began meanwhile; none did.
const OPEN: u64 = 0;

const HELD: u64 = 1;

const MET: u64 = 2;

const MISSED: u64 = 3;

/// A gate that holds the first turn that begins until a second one begins, at most for a number of looks at an atomic word.
#[derive(Drop)]
pub struct HoldGate {
    looks: u32,
    state: AtomicU64,
}

impl HoldGate {
    /// A gate at which no turn has begun. The first one is held for so many looks at most.
    pub fn new(looks: u32) -> HoldGate {
        HoldGate {
            looks,
            state: AtomicU64::new(OPEN),
        }
    }

    /// Whether the second turn began while the first one was held.
    pub fn met(&self) -> bool {
        self.state.load(Ordering::SeqCst) == MET
    }

    // Looks until a second turn has begun.
    fn hold(&self) {
        for _ in 0..self.looks {
            if self.met() {
                return;
            }
            spin_loop();
        }
        let _missed = self
            .state
            .compare_exchange(HELD, MISSED, Ordering::SeqCst, Ordering::SeqCst);
    }
}

impl Gate for HoldGate {
    fn turn_begins(&self, _worker: u32, _actor: ActorId) {
        match self
            .state
            .compare_exchange(OPEN, HELD, Ordering::SeqCst, Ordering::SeqCst)
        {
            Ok(_) => self.hold(),
            Err(_) => {
                let _met = self
                    .state
                    .compare_exchange(HELD, MET, Ordering::SeqCst, Ordering::SeqCst);
            }
        }
    }
}

//! Crashes that are planned.
use crgc_ids::{ItemList, NodeId};

/// The node crashes in the operation with which this many turns have ended on it, from 1.
#[derive(Clone, Copy, PartialEq, Eq, Debug)]
pub struct CrashRow {
    pub node: NodeId,
    pub after: u32,
}

/// Crash rows in the order in which they were put in.
pub type CrashRows = ItemList<CrashRow>;

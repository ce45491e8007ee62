//! Why a run by workers has no report.
use crgc_ids::Which;
use history_model::History;

/// Why a run by workers has no report.
#[derive(Drop)]
pub enum WorkersFault {
    /// The history is that of a run, or of one that is being closed, which could pass this limit next.
    Limit { which: Which, history: History },
    /// The allocator gave no memory.
    NoMemory,
}

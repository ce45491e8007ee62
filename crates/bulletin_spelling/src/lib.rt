//! What fits the wire has a spelling.
#![tactic(auto)]

mod spelling;

pub use spelling::is_spellable;

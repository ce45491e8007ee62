//! The program as one call over any source and sink.
#![tactic(auto)]

mod causes;
mod generating;
mod input;
mod playing;
mod refusal;
mod running;
mod script_lines;
mod status;
mod top;
mod working;

pub use command_words::wants_workers;
pub use crgc_ids::Which;
pub use journal_player::Cause;
pub use script_reader::ScriptFault;
pub use status::Status;
pub use top::{crgc_top, plain_top};

//! Behaviours: the names, instructions and lists that actors run.
#![tactic(auto)]

mod act;
mod bound;
mod code;
mod copies;
mod instr;
pub mod laws;
mod local_name;
mod locals;
mod names;
mod run;
mod turn;

pub use act::{Act, List, Step};
pub use code::{Behaviour, BehaviourList, Code};
pub use instr::{Instr, InstrList, Name, NameList};
pub use local_name::LocalName;
pub use locals::Locals;
pub use names::{is_behaviour_name, is_local_name, message_number};
pub use turn::Turn;

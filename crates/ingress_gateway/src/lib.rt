//! The receiving end of a link: it admits each message once, and adds up what it admitted since the last window.
#![tactic(auto)]

mod backlog;
mod ingress;
pub mod laws;
mod names;
mod numbers;

pub use ingress::{Admit, Ingress};

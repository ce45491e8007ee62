//! What happens to a copy on a link.

/// The copy is doubled, lost, or admitted.
#[derive(Clone, Copy, PartialEq, Eq, Debug)]
pub enum Carry {
    Repeat,
    Lose,
    Admit,
}

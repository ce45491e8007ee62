//! The sending end of a link: it numbers the messages.
#![tactic(auto)]

ghost use Rattle.std.specs.Prelude.{◌≡◌, ◌+◌, ◌<◌, ◌^◌};

use std::marker::Model;

/// The sending end of a link. Contracts see how many messages were sent on the link.
#[derive(Drop)]
pub struct Egress {
    sent: u32,
}

impl Model for Egress {
    ghost use Rattle.std.specs.Prelude.{ℕ};

    ghost Value = { ℕ };

    ghost view = { λ e. e.sent };
}

impl Egress {
    /// The end of a link on which nothing was sent.
    pub fn new() -> Egress
        ensures { result ≡ 0 }
    {
        Egress { sent: 0 }
    }

    /// The number of the next message, counted from 0: how many were sent before it. Constant time.
    pub fn stamp(&mut self) -> u32
        requires { self.old + 1 < 2 ^ 32 }
        ensures number { result ≡ self.old }
        ensures counted { self.new ≡ self.old + 1 }
    {
        let number = self.sent;
        self.sent += 1;
        number
    }

    /// How many messages were sent.
    pub fn sent(&self) -> u32
        ensures { result ≡ self.now }
    {
        self.sent
    }
}

#[cfg(test)]
mod tests;

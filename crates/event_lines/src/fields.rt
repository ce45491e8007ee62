//! What one word of a line says.
ghost use Rattle.std.specs.Prelude.{◌≡◌, ◌<◌, ◌≤◌, ◌^◌, drop, IfSome, OnOk};
ghost use Rattle.journal_model.specs.Fields.{actor_of, first_actor, first_name, first_number, number_of};
ghost use Rattle.journal_model.specs.Shapes.{actor_field, ended, name_field, named_number, node_field, number_field};

use crate::pieces::{Pieces, first_place};
use crgc_ids::{ActorId, MOST_ACTORS, NodeId};
use journal_model::LineFault;

/// The number below the limit that is spelled so, in decimal without sign and without leading zeros. Linear time in
/// the digits of the limit.
#[inline(always)]
pub fn number(word: &[u8], limit: u64) -> Option<u64>
    requires some { 1 ≤ limit }
    requires small { limit ≤ 2 ^ 32 }
    ensures value { result ≡ number_of limit word.now }
    ensures in_range { IfSome result (λ n. n < limit) }
{
    if word.is_empty() {
        return None;
    }
    if word[0] == b'0' && word.len() > 1 {
        return None;
    }
    let mut n = 0;
    for b in word {
        // A byte below '0' wraps to a great number.
        let digit = (*b as u64).wrapping_sub(b'0' as u64);
        if digit > 9 {
            return None;
        }
        n = n * 10 + digit;
        if n >= limit {
            return None;
        }
    }
    Some(n)
}

/// The actor that is spelled so: its node and its serial on the two sides of the first dot. Another dot is no digit, so
/// the serial has none.
#[inline(always)]
pub fn actor(word: &[u8]) -> Option<ActorId>
    ensures { result ≡ actor_of word.now }
{
    let dot = first_place(word, b'.')?;
    let node = node(&word[..dot])?;
    let serial = number(&word[dot + 1..], u64::from(MOST_ACTORS))?;
    ActorId::new(node, serial as u32)
}

/// The node that is spelled so.
#[inline(always)]
pub fn node(word: &[u8]) -> Option<NodeId>
    ensures { result ≡ number_of 16 word.now }
{
    let n = number(word, 16)?;
    NodeId::new(n as u8)
}

impl Pieces<'_> {
    /// Takes the first piece; Some exactly where it is this text.
    pub fn name(&mut self, text: &[u8]) -> Option<()>
        ensures value { result ≡ first_name text.now self.old }
        ensures rest { self.new ≡ drop 1 self.old }
    {
        if self.next()? == text { Some(()) } else { None }
    }

    /// Takes the first piece, as a number below the limit.
    pub fn number(&mut self, limit: u64) -> Option<u64>
        requires some { 1 ≤ limit }
        requires small { limit ≤ 2 ^ 32 }
        ensures value { result ≡ first_number limit self.old }
        ensures in_range { IfSome result (λ n. n < limit) }
        ensures rest { self.new ≡ drop 1 self.old }
    {
        number(self.next()?, limit)
    }

    /// Takes the first piece, as a node.
    pub fn node(&mut self) -> Option<NodeId>
        ensures value { result ≡ first_number 16 self.old }
        ensures rest { self.new ≡ drop 1 self.old }
    {
        node(self.next()?)
    }

    /// Takes the first piece, as an actor.
    #[inline(always)]
    pub fn actor(&mut self) -> Option<ActorId>
        ensures value { result ≡ first_actor self.old }
        ensures rest { self.new ≡ drop 1 self.old }
    {
        actor(self.next()?)
    }

    /// Takes the first piece, as a field that is this text.
    pub fn name_field(&mut self, text: &[u8]) -> Result<(), LineFault>
        ensures value { result ≡ name_field text.now self.old }
        ensures rest { self.new ≡ drop 1 self.old }
    {
        match self.name(text) {
            Some(()) => Ok(()),
            None => Err(LineFault::Field),
        }
    }

    /// Takes the first piece, as a field that is a node.
    pub fn node_field(&mut self) -> Result<NodeId, LineFault>
        ensures value { result ≡ node_field self.old }
        ensures rest { self.new ≡ drop 1 self.old }
    {
        match self.node() {
            Some(node) => Ok(node),
            None => Err(LineFault::Field),
        }
    }

    /// Takes the first piece, as a field that is a number below 2^32.
    pub fn number_field(&mut self) -> Result<u32, LineFault>
        ensures value { result ≡ number_field self.old }
        ensures rest { self.new ≡ drop 1 self.old }
    {
        match self.number(1 << 32) {
            Some(n) => Ok(n as u32),
            None => Err(LineFault::Field),
        }
    }

    /// Takes the first piece, as a field that is an actor.
    #[inline(always)]
    pub fn actor_field(&mut self) -> Result<ActorId, LineFault>
        ensures value { result ≡ actor_field self.old }
        ensures rest { self.new ≡ drop 1 self.old }
    {
        match self.actor() {
            Some(actor) => Ok(actor),
            None => Err(LineFault::Field),
        }
    }

    /// Takes the first two pieces, as this text and a number below 2^32.
    pub fn named_number(&mut self, text: &[u8]) -> Result<u32, LineFault>
        ensures value { result ≡ named_number text.now self.old }
        ensures rest { OnOk result (self.new ≡ drop 2 self.old) }
    {
        self.name_field(text)?;
        self.number_field()
    }

    /// Nothing is left, or else there is a word too much.
    pub fn ended(&self) -> Result<(), LineFault>
        ensures { result ≡ ended self.now }
    {
        match self.end() {
            Some(()) => Ok(()),
            None => Err(LineFault::Extra),
        }
    }
}

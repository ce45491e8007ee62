//! The words after the first, by the shapes of the forms.
ghost use Rattle.std.specs.Prelude.{◌≡◌, drop, OnOk};
ghost use Rattle.journal_model.specs.Shapes.{cut_fields, end_fields, evidence_fields, link_number, message, one_actor, one_node, stop_fields, stopped_fields, two_actors, two_nodes};
ghost use Rattle.event_lines.specs.Reads.{Reads};

use crate::fault::LineRead;
use crate::pieces::Pieces;
use crgc_ids::{ActorId, NodeId, RefList};
use history_model::Stop;
use journal_model::{CountList, LineFault, NodeList};
use std::alloc::Global;

impl Pieces<'_> {
    /// A node, and nothing else.
    pub fn one_node(mut self) -> Result<NodeId, LineFault>
        ensures { result ≡ one_node self.entry }
    {
        let node = self.node_field()?;
        self.ended()?;
        Ok(node)
    }

    /// An actor, and nothing else.
    #[inline(always)]
    pub fn one_actor(mut self) -> Result<ActorId, LineFault>
        ensures { result ≡ one_actor self.entry }
    {
        let actor = self.actor_field()?;
        self.ended()?;
        Ok(actor)
    }

    /// Two nodes, and nothing else.
    pub fn two_nodes(mut self) -> Result<(NodeId, NodeId), LineFault>
        ensures { result ≡ two_nodes self.entry }
    {
        let first = self.node_field()?;
        let second = self.node_field()?;
        self.ended()?;
        Ok((first, second))
    }

    /// Two actors, and nothing else.
    pub fn two_actors(mut self) -> Result<(ActorId, ActorId), LineFault>
        ensures { result ≡ two_actors self.entry }
    {
        let first = self.actor_field()?;
        let second = self.actor_field()?;
        self.ended()?;
        Ok((first, second))
    }

    /// Two nodes and a number, and nothing else.
    pub fn link_number(mut self) -> Result<(NodeId, NodeId, u32), LineFault>
        ensures { result ≡ link_number self.entry }
    {
        let first = self.node_field()?;
        let second = self.node_field()?;
        let number = self.number_field()?;
        self.ended()?;
        Ok((first, second, number))
    }

    /// Two numbers, each after its name, and nothing else.
    pub fn end_fields(mut self) -> Result<(u32, u32), LineFault>
        ensures { result ≡ end_fields self.entry }
    {
        let events = self.named_number(b"events")?;
        let stopped = self.named_number(b"stopped")?;
        self.ended()?;
        Ok((events, stopped))
    }

    /// Two actors and at most 16 references, and nothing else.
    pub fn message(mut self, alloc: Global) -> Result<(ActorId, ActorId, RefList), LineRead>
        ensures { Reads result (message self.entry) }
    {
        let from = self.actor_field()?;
        let to = self.actor_field()?;
        let refs = self.references(alloc)?;
        Ok((from, to, refs))
    }

    /// A node, 1 to 16 numbers, the word `lost`, at most 16 nodes, and nothing else.
    pub fn cut_fields(mut self, alloc: Global) -> Result<(NodeId, CountList, NodeList), LineRead>
        ensures { Reads result (cut_fields self.entry) }
    {
        let node = self.node_field()?;
        let counts = self.counts(alloc)?;
        if counts.len() == 0 {
            return Err(LineRead::Fault(LineFault::Field));
        }
        let lost = self.nodes(alloc)?;
        Ok((node, counts, lost))
    }

    /// Takes what was received, told and admitted: three numbers, each after its name.
    fn evidence_fields(&mut self) -> Result<(u32, u32, u32), LineFault>
        ensures value { result ≡ evidence_fields self.old }
        ensures rest { OnOk result (self.new ≡ drop 6 self.old) }
    {
        let received = self.named_number(b"received")?;
        let told = self.named_number(b"told")?;
        let admitted = self.named_number(b"admitted")?;
        Ok((received, told, admitted))
    }

    /// Takes an actor, and a node after `by`.
    fn stopped_fields(&mut self) -> Result<(ActorId, NodeId), LineFault>
        ensures value { result ≡ stopped_fields self.old }
        ensures rest { OnOk result (self.new ≡ drop 3 self.old) }
    {
        let actor = self.actor_field()?;
        self.name_field(b"by")?;
        let by = self.node_field()?;
        Ok((actor, by))
    }

    /// These two, the three numbers, and any number of actors after `owners`.
    pub fn stop_fields(mut self, alloc: Global) -> Result<(NodeId, Stop), LineRead>
        ensures { Reads result (stop_fields self.entry) }
    {
        let (actor, by) = self.stopped_fields()?;
        let (received, told, admitted) = self.evidence_fields()?;
        self.name_field(b"owners")?;
        let owners = self.owners(alloc)?;
        let stop = Stop {
            actor,
            received: received as u64,
            told: told as u64,
            admitted: admitted as u64,
            owners,
        };
        Ok((by, stop))
    }
}

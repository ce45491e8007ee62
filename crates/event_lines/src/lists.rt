//! Fields of one kind, one after the other.
ghost use Rattle.journal_model.specs.Fields.{actor_of, number_of};
ghost use Rattle.journal_model.specs.Shapes.{all_of, before_lost, up_to};
ghost use Rattle.event_lines.specs.Reads.{Reads, ReadsAs};

use crate::fault::LineRead;
use crate::fields::{actor, node, number};
use crate::pieces::Pieces;
use crgc_ids::{ActorList, RefList};
use journal_model::{CountList, LineFault, NodeList};
use std::alloc::Global;

impl Pieces<'_> {
    /// At most 16 references, and nothing else. Linear time, as all below.
    pub fn references(mut self, alloc: Global) -> Result<RefList, LineRead>
        ensures { Reads result (up_to actor_of 16 self.entry) }
    {
        let mut refs = RefList::new(alloc);
        while let Some(word) = self.next() {
            if refs.len() >= 16 {
                return Err(LineRead::Fault(LineFault::Extra));
            }
            let Some(reference) = actor(word) else {
                return Err(LineRead::Fault(LineFault::Field));
            };
            refs.push(reference)?;
        }
        Ok(refs)
    }

    /// At most 16 nodes, and nothing else.
    pub fn nodes(mut self, alloc: Global) -> Result<NodeList, LineRead>
        ensures { Reads result (up_to (number_of 16) 16 self.entry) }
    {
        let mut nodes = NodeList::new(alloc);
        while let Some(word) = self.next() {
            if nodes.len() >= 16 {
                return Err(LineRead::Fault(LineFault::Extra));
            }
            let Some(node) = node(word) else {
                return Err(LineRead::Fault(LineFault::Field));
            };
            nodes.push(node)?;
        }
        Ok(nodes)
    }

    /// Any number of actors, and nothing else.
    pub fn owners(mut self, alloc: Global) -> Result<ActorList, LineRead>
        ensures { Reads result (all_of actor_of self.entry) }
    {
        let mut owners = ActorList::new(alloc);
        while let Some(word) = self.next() {
            let Some(owner) = actor(word) else {
                return Err(LineRead::Fault(LineFault::Field));
            };
            owners.push(owner)?;
        }
        Ok(owners)
    }

    /// Takes at most 16 numbers and the word `lost` after them.
    pub fn counts(&mut self, alloc: Global) -> Result<CountList, LineRead>
        ensures { ReadsAs (λ counts. (counts, self.new)) result (before_lost 16 self.old) }
    {
        let mut counts = CountList::new(alloc);
        while let Some(word) = self.next() {
            if word == b"lost".as_slice() {
                return Ok(counts);
            }
            if counts.len() >= 16 {
                return Err(LineRead::Fault(LineFault::Field));
            }
            let Some(count) = number(word, 1 << 32) else {
                return Err(LineRead::Fault(LineFault::Field));
            };
            counts.push(count as u32)?;
        }
        Err(LineRead::Fault(LineFault::Field))
    }
}

//! The numbers of edges by the places of owner and target.
ghost use Rattle.std.specs.Prelude.{◌≡◌, [], OnErr, OnOk};
ghost use Rattle.edge_table.specs.Far.{IsFarAdded, IsFarRemoved, far_number};

use crgc_ids::NoMemory;
use std::alloc::Global;
use std::collections::BTreeMap;
use std::marker::Model;

/// The numbers of far edges, which are listed near at neither end, by the places of owner and target: of several between the same
/// places the number of the first. Contracts see the entries of an ordered map.
#[derive(Drop)]
pub struct FarEdges {
    numbers: BTreeMap<(u32, u32), u32>,
}

impl Model for FarEdges {
    ghost use Rattle.std.specs.Prelude.{ℕ, List};

    ghost Value = { List ((ℕ × ℕ) × ℕ) };

    ghost view = { λ f. f.numbers.entries };
}

impl FarEdges {
    /// No edge.
    pub fn new(alloc: Global) -> FarEdges
        ensures { result ≡ [] }
    {
        FarEdges {
            numbers: BTreeMap::new(alloc),
        }
    }

    /// The number of the far edge from the owner's place to the target's. Logarithmic time.
    pub fn number(&self, owner_place: u32, target_place: u32) -> Option<u32>
        ensures { result ≡ far_number self.now owner_place target_place }
    {
        match self.numbers.get(&(owner_place, target_place)) {
            Some(number) => Some(*number),
            None => None,
        }
    }

    /// The edge between these places, which come to have its number if it is far and they have none yet. After `NoMemory` all is as
    /// before. Logarithmic time where it is far, else constant time.
    pub fn push(
        &mut self,
        owner_place: u32,
        target_place: u32,
        number: u32,
        is_far: bool,
    ) -> Result<(), NoMemory>
        ensures ok { OnOk result (IsFarAdded self.old self.new owner_place target_place number is_far) }
        ensures err { OnErr result (self.new ≡ self.old) }
    {
        if !is_far || self.number(owner_place, target_place).is_some() {
            return Ok(());
        }
        let places = (owner_place, target_place);
        if self.numbers.insert(places, number).is_err() {
            return Err(NoMemory);
        }
        Ok(())
    }

    /// The edge with this number is taken away: the places, if they have it, have none from then on. Logarithmic time.
    pub fn remove(&mut self, owner_place: u32, target_place: u32, number: u32)
        ensures { IsFarRemoved self.old self.new owner_place target_place number }
    {
        if self.number(owner_place, target_place) == Some(number) {
            self.numbers.remove(&(owner_place, target_place));
        }
    }
}

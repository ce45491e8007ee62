//! The references of a message.
ghost use Rattle.std.specs.Prelude.{◌≡◌, ◌^◌, ◌<◌, [], ◌∷◌, ◌++◌, length, OnOk, OnErr, IfOk, slice_get};
ghost use Rattle.std.specs.Option.{option_copied};
ghost use Rattle.std.specs.Slice.Iter.{iter_rest};
ghost use Rattle.std.specs.Iterator.Adapters.{IterYieldsInOrder, IterYieldsInReverse};

use crate::NoMemory;
use crate::ids::ActorId;
use std::alloc::Global;
use std::marker::Model;
use std::slice::Iter;

/// What is kept of the references of a message: nothing, one in the value itself, or a block of several.
#[derive(Debug, Drop)]
pub enum Kept {
    Nothing,
    One([ActorId; 1]),
    Several(Box<Vec<ActorId>>),
}

/// The references that a message carries. It keeps its allocator. One of them stands in the value itself, and several in a block, so
/// that an event has room for a mark and a pointer or an actor, and no more. Contracts see the list of the actors.
#[derive(Debug, Drop)]
pub struct RefList {
    kept: Kept,
    alloc: Global,
}

impl Model for RefList {
    ghost use Rattle.std.specs.Prelude.{List};
    ghost use Rattle.crgc_ids.specs.Actor.{Actor};
    ghost use Rattle.crgc_ids.specs.Refs.{actors_in};

    ghost Value = { List Actor };

    ghost view = { λ l. actors_in l.kept };
}

impl RefList {
    /// The empty list.
    pub fn new(alloc: Global) -> RefList
        ensures { result ≡ [] }
    {
        RefList {
            kept: Kept::Nothing,
            alloc,
        }
    }

    /// Puts the actor last; after `NoMemory` the list is as before. Amortized constant time.
    pub fn push(&mut self, actor: ActorId) -> Result<(), NoMemory>
        ensures ok { OnOk result (self.new ≡ self.old ++ actor ∷ []) }
        ensures err { OnErr result (self.new ≡ self.old) }
    {
        match &mut self.kept {
            Kept::Nothing => {
                self.kept = Kept::One([actor]);
                Ok(())
            }
            Kept::One(first) => {
                let both = [first[0], actor];
                self.kept = Kept::Several(block(self.alloc, &both)?);
                Ok(())
            }
            Kept::Several(actors) => match actors.push(actor) {
                Ok(()) => Ok(()),
                Err(_) => Err(NoMemory),
            },
        }
    }

    /// An equal list. Linear time.
    pub fn copy(&self) -> Result<RefList, NoMemory>
        ensures { IfOk result (λ l. l ≡ self.now) }
    {
        let kept = match &self.kept {
            Kept::Nothing => Kept::Nothing,
            Kept::One(actor) => Kept::One(*actor),
            Kept::Several(actors) => Kept::Several(block(self.alloc, actors.as_slice())?),
        };
        Ok(RefList {
            kept,
            alloc: self.alloc,
        })
    }

    /// How many actors it has.
    pub fn len(&self) -> usize
        ensures { result ≡ length self.now }
    {
        self.as_slice().len()
    }

    /// The actor at `i`, from 0; None exactly at the length and above.
    pub fn get(&self, i: usize) -> Option<&ActorId>
        ensures { option_copied result ≡ slice_get self.now i }
    {
        self.as_slice().get(i)
    }

    /// The actors in order.
    pub fn iter(&self) -> Iter<'_, ActorId>
        ensures rest { iter_rest result ≡ self.now }
        ensures len { length (iter_rest result) ≡ length self.now }
        ensures bound { length (iter_rest result) < 2 ^ 64 }
        ensures runs { IterYieldsInOrder ActorId }
        ensures runs_back { IterYieldsInReverse ActorId }
    {
        self.as_slice().iter()
    }

    /// All actors as a slice.
    pub fn as_slice(&self) -> &[ActorId]
        ensures { result.now ≡ self.now }
    {
        match &self.kept {
            Kept::Nothing => &[],
            Kept::One(actor) => actor,
            Kept::Several(actors) => actors.as_slice(),
        }
    }
}

/// A block of these actors.
fn block(alloc: Global, actors: &[ActorId]) -> Result<Box<Vec<ActorId>>, NoMemory>
    ensures { IfOk result (λ b. b.value.items ≡ actors.now) }
{
    let Ok(copy) = Vec::from_slice(alloc, actors) else {
        return Err(NoMemory);
    };
    match Box::new(alloc, copy) {
        Ok(copy) => Ok(copy),
        Err(_) => Err(NoMemory),
    }
}

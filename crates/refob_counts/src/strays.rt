//! Targets and their counts in a map.
ghost use Rattle.std.specs.Prelude.{◌≡◌, ◌+◌, ◌<◌, ◌^◌, OnOk, OnErr};
ghost use Rattle.refob_counts.specs.Counts.{IsCountChange, count_of};

use crgc_ids::{ActorId, NoMemory};
use std::collections::BTreeMap;

/// The count of the target, 0 where the map has none.
pub fn held_in(counts: &BTreeMap<ActorId, u32>, target: ActorId) -> u32
    ensures { result ≡ count_of counts.now.entries target }
{
    match counts.get(&target) {
        Some(count) => *count,
        None => 0,
    }
}

/// The target has so many more from now on. Where it had none yet, which is most often so, the map is searched once.
pub fn add_in(
    counts: &mut BTreeMap<ActorId, u32>,
    target: ActorId,
    count: u32,
) -> Result<(), NoMemory>
    requires { count_of counts.old.entries target + count < 2 ^ 32 }
    ensures ok { OnOk result
        (IsCountChange counts.old.entries counts.new.entries target (count_of counts.old.entries target + count)) }
    ensures err { OnErr result (counts.new.entries ≡ counts.old.entries) }
    ensures absent { OnErr result (count_of counts.old.entries target ≡ 0) }
{
    match counts.insert(target, count) {
        Ok(None) => Ok(()),
        Ok(Some(held)) => {
            // the map has the target, so this takes no memory
            let _ = counts.insert(target, held + count);
            Ok(())
        }
        Err(_) => Err(NoMemory),
    }
}

/// The target has this count from now on.
pub fn set_in(
    counts: &mut BTreeMap<ActorId, u32>,
    target: ActorId,
    count: u32,
) -> Result<(), NoMemory>
    ensures ok { OnOk result (IsCountChange counts.old.entries counts.new.entries target count) }
    ensures err { OnErr result (counts.new.entries ≡ counts.old.entries) }
    ensures absent { OnErr result (count_of counts.old.entries target ≡ 0) }
{
    match counts.insert(target, count) {
        Ok(_) => Ok(()),
        Err(_) => Err(NoMemory),
    }
}

/// The map has the target no longer.
pub fn clear_in(counts: &mut BTreeMap<ActorId, u32>, target: ActorId)
    ensures { IsCountChange counts.old.entries counts.new.entries target 0 }
{
    counts.remove(&target);
}

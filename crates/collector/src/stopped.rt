//! Which actors of a node were stopped: a flag for each serial.
ghost use Rattle.std.specs.Prelude.{◌≡◌, ◌<◌, ℕ, OnErr, OnOk, length};
ghost use Rattle.std.specs.List.{AllByRecursion};
ghost use Rattle.collector.specs.Collected.{flag_at};
ghost use Rattle.collector.specs.Sweeping.{SetsFlags};

use crgc_ids::{ActorId, NoMemory};

/// Whether the flag of the serial is set.
pub fn is_set(flags: &[bool], serial: u32) -> bool
    ensures { result ≡ flag_at flags.now serial }
{
    match flags.get(serial as usize) {
        Some(flag) => *flag,
        None => false,
    }
}

/// There are flags for the serials of the actors; those that are new are not set. After `NoMemory` all is as before.
pub fn make_room(flags: &mut Vec<bool>, actors: &[ActorId]) -> Result<(), NoMemory>
    ensures same { (k : ℕ) → flag_at flags.new.items k ≡ flag_at flags.old.items k }
    ensures room { OnOk result (AllByRecursion (λ a. a.serial < length flags.new.items) actors.now) }
    ensures err { OnErr result (flags.new.items ≡ flags.old.items) }
{
    let end = end_of(actors);
    if end <= flags.len() {
        return Ok(());
    }
    match flags.resize(end, false) {
        Ok(()) => Ok(()),
        Err(_) => Err(NoMemory),
    }
}

/// A number above the serials of the actors. Linear time.
fn end_of(actors: &[ActorId]) -> usize
    ensures { AllByRecursion (λ a. a.serial < result) actors.now }
{
    let mut end = 0;
    for actor in actors {
        end = end.max(actor.serial() as usize + 1);
    }
    end
}

/// The flags of the actors' serials are set. Linear time in the number of actors.
pub fn set_all(flags: &mut Vec<bool>, actors: &[ActorId])
    requires { AllByRecursion (λ a. a.serial < length flags.old.items) actors.now }
    ensures { SetsFlags actors.now flags.old.items flags.new.items }
{
    for actor in actors {
        flags[actor.serial() as usize] = true;
    }
}

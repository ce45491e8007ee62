//! Events.
ghost use Rattle.std.specs.Prelude.{ℕ, ◌≡◌, ◌≢◌, false, if◌then◌else◌, IfOk};
ghost use Rattle.history_model.specs.declared.events.Event.TheVariants as events;
ghost use Rattle.true_config.specs.declared.applied.Told.TheVariants.{Admitted, Born, Discarded, Plain, Taken};
ghost use Rattle.true_config.specs.Applying.{CarriesFew, IsChange, OnDone, UnlessDone, answer_to, is_sweep, telling, told_by_number};
ghost use Rattle.true_config.specs.Promises.{StoppedAreQuiescent};
ghost use Rattle.true_config.specs.Steps.{Adds, MayFollow};

use crate::World;
use crate::applied::{Applied, Told};
use crgc_ids::{ActorId, NoMemory, RefList};
use history_model::Event;

impl World {
    /// An event of any form but a sweep happens, or the answer is what hinders it: the first rule that it breaks, or else the
    /// limit that it would pass. Every stopped actor stays quiescent. After any answer but `Done`, and after `NoMemory`, all is
    /// as before. Logarithmic time in the actors, references, copies and messages that are there, for the event and for each
    /// reference that it carries, on average where an admission is noted; for a flush, a publish, a window and a removal time in
    /// proportion to n log n for the n rows that they tell; for a crash and a removal also linear time in what the node and its
    /// links have.
    #[inline(always)]
    pub fn apply(&mut self, event: &Event) -> Result<Applied, NoMemory>
        requires no_sweep { is_sweep event.now ≡ false }
        requires few { CarriesFew event.now }
        ensures answer { IfOk result (λ x. x ≡ answer_to self.old.cluster event.now self.old.past) }
        ensures done { OnDone result (Adds event.now self.old self.new) }
        ensures unless { UnlessDone result (self.new ≡ self.old) }
        ensures stable { StoppedAreQuiescent self.new }
    {
        let result = self.apply_if_possible(event);
        self.is_lawful();
        result
    }

    /// The event, or what hinders it.
    #[inline(always)]
    fn apply_if_possible(&mut self, event: &Event) -> Result<Applied, NoMemory>
        requires no_sweep { is_sweep event.now ≡ false }
        requires few { CarriesFew event.now }
        ensures answer { IfOk result (λ x. x ≡ answer_to self.old.cluster event.now self.old.past) }
        ensures done { OnDone result (Adds event.now self.old self.new) }
        ensures unless { UnlessDone result (self.new ≡ self.old) }
    {
        if let Event::Publish { node } = event {
            return self.publish_if_possible(*node);
        }
        self.change_if_possible(event)
    }

    /// An event that is no publication either, or what hinders it.
    #[inline(always)]
    fn change_if_possible(&mut self, event: &Event) -> Result<Applied, NoMemory>
        requires no_sweep { is_sweep event.now ≡ false }
        requires no_publish { (n : ℕ) → event.now ≢ events.Publish n }
        requires few { CarriesFew event.now }
        ensures answer { IfOk result (λ x. x ≡ answer_to self.old.cluster event.now self.old.past) }
        ensures done { OnDone result (Adds event.now self.old self.new) }
        ensures unless { UnlessDone result (self.new ≡ self.old) }
    {
        let Ok(hindrance) = self.hindrance(event) else {
            return Err(NoMemory);
        };
        if let Some(answer) = hindrance {
            return Ok(answer);
        }
        match self.change(event) {
            Ok(told) => Ok(Applied::Done(told)),
            Err(_) => Err(NoMemory),
        }
    }

    /// The event happens, which nothing hinders.
    #[inline(always)]
    fn change(&mut self, event: &Event) -> Result<Told, NoMemory>
        requires may { MayFollow event.now self.old }
        requires no_sweep { is_sweep event.now ≡ false }
        requires no_publish { (n : ℕ) → event.now ≢ events.Publish n }
        requires few { CarriesFew event.now }
        ensures { IsChange event.now self.old self.new result }
    {
        match event {
            Event::Seed { node } => born(self.seed(*node)),
            Event::Tie { owner, target } => plain(self.tie(*owner, *target)),
            Event::Wake { actor } => plain(self.wake(*actor)),
            Event::Take { actor } => taken(self.take(*actor)),
            Event::Spawn { parent } => born(self.spawn(*parent)),
            Event::Send { from, to, refs } => sent(self.send(*from, *to, refs)),
            Event::Drop { actor, target } => plain(self.drop_reference(*actor, *target)),
            Event::Retire { actor } => plain(self.retire(*actor)),
            Event::Rest { actor } => plain(self.rest(*actor)),
            Event::Flush { actor } => plain(self.flush(*actor)),
            Event::Publish { .. } => unreachable!(),
            Event::Window { at, from } => plain(self.window(*at, *from)),
            Event::Admit { from, at, number } => came(self.admit(*from, *at, *number)),
            Event::Lose { from, at, number } => plain(self.lose(*from, *at, *number)),
            Event::Repeat { from, at, number } => plain(self.repeat(*from, *at, *number)),
            Event::Crash { node } => plain(self.crash(*node)),
            Event::Remove { at, gone } => plain(self.remove(*at, *gone)),
            Event::Hand { to, origin, number } => plain(self.hand(*to, *origin, *number)),
            Event::Sweep { .. } => unreachable!(),
        }
    }
}

/// What an event tells that has no answer.
fn plain(done: Result<(), NoMemory>) -> Result<Told, NoMemory>
    ensures { result ≡ telling (λ _. Plain) done }
{
    match done {
        Ok(()) => Ok(Told::Plain),
        Err(_) => Err(NoMemory),
    }
}

/// What a birth tells.
fn born(actor: Result<ActorId, NoMemory>) -> Result<Told, NoMemory>
    ensures { result ≡ telling (λ a. Born a) actor }
{
    match actor {
        Ok(actor) => Ok(Told::Born(actor)),
        Err(_) => Err(NoMemory),
    }
}

/// What a take tells.
fn taken(refs: Result<RefList, NoMemory>) -> Result<Told, NoMemory>
    ensures { result ≡ telling (λ refs. Taken refs) refs }
{
    match refs {
        Ok(refs) => Ok(Told::Taken(refs)),
        Err(_) => Err(NoMemory),
    }
}

/// What a send tells.
fn sent(number: Result<Option<u32>, NoMemory>) -> Result<Told, NoMemory>
    ensures { result ≡ telling told_by_number number }
{
    match number {
        Ok(Some(number)) => Ok(Told::Number(number)),
        Ok(None) => Ok(Told::Local),
        Err(_) => Err(NoMemory),
    }
}

/// What an admission tells, by whether the copy was the first.
fn came(first: Result<bool, NoMemory>) -> Result<Told, NoMemory>
    ensures { result ≡ telling (λ first. if first then Admitted else Discarded) first }
{
    match first {
        Ok(true) => Ok(Told::Admitted),
        Ok(false) => Ok(Told::Discarded),
        Err(_) => Err(NoMemory),
    }
}

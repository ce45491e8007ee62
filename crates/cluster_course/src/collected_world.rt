//! A world with its collectors.
ghost use Rattle.std.specs.Prelude.{◌≡◌, ◌<◌, ◌≤◌, ◌∷◌, [], true, false, drop, reverse, slice_get, Some, IfOk, IfErr, IfSome, OnErr, OnOk, MatchOption, vec_capacity, vec_len};
ghost use Rattle.history_model.specs.declared.events.Event.TheVariants as events;
ghost use Rattle.history_model.specs.Legal.{IsLegal};
ghost use Rattle.history_model.specs.State.{is_up};
ghost use Rattle.history_model.specs.Sweeps.{IsVerdict};
ghost use Rattle.journal_model.specs.Report.{stopped_total};
ghost use Rattle.journal_model.specs.Verdicts.{AreVerdicts};
ghost use Rattle.run_model.specs.Schedule.{IsWithinLimits};
ghost use Rattle.node_collectors.specs.Standing.{AreCollectorsAt, is_of_collector};
ghost use Rattle.node_collectors.specs.Wanted.{IsFirstUnhanded};
ghost use Rattle.true_config.specs.Applying.{CarriesFew, told_of};
ghost use Rattle.true_config.specs.Promises.{IsFoundBySweep};
ghost use Rattle.true_config.specs.Steps.{Adds, MayFollow};
ghost use Rattle.cluster_course.specs.Course.{outcome_of};
ghost use Rattle.cluster_course.specs.Due.{lines_made_due, lines_of_verdict};
ghost use Rattle.cluster_course.specs.Halting.{IsHalt};
ghost use Rattle.cluster_course.specs.Telling.{ends_with_sweep};

use crate::halt::Halt;
use crgc_ids::{NoMemory, NodeId};
use evidence_report::stopped_by_all;
use history_model::{Event, History, Verdict};
use node_collectors::NodeCollectors;
use std::alloc::Global;
use std::marker::Model;
use true_config::{Applied, Told, World};

/// A world with the collectors of its nodes and the verdicts of its sweeps, all of them or the last one alone: that of a sweep after which
/// nothing else happened. Contracts see the history. The collectors are given up where memory runs out in the midst of a hand or a
/// sweep: then each later hand and sweep, and what is wanted, is answered by `NoMemory`.
#[derive(Drop)]
pub(crate) struct CollectedWorld {
    world: World,
    collectors: Option<NodeCollectors>,
    verdicts: Vec<Verdict>,
    keeps_all: bool,
    stopped: u64,
}

impl Model for CollectedWorld {
    ghost use Rattle.history_model.specs.Story.{Story};
    ghost use Rattle.cluster_course.specs.Course.{IsCourse};

    ghost Value = { Story };

    ghost view = { λ c. c.world };

    ghost invariant = { λ c. IsCourse c.world c.collectors c.keeps_all c.verdicts.items c.stopped };
}

impl CollectedWorld {
    /// A world without events, and collectors that took nothing; all verdicts will be kept, or the last one.
    pub(crate) fn begin(
        alloc: Global,
        world: World,
        keeps_all: bool,
    ) -> Result<CollectedWorld, NoMemory>
        requires { world.past ≡ [] }
        ensures { IfOk result (λ c. c ≡ world) }
    {
        let nodes = world.nodes();
        Ok(CollectedWorld {
            world,
            collectors: Some(NodeCollectors::new(alloc, nodes)?),
            verdicts: Vec::new(alloc),
            keeps_all,
            stopped: 0,
        })
    }

    /// A world of which others made the history, with the collectors of its nodes and the verdicts of its sweeps, the oldest first; all
    /// verdicts are kept. Linear in the verdicts.
    pub(crate) fn of(
        world: World,
        collectors: NodeCollectors,
        verdicts: Vec<Verdict>,
    ) -> CollectedWorld
        requires within { IsWithinLimits world.cluster world.past }
        requires collectors { AreCollectorsAt world.cluster world.past collectors }
        requires verdicts { AreVerdicts world.cluster world.past (reverse verdicts.items) }
        ensures { result ≡ world }
    {
        // No more actors are stopped than there are events.
        world.is_lawful();
        let _events = world.len();
        let stopped = stopped_by_all(verdicts.as_slice());
        CollectedWorld {
            world,
            collectors: Some(collectors),
            verdicts,
            keeps_all: true,
            stopped,
        }
    }

    /// The event happens, and what it tells is the answer; or the answer is what hinders it: the first rule that it breaks, or
    /// else the limit that it would pass; then the history is as before. An event in the time that the world takes for it, a hand
    /// and a sweep also in that of their node's collector.
    #[inline(always)]
    pub(crate) fn follow(&mut self, event: Event) -> Result<Told, Halt>
        requires few { CarriesFew event }
        ensures told { IfOk result (λ told. told ≡ told_of event self.old.past) }
        ensures ok { OnOk result (Adds event self.old self.new) }
        ensures may { OnOk result (MayFollow event self.old) }
        ensures halt { IfErr result (λ h. IsHalt h event self.old) }
        ensures err { OnErr result (self.new ≡ self.old) }
    {
        match event {
            Event::Hand { to, origin, number } => self.hand(to, origin, number),
            Event::Sweep { node } => self.sweep(node),
            event => self.happen(event),
        }
    }

    /// An event happens that is neither a hand nor a sweep.
    #[inline(always)]
    fn happen(&mut self, event: Event) -> Result<Told, Halt>
        requires other { is_of_collector event ≡ false }
        requires few { CarriesFew event }
        ensures told { IfOk result (λ told. told ≡ told_of event self.old.past) }
        ensures ok { OnOk result (Adds event self.old self.new) }
        ensures may { OnOk result (MayFollow event self.old) }
        ensures halt { IfErr result (λ h. IsHalt h event self.old) }
        ensures err { OnErr result (self.new ≡ self.old) }
    {
        match was_done(self.world.apply(&event)) {
            Ok(told) => {
                forget(&mut self.verdicts, self.keeps_all);
                Ok(told)
            }
            Err(halt) => Err(halt),
        }
    }

    /// A bulletin is handed to a node, and its collector takes it.
    fn hand(&mut self, to: NodeId, origin: NodeId, number: u32) -> Result<Told, Halt>
        ensures told { IfOk result (λ told. told ≡ told_of (events.Hand to origin number) self.old.past) }
        ensures ok { OnOk result (Adds (events.Hand to origin number) self.old self.new) }
        ensures may { OnOk result (MayFollow (events.Hand to origin number) self.old) }
        ensures halt { IfErr result (λ h. IsHalt h (events.Hand to origin number) self.old) }
        ensures err { OnErr result (self.new ≡ self.old) }
    {
        if self.collectors.is_none() {
            return Err(Halt::NoMemory);
        }
        match was_done(self.world.apply(&Event::Hand { to, origin, number })) {
            Ok(told) => {
                take_in(&mut self.collectors, &mut self.world, to, origin, number);
                forget(&mut self.verdicts, self.keeps_all);
                Ok(told)
            }
            Err(halt) => Err(halt),
        }
    }

    /// A node sweeps, with the verdict that its collector finds.
    fn sweep(&mut self, node: NodeId) -> Result<Told, Halt>
        ensures told { IfOk result (λ told. told ≡ told_of (events.Sweep node) self.old.past) }
        ensures ok { OnOk result (Adds (events.Sweep node) self.old self.new) }
        ensures may { OnOk result (MayFollow (events.Sweep node) self.old) }
        ensures halt { IfErr result (λ h. IsHalt h (events.Sweep node) self.old) }
        ensures err { OnErr result (self.new ≡ self.old) }
    {
        match may_sweep(&self.world, node) {
            Ok(()) => {}
            Err(halt) => return Err(halt),
        }
        if self.verdicts.reserve(1).is_err() {
            return Err(Halt::NoMemory);
        }
        let verdict = verdict_of(&mut self.collectors, &self.world, node)?;
        let told = match was_done(self.world.sweep(&verdict)) {
            Ok(told) => told,
            Err(halt) => {
                self.collectors = None;
                return Err(halt);
            }
        };
        // No more actors are stopped than there are events.
        self.world.is_lawful();
        let _events = self.world.len();
        self.stopped += verdict.stops.len() as u64;
        forget(&mut self.verdicts, self.keeps_all);
        self.verdicts.push_reserved(verdict);
        Ok(told)
    }

    /// The history is always legal, and none of its events passed a limit. It does nothing: its contract is the law.
    pub(crate) fn is_lawful(&self)
        ensures legal { IsLegal self.now.cluster self.now.past }
        ensures within { IsWithinLimits self.now.cluster self.now.past }
    {
        self.world.is_lawful();
    }

    /// The world, in which the history is. Constant time.
    pub(crate) fn world(&self) -> &World
        ensures { result.now ≡ self.now }
    {
        &self.world
    }

    /// The record of the history, without the rest; None where none is kept. Constant time.
    pub(crate) fn into_history(self) -> Option<History>
        ensures { IfSome result (λ h. h ≡ self) }
    {
        self.world.into_history()
    }

    /// The first number, from 0 on, under which no bulletin of the origin was handed to the node, which is up. `NoMemory` comes
    /// only where memory ran out at a hand or a sweep before, or the report was made. Logarithmic time in the number of bulletins
    /// that wait there, for each that waits and may be folded next.
    pub(crate) fn wants(&self, to: NodeId, origin: NodeId) -> Result<u32, NoMemory>
        requires to { to < self.now.cluster.nodes }
        requires origin { origin < self.now.cluster.nodes }
        requires up { is_up to self.now.past ≡ true }
        ensures { IfOk result (IsFirstUnhanded to origin self.now.past) }
    {
        match &self.collectors {
            Some(collectors) => Ok(collectors.wants(to, origin)),
            None => Err(NoMemory),
        }
    }

    /// How many actors were stopped. Constant time.
    pub(crate) fn stopped(&self) -> u64
        ensures { result ≡ stopped_total self.now.cluster self.now.past }
    {
        self.stopped
    }

    /// The verdicts of the sweeps, the oldest first; None where they are not kept. Constant time.
    pub(crate) fn verdicts(&self) -> Option<&[Verdict]>
        ensures { IfSome result (λ verdicts. AreVerdicts self.now.cluster self.now.past (reverse verdicts.now)) }
    {
        if self.keeps_all {
            Some(self.verdicts.as_slice())
        } else {
            None
        }
    }

    /// What the last event found, where it is a sweep; None where it is none, or there is no event. Constant time.
    pub(crate) fn last_verdict(&self, has_swept: bool) -> Option<&Verdict>
        requires { has_swept ≡ ends_with_sweep self.now.past }
        ensures { MatchOption result (lines_made_due self.now.cluster self.now.past ≡ [])
            (λ v. lines_made_due self.now.cluster self.now.past ≡ lines_of_verdict self.now.cluster.nodes v.now) }
    {
        if !has_swept {
            return None;
        }
        let verdict = self.verdicts.last()?;
        // A cut is known to count all 16 nodes once one of its counts is read.
        let _ = verdict.cut.at(verdict.node);
        let _nodes = self.world.nodes();
        Some(verdict)
    }

    /// The collectors are given up, with their memory, and no hand or sweep can follow.
    pub(crate) fn give_up_collectors(&mut self)
        ensures { self.new ≡ self.old }
    {
        self.collectors = None;
    }
}

/// The verdicts are given up, unless they are to be kept.
#[inline(always)]
fn forget(verdicts: &mut Vec<Verdict>, are_kept: bool)
    ensures kept { are_kept ≡ true → verdicts.new.items ≡ verdicts.old.items }
    ensures len { vec_len verdicts.new ≤ vec_len verdicts.old }
    ensures capacity { vec_capacity verdicts.new ≡ vec_capacity verdicts.old }
    ensures gone { are_kept ≡ false → verdicts.new.items ≡ [] }
{
    if !are_kept && !verdicts.is_empty() {
        verdicts.clear();
    }
}

/// What the event told, if the world did what it was asked.
fn was_done(applied: Result<Applied, NoMemory>) -> Result<Told, Halt>
    ensures { result ≡ outcome_of applied }
{
    match applied {
        Ok(Applied::Done(told)) => Ok(told),
        Ok(Applied::Illegal(rule)) => Err(Halt::Rule(rule)),
        Ok(Applied::Limit(which)) => Err(Halt::Limit(which)),
        Err(_) => Err(Halt::NoMemory),
    }
}

/// The collector of a node takes the bulletin that the world's last event hands to it; where memory runs out, the collectors are
/// given up. The bulletin's spelling is kept until the last node's collector takes it.
fn take_in(
    collectors: &mut Option<NodeCollectors>,
    world: &mut World,
    to: NodeId,
    origin: NodeId,
    number: u32,
)
    requires last { slice_get world.old.past 0 ≡ Some (events.Hand to origin number) }
    requires stand { IfSome collectors.old (AreCollectorsAt world.old.cluster (drop 1 world.old.past)) }
    ensures world { world.new ≡ world.old }
    ensures collectors { IfSome collectors.new (AreCollectorsAt world.old.cluster world.old.past) }
{
    let Some(rows) = collectors else {
        return;
    };
    let others_want = rows.others_want(to, origin, number);
    keep_if(others_want, world, origin, number);
    let handed = rows.hand(world, to, origin, number);
    forget_if(!others_want, world, origin, number);
    if handed.is_err() {
        *collectors = None;
    }
}

/// The bulletin's spelling is kept from now on, if it is to be.
fn keep_if(is_wanted: bool, world: &mut World, origin: NodeId, number: u32)
    ensures { world.new ≡ world.old }
{
    if is_wanted {
        world.keep_spelling(origin, number);
    }
}

/// The bulletin's spelling is kept no longer, if it need not be.
fn forget_if(is_done: bool, world: &mut World, origin: NodeId, number: u32)
    ensures { world.new ≡ world.old }
{
    if is_done {
        world.forget_spelling(origin, number);
    }
}

/// What hinders the sweep of a node, if anything does.
fn may_sweep(world: &World, node: NodeId) -> Result<(), Halt>
    ensures ok { OnOk result (MayFollow (events.Sweep node) world.now) }
    ensures halt { IfErr result (λ h. IsHalt h (events.Sweep node) world.now) }
{
    let event = Event::Sweep { node };
    if let Some(rule) = world.refusal(&event) {
        return Err(Halt::Rule(rule));
    }
    match world.limit(&event)? {
        Some(which) => Err(Halt::Limit(which)),
        None => Ok(()),
    }
}

/// The verdict of a sweep by the node, which is up; then its collector stands at the history with that sweep.
fn verdict_of(
    collectors: &mut Option<NodeCollectors>,
    world: &World,
    node: NodeId,
) -> Result<Verdict, NoMemory>
    requires node { node < world.now.cluster.nodes }
    requires up { is_up node world.now.past ≡ true }
    requires stand { IfSome collectors.old (AreCollectorsAt world.now.cluster world.now.past) }
    ensures verdict { IfOk result (IsVerdict world.now.cluster node world.now.past) }
    ensures found { IfOk result (IsFoundBySweep world.now) }
    ensures ok { OnOk result (IfSome collectors.new (AreCollectorsAt world.now.cluster (events.Sweep node ∷ world.now.past))) }
    ensures err { OnErr result (collectors.new ≡ collectors.old) }
{
    match collectors {
        Some(rows) => rows.sweep(world, node),
        None => Err(NoMemory),
    }
}

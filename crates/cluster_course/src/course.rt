//! A history as it goes on, with its report.
ghost use Rattle.std.specs.Prelude.{◌≡◌, ◌<◌, ◌≤◌, ◌++◌, [], length, take, true, reverse, IfOk, IfErr, IfSome, OnErr, OnOk, MatchOption};
ghost use Rattle.history_model.specs.Legal.{IsLegal};
ghost use Rattle.history_model.specs.State.{is_up};
ghost use Rattle.journal_model.specs.Lines.{event_line, line_of, text_of};
ghost use Rattle.journal_model.specs.Report.{report_of, stopped_total};
ghost use Rattle.journal_model.specs.Verdicts.{AreVerdicts, report_text};
ghost use Rattle.run_model.specs.Schedule.{IsWithinLimits};
ghost use Rattle.node_collectors.specs.Standing.{AreCollectorsAt};
ghost use Rattle.node_collectors.specs.Wanted.{IsFirstUnhanded};
ghost use Rattle.true_config.specs.Applying.{CarriesFew, told_of};
ghost use Rattle.true_config.specs.Steps.{Adds, MayFollow};
ghost use Rattle.cluster_course.specs.Due.{lines_made_due, lines_of_verdict};
ghost use Rattle.cluster_course.specs.Halting.{IsHalt};
ghost use Rattle.cluster_course.specs.Telling.{IsTelling, ends_with_sweep};

use crate::collected_world::CollectedWorld;
use crate::halt::Halt;
use crate::telling::{Telling, is_sweep};
use crgc_ids::{NoMemory, NodeId};
use evidence_report::{brief_report, full_report};
use history_model::{Event, History, Verdict};
use node_collectors::NodeCollectors;
use std::alloc::Global;
use std::marker::Model;
use true_config::{Told, World};

/// A history as it goes on, with the collectors of its nodes and the verdicts of its sweeps; and with the text of its report in full as
/// far as it has come, where one was asked for. Contracts see the history. The collectors are given up where memory runs out in the
/// midst of a hand or a sweep: then each later hand and sweep, and what is wanted, is answered by `NoMemory`.
#[derive(Drop)]
pub struct Course {
    collected: CollectedWorld,
    telling: Option<Telling>,
}

impl Model for Course {
    ghost use Rattle.std.specs.Prelude.{IfSome};
    ghost use Rattle.history_model.specs.Story.{Story};
    ghost use Rattle.cluster_course.specs.Telling.{IsTelling};

    ghost Value = { Story };

    ghost view = { λ c. c.collected };

    ghost invariant = { λ c. IfSome c.telling (λ t. IsTelling c.collected t.has_swept t.text.items) };
}

impl Course {
    /// The empty history of a cluster, of which no record is kept, and no verdicts but the last. The text of its report in full goes on
    /// with it, unless the report is to be in brief.
    pub fn begin(alloc: Global, nodes: u8, version: u8, brief: bool) -> Result<Course, NoMemory>
        requires some_node { 1 ≤ nodes }
        requires nodes { nodes ≤ 16 }
        requires some_version { 1 ≤ version }
        requires version { version ≤ 2 }
        ensures nodes { IfOk result (λ c. c.cluster.nodes ≡ nodes) }
        ensures version { IfOk result (λ c. c.cluster.version ≡ version) }
        ensures past { IfOk result (λ c. c.past ≡ []) }
    {
        let world = World::unrecorded(alloc, nodes, version)?;
        let collected = CollectedWorld::begin(alloc, world, false)?;
        let telling = if brief {
            None
        } else {
            Some(Telling::begin(alloc, nodes, version)?)
        };
        Ok(Course { collected, telling })
    }

    /// The empty history of a cluster, of which a record is kept, and all verdicts.
    pub fn begin_recorded(alloc: Global, nodes: u8, version: u8) -> Result<Course, NoMemory>
        requires some_node { 1 ≤ nodes }
        requires nodes { nodes ≤ 16 }
        requires some_version { 1 ≤ version }
        requires version { version ≤ 2 }
        ensures nodes { IfOk result (λ c. c.cluster.nodes ≡ nodes) }
        ensures version { IfOk result (λ c. c.cluster.version ≡ version) }
        ensures past { IfOk result (λ c. c.past ≡ []) }
    {
        let world = World::new(alloc, nodes, version)?;
        Ok(Course {
            collected: CollectedWorld::begin(alloc, world, true)?,
            telling: None,
        })
    }

    /// The course of the world, whose history others made, with the collectors of its nodes and the verdicts of its sweeps, the oldest
    /// first. Linear in the verdicts.
    pub fn of(world: World, collectors: NodeCollectors, verdicts: Vec<Verdict>) -> Course
        requires within { IsWithinLimits world.cluster world.past }
        requires collectors { AreCollectorsAt world.cluster world.past collectors }
        requires verdicts { AreVerdicts world.cluster world.past (reverse verdicts.items) }
        ensures { result ≡ world }
    {
        Course {
            collected: CollectedWorld::of(world, collectors, verdicts),
            telling: None,
        }
    }

    /// The event happens, and what it tells is the answer; or the answer is what hinders it: the first rule that it breaks, or
    /// else the limit that it would pass; then the history is as before. An event in the time that the world takes for it, a hand
    /// and a sweep also in that of their node's collector.
    #[inline(always)]
    pub fn follow(&mut self, event: Event) -> Result<Told, Halt>
        requires few { CarriesFew event }
        ensures told { IfOk result (λ told. told ≡ told_of event self.old.past) }
        ensures ok { OnOk result (Adds event self.old self.new) }
        ensures may { OnOk result (MayFollow event self.old) }
        ensures halt { IfErr result (λ h. IsHalt h event self.old) }
        ensures err { OnErr result (self.new ≡ self.old) }
    {
        match &mut self.telling {
            Some(telling) => {
                let start = telling.add_event(&self.collected, &event)?;
                happen(&mut self.collected, telling, event, start)
            }
            None => self.collected.follow(event),
        }
    }

    /// The event whose line this is happens, as by `follow`; the line goes into the report as it is.
    #[inline(always)]
    pub fn follow_line(&mut self, event: Event, line: &[u8]) -> Result<Told, Halt>
        requires few { CarriesFew event }
        requires line { line.now ≡ event_line event }
        ensures told { IfOk result (λ told. told ≡ told_of event self.old.past) }
        ensures ok { OnOk result (Adds event self.old self.new) }
        ensures may { OnOk result (MayFollow event self.old) }
        ensures halt { IfErr result (λ h. IsHalt h event self.old) }
        ensures err { OnErr result (self.new ≡ self.old) }
    {
        match &mut self.telling {
            Some(telling) => {
                let start = telling.add_line(&self.collected, line)?;
                happen(&mut self.collected, telling, event, start)
            }
            None => self.collected.follow(event),
        }
    }

    /// The history is always legal, and none of its events passed a limit. It does nothing: its contract is the law.
    pub fn is_lawful(&self)
        ensures legal { IsLegal self.now.cluster self.now.past }
        ensures within { IsWithinLimits self.now.cluster self.now.past }
    {
        self.collected.is_lawful();
    }

    /// The world, in which the history is. Constant time.
    pub fn world(&self) -> &World
        ensures { result.now ≡ self.now }
    {
        self.collected.world()
    }

    /// The record of the history, without the rest; None where none is kept. Constant time.
    pub fn into_history(self) -> Option<History>
        ensures { IfSome result (λ h. h ≡ self) }
    {
        self.collected.into_history()
    }

    /// The first number, from 0 on, under which no bulletin of the origin was handed to the node, which is up. `NoMemory` comes
    /// only where memory ran out at a hand or a sweep before, or the report was made. Logarithmic time in the number of bulletins
    /// that wait there, for each that waits and may be folded next.
    pub fn wants(&self, to: NodeId, origin: NodeId) -> Result<u32, NoMemory>
        requires to { to < self.now.cluster.nodes }
        requires origin { origin < self.now.cluster.nodes }
        requires up { is_up to self.now.past ≡ true }
        ensures { IfOk result (IsFirstUnhanded to origin self.now.past) }
    {
        self.collected.wants(to, origin)
    }

    /// The number of nodes, 1 to 16. Constant time.
    pub fn nodes(&self) -> u8
        ensures nodes { result ≡ self.now.cluster.nodes }
        ensures some { 1 ≤ result }
        ensures at_most { result ≤ 16 }
    {
        self.collected.world().nodes()
    }

    /// How many events the history has. Constant time.
    pub fn len(&self) -> u64
        ensures { result ≡ length self.now.past }
    {
        self.collected.world().len() as u64
    }

    /// How many actors were stopped. Constant time.
    pub fn stopped(&self) -> u64
        ensures { result ≡ stopped_total self.now.cluster self.now.past }
    {
        self.collected.stopped()
    }

    /// The verdicts of the sweeps, the oldest first; None where they are not kept. Constant time.
    pub fn verdicts(&self) -> Option<&[Verdict]>
        ensures { IfSome result (λ verdicts. AreVerdicts self.now.cluster self.now.past (reverse verdicts.now)) }
    {
        self.collected.verdicts()
    }

    /// What the last event found, where it is a sweep; None where it is none, or there is no event. Constant time.
    pub fn last_verdict(&self, has_swept: bool) -> Option<&Verdict>
        requires { has_swept ≡ ends_with_sweep self.now.past }
        ensures { MatchOption result (lines_made_due self.now.cluster self.now.past ≡ [])
            (λ v. lines_made_due self.now.cluster self.now.past ≡ lines_of_verdict self.now.cluster.nodes v.now) }
    {
        self.collected.last_verdict(has_swept)
    }

    /// The report, in brief or in full. `NoMemory` comes too where it is to be in full, and neither its text went on with the history
    /// nor a record is kept of the events. The collectors are given up for it, so that it may have their memory, and no hand or sweep
    /// can follow it. A report in brief takes constant time, and one in full whose text went on is linear in the lines of the last verdict;
    /// any other is linear in the events, the verdicts and the text.
    pub fn report(&mut self, alloc: Global, brief: bool) -> Result<Vec<u8>, NoMemory>
        ensures text { IfOk result (λ text. text.items ≡ report_text self.old.cluster self.old.past brief) }
        ensures legal { IsLegal self.old.cluster self.old.past }
        ensures kept { self.new ≡ self.old }
    {
        self.collected.is_lawful();
        self.collected.give_up_collectors();
        if brief {
            return brief_report(alloc, self.collected.world());
        }
        match self.telling.take() {
            Some(telling) => self.finish(telling),
            None => recorded_report(alloc, &self.collected),
        }
    }

    /// The report in full, of which this is the text so far.
    fn finish(&mut self, telling: Telling) -> Result<Vec<u8>, NoMemory>
        requires { IsTelling self.old telling.has_swept telling.text.items }
        ensures text { IfOk result (λ text. text.items ≡ report_of self.old.cluster self.old.past) }
        ensures kept { self.new ≡ self.old }
    {
        let mut telling = telling;
        match telling.finish(&self.collected) {
            Ok(()) => Ok(telling.text),
            Err(NoMemory) => {
                self.telling = Some(telling);
                Err(NoMemory)
            }
        }
    }
}

/// The event happens, as by `follow`. Its line stands in the text behind the first so many bytes, and is taken back where it does not
/// happen.
#[inline(always)]
fn happen(
    collected: &mut CollectedWorld,
    telling: &mut Telling,
    event: Event,
    start: usize,
) -> Result<Told, Halt>
    requires few { CarriesFew event }
    requires telling { IsTelling collected.old telling.old.has_swept (take start telling.old.text.items) }
    requires line { telling.old.text.items ≡ take start telling.old.text.items
        ++ (text_of (lines_made_due collected.old.cluster collected.old.past) ++ line_of (event_line event)) }
    ensures told { IfOk result (λ told. told ≡ told_of event collected.old.past) }
    ensures ok { OnOk result (Adds event collected.old collected.new) }
    ensures may { OnOk result (MayFollow event collected.old) }
    ensures halt { IfErr result (λ h. IsHalt h event collected.old) }
    ensures err { OnErr result (collected.new ≡ collected.old) }
    ensures telling { IsTelling collected.new telling.new.has_swept telling.new.text.items }
{
    let has_swept = is_sweep(&event);
    match collected.follow(event) {
        Ok(told) => {
            telling.has_swept = has_swept;
            Ok(told)
        }
        Err(halt) => {
            telling.text.truncate(start);
            Err(halt)
        }
    }
}

/// The report in full from the record of the history and the verdicts, if they are kept.
fn recorded_report(alloc: Global, collected: &CollectedWorld) -> Result<Vec<u8>, NoMemory>
    ensures { IfOk result (λ text. text.items ≡ report_of collected.now.cluster collected.now.past) }
{
    collected.is_lawful();
    let Some(history) = collected.world().history() else {
        return Err(NoMemory);
    };
    match collected.verdicts() {
        Some(verdicts) => full_report(alloc, history, verdicts),
        None => Err(NoMemory),
    }
}

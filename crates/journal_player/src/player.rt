//! Following a journal line by line.
ghost use Rattle.std.specs.Prelude.{◌≡◌, ◌≤◌, ◌<◌, ◌+◌, ◌^◌, slice_get, Ok, IfOk, IfErr, IfSome, OnOk};
ghost use Rattle.history_model.specs.Legal.{IsLegal};
ghost use Rattle.journal_model.specs.Journals.{after_counts, after_event, after_line, after_said, after_told};
ghost use Rattle.journal_model.specs.Lines.{event_line};
ghost use Rattle.journal_model.specs.Reading.{read_line};
ghost use Rattle.journal_model.specs.Verdicts.{report_text};
ghost use Rattle.run_model.specs.Schedule.{IsWithinLimits};
ghost use Rattle.true_config.specs.Applying.{CarriesFew, is_sweep};
ghost use Rattle.cluster_course.specs.Due.{lines_made_due};
ghost use Rattle.cluster_course.specs.Telling.{ends_with_sweep};
ghost use Rattle.journal_player.specs.Faults.{IsHalt};
ghost use Rattle.journal_player.specs.Following.{start};
ghost use Rattle.journal_player.specs.Hearing.{LineCarriesFew};

use crate::due::verdict_line;
use crate::fault::{Cause, Halt};
use cluster_course::{Course, is_sweep};
use crgc_ids::{NoMemory, Octets};
use event_lines::{LineRead, read};
use history_model::Event;
use journal_model::Line;
use std::alloc::Global;
use std::marker::Model;

/// What the lines tell that were read so far. Contracts see the events, the lines that are due, and whether an end line came.
#[derive(Drop)]
pub struct Player {
    course: Course,
    has_swept: bool,
    told: usize,
    ended: bool,
}

impl Model for Player {
    ghost use Rattle.std.specs.Prelude.{◌≡◌};
    ghost use Rattle.cluster_course.specs.Telling.{ends_with_sweep};
    ghost use Rattle.journal_player.specs.Following.{Following, following};

    ghost Value = { Following };

    ghost view = { λ p. following p.course p.told p.ended };

    ghost invariant = { λ p. p.has_swept ≡ ends_with_sweep p.course.past };
}

impl Player {
    /// Before the first event, for a report in brief or in full.
    pub(crate) fn begin(
        alloc: Global,
        nodes: u8,
        version: u8,
        brief: bool,
    ) -> Result<Player, NoMemory>
        requires some_node { 1 ≤ nodes }
        requires nodes { nodes ≤ 16 }
        requires some_version { 1 ≤ version }
        requires version { version ≤ 2 }
        ensures nodes { IfOk result (λ p. p.cluster.nodes ≡ nodes) }
        ensures version { IfOk result (λ p. p.cluster.version ≡ version) }
        ensures replay { IfOk result (λ p. p.replay ≡ start) }
    {
        Ok(Player {
            course: Course::begin(alloc, nodes, version, brief)?,
            has_swept: false,
            told: 0,
            ended: false,
        })
    }

    /// The next line is followed, or the answer is its fault. An event in the time that the world and the
    /// collectors take for it, any other line in linear time, and an end line in constant time.
    pub(crate) fn follow(&mut self, alloc: Global, line: &[u8]) -> Result<(), Halt>
        ensures cluster { self.new.cluster ≡ self.old.cluster }
        ensures ok { OnOk result (after_line self.old.cluster self.old.replay line.now ≡ Ok self.new.replay) }
        ensures halt { IfErr result (λ h. IsHalt h (after_line self.old.cluster self.old.replay line.now)) }
    {
        let said = match read(alloc, line) {
            Ok(said) => said,
            Err(LineRead::Fault(fault)) => return Err(Halt::Cause(Cause::from(fault))),
            Err(LineRead::NoMemory) => return Err(Halt::NoMemory),
        };
        if self.ended {
            return Err(Halt::Cause(Cause::AfterEnd));
        }
        self.hear(alloc, line, said)
    }

    /// What the next line says is followed.
    fn hear(&mut self, alloc: Global, line: &[u8], said: Line) -> Result<(), Halt>
        requires few { LineCarriesFew said }
        requires said { read_line line.now ≡ Ok said }
        ensures cluster { self.new.cluster ≡ self.old.cluster }
        ensures ok { OnOk result (after_said self.old.cluster self.old.replay line.now said ≡ Ok self.new.replay) }
        ensures halt { IfErr result (λ h. IsHalt h (after_said self.old.cluster self.old.replay line.now said)) }
    {
        match said {
            Line::Event(event) => self.happen(event, line),
            Line::Cut { .. } => self.repeat(alloc, line),
            Line::Stop { .. } => self.repeat(alloc, line),
            Line::End { events, stopped } => self.end(events, stopped),
        }
    }

    /// The event whose line this is, after which only the lines of its verdict are due.
    fn happen(&mut self, event: Event, line: &[u8]) -> Result<(), Halt>
        requires few { CarriesFew event }
        requires line { line.now ≡ event_line event }
        ensures cluster { self.new.cluster ≡ self.old.cluster }
        ensures ok { OnOk result (after_event self.old.cluster self.old.replay event ≡ Ok self.new.replay) }
        ensures halt { IfErr result (λ h. IsHalt h (after_event self.old.cluster self.old.replay event)) }
    {
        let has_swept = is_sweep(&event);
        match self.course.follow_line(event, line) {
            Ok(_) => {
                self.has_swept = has_swept;
                self.told = 0;
                self.ended = false;
                Ok(())
            }
            Err(halt) => Err(Halt::from(halt)),
        }
    }

    /// A line that is the one that is due.
    fn repeat(&mut self, alloc: Global, line: &[u8]) -> Result<(), Halt>
        ensures cluster { self.new.cluster ≡ self.old.cluster }
        ensures ok { OnOk result (after_told self.old.replay self.old.replay.due line.now ≡ Ok self.new.replay) }
        ensures halt { IfErr result (λ h. IsHalt h (after_told self.old.replay self.old.replay.due line.now)) }
    {
        let Some(due) = due_line(alloc, &self.course, self.has_swept, self.told)? else {
            return Err(Halt::Cause(Cause::Differs));
        };
        if due.as_slice() == line {
            self.told += 1;
            return Ok(());
        }
        Err(Halt::Cause(Cause::Differs))
    }

    /// An end line that has the counts so far.
    fn end(&mut self, events: u32, stopped: u32) -> Result<(), Halt>
        ensures cluster { self.new.cluster ≡ self.old.cluster }
        ensures ok { OnOk result (after_counts self.old.cluster self.old.replay events stopped ≡ Ok self.new.replay) }
        ensures halt { IfErr result (λ h. IsHalt h (after_counts self.old.cluster self.old.replay events stopped)) }
    {
        if events as u64 != self.course.len() || stopped as u64 != self.course.stopped() {
            return Err(Halt::Cause(Cause::Differs));
        }
        self.ended = true;
        Ok(())
    }

    /// The report, in brief or in full, after which no hand or sweep can follow. `NoMemory` comes too where it is to be in full and
    /// the player began for one in brief. One in brief takes constant time, one in full is linear in the lines of the last verdict.
    pub(crate) fn report(&mut self, alloc: Global, brief: bool) -> Result<Vec<u8>, NoMemory>
        ensures text { IfOk result (λ text. text.items ≡ report_text self.old.cluster self.old.replay.past brief) }
        ensures legal { IsLegal self.old.cluster self.old.replay.past }
        ensures within { IsWithinLimits self.old.cluster self.old.replay.past }
        ensures kept { self.new ≡ self.old }
    {
        self.course.is_lawful();
        self.course.report(alloc, brief)
    }
}

/// The line that is due after so many of those that the last event made due; None exactly where none is. Linear in the line.
fn due_line(
    alloc: Global,
    course: &Course,
    has_swept: bool,
    told: usize,
) -> Result<Option<Octets>, NoMemory>
    requires { has_swept ≡ ends_with_sweep course.now.past }
    ensures line { IfOk result (λ line. line ≡ slice_get (lines_made_due course.now.cluster course.now.past) told) }
    ensures room { IfOk result (λ line. IfSome line (λ _. told + 1 < 2 ^ 64)) }
{
    match course.last_verdict(has_swept) {
        Some(verdict) => verdict_line(alloc, course.nodes(), verdict, told),
        None => Ok(None),
    }
}

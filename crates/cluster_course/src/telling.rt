//! A report in full while its history goes on.
ghost use Rattle.std.specs.Prelude.{◌≡◌, ◌++◌, [], length, IfOk, OnErr, OnOk};
ghost use Rattle.history_model.specs.Story.{Story};
ghost use Rattle.journal_model.specs.Lines.{event_line, line_of, text_of};
ghost use Rattle.journal_model.specs.Report.{report_of};
ghost use Rattle.true_config.specs.Applying.{is_sweep};
ghost use Rattle.cluster_course.specs.Due.{lines_made_due};
ghost use Rattle.cluster_course.specs.Telling.{IsTelling, ends_with_sweep};

use crate::collected_world::CollectedWorld;
use crgc_ids::NoMemory;
use event_lines::{append_end, append_event, append_header, append_verdict};
use history_model::Event;
use std::alloc::Global;

/// The text of a report in full as far as it has come: the lines of the last event's verdict, if it is a sweep, come with what follows.
#[derive(Drop)]
pub(crate) struct Telling {
    pub(crate) text: Vec<u8>,
    pub(crate) has_swept: bool,
}

impl Telling {
    /// Of a history without events.
    pub(crate) fn begin(alloc: Global, nodes: u8, version: u8) -> Result<Telling, NoMemory>
        ensures { IfOk result (λ t. (s : Story) → s.cluster.nodes ≡ nodes → s.cluster.version ≡ version → s.past ≡ []
            → IsTelling s t.has_swept t.text.items) }
    {
        let mut text = Vec::new(alloc);
        append_header(nodes, version, &mut text)?;
        Ok(Telling {
            text,
            has_swept: false,
        })
    }

    /// Appends the lines that are due, and the line of the event that is to follow. How long the text was is the answer; after `NoMemory`
    /// it is as before.
    #[inline(always)]
    pub(crate) fn add_event(
        &mut self,
        collected: &CollectedWorld,
        event: &Event,
    ) -> Result<usize, NoMemory>
        requires { self.old.has_swept ≡ ends_with_sweep collected.now.past }
        ensures start { IfOk result (λ start. start ≡ length self.old.text.items) }
        ensures ok { OnOk result (self.new.text.items ≡ self.old.text.items
            ++ (text_of (lines_made_due collected.now.cluster collected.now.past) ++ line_of (event_line event.now))) }
        ensures err { OnErr result (self.new.text.items ≡ self.old.text.items) }
        ensures swept { self.new.has_swept ≡ self.old.has_swept }
    {
        let start = self.text.len();
        self.add_due(collected)?;
        if append_event(event, &mut self.text).is_err() {
            self.text.truncate(start);
            return Err(NoMemory);
        }
        Ok(start)
    }

    /// The same, where the line of the event is given, without its line feed.
    #[inline(always)]
    pub(crate) fn add_line(
        &mut self,
        collected: &CollectedWorld,
        line: &[u8],
    ) -> Result<usize, NoMemory>
        requires { self.old.has_swept ≡ ends_with_sweep collected.now.past }
        ensures start { IfOk result (λ start. start ≡ length self.old.text.items) }
        ensures ok { OnOk result (self.new.text.items ≡ self.old.text.items
            ++ (text_of (lines_made_due collected.now.cluster collected.now.past) ++ line_of line.now)) }
        ensures err { OnErr result (self.new.text.items ≡ self.old.text.items) }
        ensures swept { self.new.has_swept ≡ self.old.has_swept }
    {
        let start = self.text.len();
        self.add_due(collected)?;
        if append_bytes(line, &mut self.text).is_err() {
            self.text.truncate(start);
            return Err(NoMemory);
        }
        Ok(start)
    }

    /// Appends the lines that the last event made due; after `NoMemory` the text is as before.
    #[inline(always)]
    fn add_due(&mut self, collected: &CollectedWorld) -> Result<(), NoMemory>
        requires { self.old.has_swept ≡ ends_with_sweep collected.now.past }
        ensures ok { OnOk result (self.new.text.items ≡ self.old.text.items ++ text_of (lines_made_due collected.now.cluster collected.now.past)) }
        ensures err { OnErr result (self.new.text.items ≡ self.old.text.items) }
        ensures swept { self.new.has_swept ≡ self.old.has_swept }
    {
        match collected.last_verdict(self.has_swept) {
            Some(verdict) => append_verdict(collected.world().nodes(), verdict, &mut self.text),
            None => Ok(()),
        }
    }

    /// The text becomes the report, now that the history has come to its end; after `NoMemory` it is as before.
    pub(crate) fn finish(&mut self, collected: &CollectedWorld) -> Result<(), NoMemory>
        requires { IsTelling collected.now self.old.has_swept self.old.text.items }
        ensures ok { OnOk result (self.new.text.items ≡ report_of collected.now.cluster collected.now.past) }
        ensures err { OnErr result (self.new.text.items ≡ self.old.text.items) }
        ensures swept { self.new.has_swept ≡ self.old.has_swept }
    {
        let start = self.text.len();
        self.add_due(collected)?;
        let events = collected.world().len() as u64;
        if append_end(events, collected.stopped(), &mut self.text).is_err() {
            self.text.truncate(start);
            return Err(NoMemory);
        }
        Ok(())
    }
}

/// Appends the bytes and a line feed; after `NoMemory` the text begins as before.
#[inline(always)]
fn append_bytes(line: &[u8], text: &mut Vec<u8>) -> Result<(), NoMemory>
    ensures ok { OnOk result (text.new.items ≡ text.old.items ++ line_of line.now) }
    ensures err { OnErr result (text.new.items ≡ text.old.items) }
{
    if text.reserve(line.len() + 1).is_err() {
        return Err(NoMemory);
    }
    if text.extend_from_slice(line).is_err() {
        return Err(NoMemory);
    }
    text.push_reserved(b'\n');
    Ok(())
}

/// Whether the event is a sweep. Constant time.
#[inline(always)]
pub fn is_sweep(event: &Event) -> bool
    ensures { result ≡ is_sweep event.now }
{
    matches!(event, Event::Sweep { .. })
}

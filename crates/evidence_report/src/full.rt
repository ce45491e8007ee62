//! The report in full.
ghost use Rattle.std.specs.Prelude.{◌≡◌, ◌≤◌, ◌<◌, ◌++◌, drop, get_or, length, reverse, IfOk, OnOk};
ghost use Rattle.history_model.specs.Legal.{IsLegal};
ghost use Rattle.journal_model.specs.Lines.{text_of};
ghost use Rattle.journal_model.specs.Report.{report_of, told_lines};
ghost use Rattle.journal_model.specs.Verdicts.{AreVerdicts};
ghost use Rattle.evidence_report.specs.Pieces.{verdict_text};

use crate::counts::stopped_by_all;
use crgc_ids::NoMemory;
use event_lines::{append_end, append_event, append_header, append_verdict};
use history_model::{Event, History, Verdict};
use std::alloc::Global;

/// The report of a legal history in full, with the verdicts of its sweeps, which are given in order: the header, the line of each
/// event, after each sweep the line of its cut and one of each stop, and the end line. Linear in its length.
pub fn full_report(
    alloc: Global,
    history: &History,
    verdicts: &[Verdict],
) -> Result<Vec<u8>, NoMemory>
    requires legal { IsLegal history.now.cluster history.now.past }
    requires verdicts { AreVerdicts history.now.cluster history.now.past (reverse verdicts.now) }
    ensures { IfOk result (λ text. text.items ≡ report_of history.now.cluster history.now.past) }
{
    let mut text = Vec::new(alloc);
    append_header(history.nodes(), history.version(), &mut text)?;
    append_events(alloc, history, verdicts, &mut text)?;
    append_end(history.len() as u64, stopped_by_all(verdicts), &mut text)?;
    Ok(text)
}

/// Appends each event's line, and after a sweep the lines of its verdict.
fn append_events(
    alloc: Global,
    history: &History,
    verdicts: &[Verdict],
    text: &mut Vec<u8>,
) -> Result<(), NoMemory>
    requires { AreVerdicts history.now.cluster history.now.past (reverse verdicts.now) }
    ensures { OnOk result (text.new.items ≡ text.old.items ++ text_of (told_lines history.now.cluster history.now.past)) }
{
    let mut rest = verdicts;
    let mut events = history.events();
    for _ in 0..history.len() {
        let event = events.next(alloc)?.unwrap();
        append_event(&event, text)?;
        if let Event::Sweep { .. } = event {
            rest = append_first(history.nodes(), rest, text)?;
        }
    }
    Ok(())
}

/// Appends the lines of the first verdict, and answers the others.
fn append_first<'a>(
    nodes: u8,
    verdicts: &'a [Verdict],
    text: &mut Vec<u8>,
) -> Result<&'a [Verdict], NoMemory>
    requires some { 1 ≤ nodes }
    requires nodes { nodes ≤ 16 }
    requires verdicts { 0 < length verdicts.now }
    ensures rest { IfOk result (λ rest. rest.now ≡ drop 1 verdicts.now) }
    ensures cut { (d : Verdict) → length (get_or verdicts.now 0 d).cut ≡ 16 }
    ensures lines { OnOk result ((d : Verdict) → text.new.items ≡ text.old.items ++ verdict_text nodes (get_or verdicts.now 0 d)) }
{
    let verdict = &verdicts[0];
    // A cut is known to count all 16 nodes once one of its counts is read.
    let _ = verdict.cut.at(verdict.node);
    append_verdict(nodes, verdict, text)?;
    Ok(&verdicts[1..])
}

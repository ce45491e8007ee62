//! The command `play`.
ghost use Rattle.std.specs.Prelude.{◌≡◌, ◌≤◌, Ok, IfOk, IfErr};
ghost use Rattle.cluster_top.specs.PlayOutcome.{IsJournalReport, PlayCameTo};
ghost use Rattle.cluster_top.specs.Refusals.{IsToldBy, line_for, status_of};
ghost use Rattle.cluster_top.specs.declared.status.Status.TheVariants as ends;
ghost use Rattle.journal_model.specs.Journals.{journal_of};

use crate::input::input;
use crate::refusal::Refusal;
use crgc_io::Source;
use journal_player::{Played, play};
use std::alloc::Global;
use std::mem;

/// The report of the journal that the source gives, in brief or in full, or why there is none.
pub fn played<S: Source>(alloc: Global, source: &mut S, brief: bool) -> Result<Vec<u8>, Refusal>
    ensures report { IfOk result (λ v. PlayCameTo S.left S.given S.ended S.faults source.old source.new brief ends.Done v.items) }
    ensures refusal { IfErr result (λ r. PlayCameTo S.left S.given S.ended S.faults source.old source.new brief (status_of r) (line_for r)) }
    ensures never_falls { S.faults source.old ≤ S.faults source.new }
{
    match input(alloc, source) {
        Ok(journal) => report(alloc, journal, brief),
        Err(refusal) => Err(refusal),
    }
}

/// The report of the journal, in brief or in full, or why there is none. The cluster is forgotten.
fn report(alloc: Global, journal: Vec<u8>, brief: bool) -> Result<Vec<u8>, Refusal>
    ensures report { IfOk result (λ v. IsJournalReport journal.items brief v.items) }
    ensures refusal { IfErr result (λ r. IsToldBy r (journal_of journal.items)) }
{
    match play(alloc, journal, brief) {
        Ok(Played { report, cluster }) => {
            mem::forget(cluster);
            Ok(report)
        }
        Err(fault) => Err(Refusal::of(alloc, fault)),
    }
}

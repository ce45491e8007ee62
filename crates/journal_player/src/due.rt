//! The lines that a verdict makes due, one at a time.
ghost use Rattle.std.specs.Prelude.{◌≡◌, ◌≤◌, ◌<◌, ◌+◌, ◌^◌, slice_get, take, IfOk, IfSome};
ghost use Rattle.journal_model.specs.Lines.{cut_words, spell, stop_words};
ghost use Rattle.cluster_course.specs.Due.{lines_of_verdict};

use crgc_ids::{NoMemory, Octets};
use event_lines::{append_verdict, print};
use history_model::{Stop, StopList, Verdict};
use journal_model::Line;
use std::alloc::Global;

/// The line at `place`, from 0 for the cut, of those of the verdict in a cluster of so many nodes; None exactly where it has no
/// more. Linear in the line.
pub fn verdict_line(
    alloc: Global,
    nodes: u8,
    verdict: &Verdict,
    place: usize,
) -> Result<Option<Octets>, NoMemory>
    requires some { 1 ≤ nodes }
    requires nodes { nodes ≤ 16 }
    ensures line { IfOk result (λ line. line ≡ slice_get (lines_of_verdict nodes verdict.now) place) }
    ensures room { IfOk result (λ line. IfSome line (λ _. place + 1 < 2 ^ 64)) }
{
    if place == 0 {
        return Ok(Some(cut_line(alloc, nodes, verdict)?));
    }
    let stops = verdict.stops.as_slice();
    let lines = stops.len() + 1;
    if place >= lines {
        return Ok(None);
    }
    let line = Line::Stop {
        by: verdict.node,
        stop: copy_of(&stops[place - 1])?,
    };
    Ok(Some(print(alloc, &line)?))
}

/// The line of the cut.
fn cut_line(alloc: Global, nodes: u8, verdict: &Verdict) -> Result<Octets, NoMemory>
    requires some { 1 ≤ nodes }
    requires nodes { nodes ≤ 16 }
    ensures { IfOk result (λ line. line ≡ spell (cut_words verdict.now.node (take nodes verdict.now.cut) verdict.now.lost)) }
{
    let cut = Verdict {
        node: verdict.node,
        cut: verdict.cut,
        lost: verdict.lost,
        stops: StopList::new(alloc),
    };
    let mut text = Vec::new(alloc);
    append_verdict(nodes, &cut, &mut text)?;
    text.pop();
    Ok(Octets::from_vec(text))
}

/// An equal stop.
fn copy_of(stop: &Stop) -> Result<Stop, NoMemory>
    ensures { IfOk result (λ copy. copy ≡ stop.now) }
{
    Ok(Stop {
        actor: stop.actor,
        received: stop.received,
        told: stop.told,
        admitted: stop.admitted,
        owners: stop.owners.copy()?,
    })
}

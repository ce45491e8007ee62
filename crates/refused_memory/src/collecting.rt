//! A collector alone: the bulletins of a history are handed to it, and it sweeps.
ghost use Rattle.std.specs.Prelude.{◌≡◌, true, IfOk, OnOk};
ghost use Rattle.collector.specs.Collected.{IsSettled};

use crate::making::{bytes_of, collector_of, event_of, picture_of_collector};
use crate::trial::Trial;
use collector::{Collector, TakeFault};
use crgc_ids::{MOST_EVENTS, NodeId};
use event_lines::append_verdict;
use history_model::{Event, Verdict};
use std::io;
use true_config::World;

/// A bulletin as it is handed by a line.
#[derive(Clone, Copy)]
struct Handed<'a> {
    line: &'a str,
    origin: NodeId,
    number: u32,
    bytes: &'a [u8],
}

/// The lines of what the sweeps of the report find, by a collector of the cluster's last node that takes what the report hands.
pub fn verdicts_of(
    rt: &impl Print,
    trial: &mut Trial,
    world: &World,
    report: &str,
) -> io::Result<Vec<u8>> {
    let mut text = Vec::new(trial.alloc);
    let mut collector = collector_of(trial, world.nodes())?;
    for line in report.lines() {
        go_on(rt, trial, world, &mut collector, line, &mut text)?;
    }
    Ok(text)
}

/// The line's hand or sweep happens, if it spells one.
fn go_on(
    rt: &impl Print,
    trial: &mut Trial,
    world: &World,
    collector: &mut Collector,
    line: &str,
    text: &mut Vec<u8>,
) -> io::Result<()>
    requires { IsSettled collector.old }
    ensures { OnOk result (IsSettled collector.new) }
{
    let Some(event) = event_of(trial, line) else {
        return Ok(());
    };
    follow(rt, trial, world, collector, line, &event, text)
}

/// The event happens, if it is a hand or a sweep.
fn follow(
    rt: &impl Print,
    trial: &mut Trial,
    world: &World,
    collector: &mut Collector,
    line: &str,
    event: &Event,
    text: &mut Vec<u8>,
) -> io::Result<()>
    requires { IsSettled collector.old }
    ensures { OnOk result (IsSettled collector.new) }
{
    match event {
        Event::Hand { origin, number, .. } => {
            hand_over(rt, trial, world, collector, line, *origin, *number)
        }
        Event::Sweep { .. } => sweep_over(rt, trial, world, collector, line, text),
        _ => Ok(()),
    }
}

/// The origin's bulletin with this number is handed.
fn hand_over(
    rt: &impl Print,
    trial: &mut Trial,
    world: &World,
    collector: &mut Collector,
    line: &str,
    origin: NodeId,
    number: u32,
) -> io::Result<()>
    requires { IsSettled collector.old }
    ensures { OnOk result (IsSettled collector.new) }
{
    let bytes = bytes_of(trial, world, origin, number)?;
    let handed = Handed {
        line,
        origin,
        number,
        bytes: bytes.as_slice(),
    };
    hand(rt, trial, collector, &handed)
}

/// The collector sweeps, and the lines of its verdict are appended.
fn sweep_over(
    rt: &impl Print,
    trial: &mut Trial,
    world: &World,
    collector: &mut Collector,
    line: &str,
    text: &mut Vec<u8>,
) -> io::Result<()>
    requires { IsSettled collector.old }
    ensures { OnOk result (IsSettled collector.new) }
{
    let verdict = sweep(rt, trial, collector, line)?;
    append(trial, world.nodes(), &verdict, text)
}

/// The bulletin is handed. Where that is refused, it may be kept, and folded or not.
fn hand(
    rt: &impl Print,
    trial: &mut Trial,
    collector: &mut Collector,
    handed: &Handed<'_>,
) -> io::Result<()>
    ensures { OnOk result (IsSettled collector.new) }
{
    let before = picture_of_collector(trial, collector)?;
    if take(collector, handed)? {
        return Ok(());
    }
    let after = picture_of_collector(trial, collector)?;
    if !take(collector, handed)? {
        return Err(io::ErrorKind::OutOfMemory.into());
    }
    let last = picture_of_collector(trial, collector)?;
    let is_between = after.is_between(&before, &last);
    trial.judge(rt, handed.line, &before, &after, is_between)
}

/// The collector takes the bulletin; no where memory is refused.
fn take(collector: &mut Collector, handed: &Handed<'_>) -> io::Result<bool>
    ensures { IfOk result (λ taken. taken ≡ true → IsSettled collector.new) }
{
    if handed.origin.get() >= collector.nodes() || handed.number >= MOST_EVENTS {
        return Err(io::ErrorKind::InvalidData.into());
    }
    match collector.take(handed.origin, handed.number, handed.bytes) {
        Ok(_) => Ok(true),
        Err(TakeFault::NoMemory) => Ok(false),
        Err(_) => Err(io::ErrorKind::InvalidData.into()),
    }
}

/// The collector sweeps. Where that is refused, it is as before, and sweeps at the second time.
fn sweep(
    rt: &impl Print,
    trial: &mut Trial,
    collector: &mut Collector,
    line: &str,
) -> io::Result<Verdict>
    requires { IsSettled collector.old }
    ensures { OnOk result (IsSettled collector.new) }
{
    let before = picture_of_collector(trial, collector)?;
    if let Ok(verdict) = collector.sweep() {
        return Ok(verdict);
    }
    let after = picture_of_collector(trial, collector)?;
    trial.judge(rt, line, &before, &after, false)?;
    match collector.sweep() {
        Ok(verdict) => Ok(verdict),
        Err(_) => Err(io::ErrorKind::OutOfMemory.into()),
    }
}

/// The lines of the verdict are appended.
fn append(trial: &mut Trial, nodes: u8, verdict: &Verdict, text: &mut Vec<u8>) -> io::Result<()> {
    if nodes == 0 || nodes > 16 {
        return Err(io::ErrorKind::InvalidData.into());
    }
    let len = text.len();
    if append_verdict(nodes, verdict, text).is_ok() {
        return Ok(());
    }
    trial.count(text.len() == len);
    match append_verdict(nodes, verdict, text) {
        Ok(()) => Ok(()),
        Err(_) => Err(io::ErrorKind::OutOfMemory.into()),
    }
}

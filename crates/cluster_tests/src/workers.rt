//! Worked scripts, run by workers.
ghost use Rattle.std.specs.Prelude.{◌<◌};

use crgc_ids::ActorId;
use crgc_io::{Gate, HoldGate, QuietGate};
use history_model::Event;
use script_reader::read_script;
use script_workers::{Finished, run};
use std::alloc::Global;
use std::hint::spin_loop;
use std::sync::Wait;
use std::sync::atomic::{AtomicU64, Ordering};
use std::test::Fail;
use std::thread::Threads;
use std::time::Clock;

const TWO_WAKES: &str =
    "{\"nodes\":2,\"behaviours\":[{\"name\":\"idler\"}],\"seeds\":[{\"node\":0,\"behaviour\":\"idler\",\"wakes\":1},\
     {\"node\":1,\"behaviour\":\"idler\",\"wakes\":1}],\"turns\":10}";

const MAKER_FRIEND_POKE: &str =
    "{\"nodes\":3,\"behaviours\":[{\"name\":\"maker\",\"wake\":[[\"spawn\",\"x\",\"cell\"],[\"send\",\"b\",\"x\"],\
     [\"send\",\"c\",\"x\"],[\"drop\",\"x\"]]},{\"name\":\"friend\",\"message\":[[\"work\",10],[\"spawn\",\"y\",\"cell\"],\
     [\"send\",\"m0\",\"y\"],[\"send\",\"y\",\"m0\"],[\"drop\",\"y\"]]},{\"name\":\"poke\",\"message\":[[\"send\",\"m0\"]]},\
     {\"name\":\"cell\",\"message\":[[\"keep\",\"k\",\"m0\"]]}],\"seeds\":[{\"node\":0,\"behaviour\":\"maker\",\"wakes\":1},\
     {\"node\":1,\"behaviour\":\"friend\",\"wakes\":0},{\"node\":2,\"behaviour\":\"poke\",\"wakes\":0}],\
     \"ties\":[{\"from\":0,\"to\":1,\"as\":\"b\"},{\"from\":0,\"to\":2,\"as\":\"c\"}],\"crashes\":[{\"node\":2,\"after\":1}],\
     \"turns\":100}";

// What so many workers make of a script, in brief.
fn finished<G: Gate + Sync, R: Threads + Wait + Clock + Sync>(
    rt: &R,
    alloc: Global,
    text: &str,
    workers: u32,
    gate: &G,
) -> Result<Finished, Fail>
    requires { 0 < workers }
{
    let Ok(script) = read_script(alloc, text.as_bytes()) else {
        return Err("a script".into());
    };
    match run(rt, alloc, script, workers, true, gate) {
        Ok(finished) => Ok(finished),
        Err(_) => Err("a run to its end".into()),
    }
}

// Where the last wake of a history stands, and where its first rest does.
fn last_wake_and_first_rest(events: &[Event]) -> (usize, usize) {
    let mut wake = 0;
    let mut rest = events.len();
    for (at, event) in events.iter().enumerate() {
        match event {
            Event::Wake { .. } => wake = at,
            Event::Rest { .. } if at < rest => rest = at,
            _ => {}
        }
    }
    (wake, rest)
}

#[test]
fn two_workers_are_in_their_turns_at_once(rt: HostRuntime) -> Result<(), Fail> {
    let gate = HoldGate::new(200_000_000);
    let Finished { report: _, history } = finished(&rt, rt.alloc(), TWO_WAKES, 2, &gate)?;
    assert!(rt; gate.met());
    let events = history.to_vec(rt.alloc())?;
    let (wake, rest) = last_wake_and_first_rest(events.as_slice());
    assert!(rt; wake < rest);
    Ok(())
}

// A gate at which the second turn stays for a while: some tenths of a second.
#[derive(Drop)]
struct SlowGate {
    turns: AtomicU64,
}

impl Gate for SlowGate {
    fn turn_begins(&self, _worker: u32, _actor: ActorId) {
        if self.turns.fetch_add(1, Ordering::SeqCst) == 1 {
            for _ in 0..20_000_000 {
                spin_loop();
            }
        }
    }
}

// Whether some actor of the history rests after some node swept.
fn rests_after_a_sweep(events: &[Event]) -> bool {
    let mut swept = false;
    for event in events {
        match event {
            Event::Sweep { .. } => swept = true,
            Event::Rest { .. } if swept => return true,
            _ => {}
        }
    }
    false
}

#[test]
fn nodes_tell_and_sweep_while_a_turn_goes_on(rt: HostRuntime) -> Result<(), Fail> {
    let gate = SlowGate {
        turns: AtomicU64::new(0),
    };
    let Finished { report: _, history } = finished(&rt, rt.alloc(), TWO_WAKES, 1, &gate)?;
    let events = history.to_vec(rt.alloc())?;
    assert!(rt; rests_after_a_sweep(events.as_slice()));
    Ok(())
}

// The report that so many workers make of the script with a crash.
fn report_of<R: Threads + Wait + Clock + Sync>(
    rt: &R,
    alloc: Global,
    workers: u32,
) -> Result<Vec<u8>, Fail>
    requires { 0 < workers }
{
    match finished(rt, alloc, MAKER_FRIEND_POKE, workers, &QuietGate) {
        Ok(Finished { report, history: _ }) => Ok(report),
        Err(fail) => Err(fail),
    }
}

#[test]
fn any_number_of_workers_stops_the_garbage_of_a_script(rt: HostRuntime) -> Result<(), Fail> {
    let wanted =
        b"crgc 2 nodes 3\nnode 0 born 2 stopped 1\nnode 1 born 2 stopped 1\nnode 2 born 1 stopped 0\n\
          total born 5 stopped 2\n";
    let one = report_of(&rt, rt.alloc(), 1)?;
    assert_eq!(rt; one.as_slice(), wanted.as_slice());
    let four = report_of(&rt, rt.alloc(), 4)?;
    assert_eq!(rt; four.as_slice(), wanted.as_slice());
    Ok(())
}

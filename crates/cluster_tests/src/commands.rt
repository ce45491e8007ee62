use cluster_top::{Status, crgc_top, plain_top, wants_workers};
use crgc_ids::ActorId;
use crgc_io::{Gate, HoldGate, MemorySink, MemorySource, QuietGate};
use history_model::History;
use std::alloc::Global;
use std::sync::Wait;
use std::sync::atomic::{AtomicU64, Ordering};
use std::test::Fail;
use std::thread::Threads;
use std::time::Clock;

const DROPPED_CHILD: &str =
    "crgc 1 nodes 1\nseed 0\nwake 0.0\nspawn 0.0\ndrop 0.0 0.1\nrest 0.0\nflush 0.0\nflush 0.1\n\
     publish 0\nhand 0 0 0\nsweep 0\n";

const DROPPED_CHILD_REPORT: &str =
    "crgc 1 nodes 1\nseed 0\nwake 0.0\nspawn 0.0\ndrop 0.0 0.1\nrest 0.0\nflush 0.0\n\
     flush 0.1\npublish 0\nhand 0 0 0\nsweep 0\ncut 0 1 lost\n\
     stop 0.1 by 0 received 0 told 0 admitted 0 owners 0.1\nend events 10 stopped 1\n";

const NO_OWN_ENTRY: &str =
    "crgc 1 nodes 1\nseed 0\nwake 0.0\nspawn 0.0\nflush 0.1\npublish 0\nhand 0 0 0\nsweep 0";

const OUT_OF_ORDER: &str =
    "crgc 1 nodes 1\nseed 0\nflush 0.0\npublish 0\nwake 0.0\nflush 0.0\npublish 0\nrest 0.0\n\
     flush 0.0\npublish 0\nhand 0 0 2\nsweep 0\nhand 0 0 0\nhand 0 0 0\nsweep 0\nhand 0 0 1\nsweep 0\n";

const OUT_OF_ORDER_REPORT: &str =
    "crgc 1 nodes 1\nseed 0\nflush 0.0\npublish 0\nwake 0.0\nflush 0.0\npublish 0\n\
     rest 0.0\nflush 0.0\npublish 0\nhand 0 0 2\nsweep 0\ncut 0 0 lost\nhand 0 0 0\nhand 0 0 0\nsweep 0\n\
     cut 0 1 lost\nhand 0 0 1\nsweep 0\ncut 0 3 lost\nend events 16 stopped 0\n";

const CYCLE_OVER_TWO_NODES: &str =
    "crgc 1 nodes 2\nseed 0\nseed 1\ntie 0.0 1.0\nwake 0.0\nspawn 0.0\nwake 1.0\nspawn 1.0\n\
     send 0.0 1.0 0.1\nrest 1.0\nadmit 0 1 0\ntake 1.0\nsend 1.0 0.1 1.1\nsend 1.0 1.1 0.1\n\
     drop 1.0 0.1\ndrop 1.0 1.1\nrest 1.0\ndrop 0.0 0.1\nrest 0.0\nadmit 1 0 0\ntake 0.1\nrest 0.1\n\
     take 1.1\nrest 1.1\nflush 0.0\nflush 0.1\nflush 1.0\nflush 1.1\npublish 0\npublish 1\n\
     hand 0 0 0\nhand 0 1 0\nhand 1 0 0\nhand 1 1 0\nsweep 0\nsweep 1\n";

const CYCLE_OVER_TWO_NODES_REPORT: &str =
    "crgc 1 nodes 2\nseed 0\nseed 1\ntie 0.0 1.0\nwake 0.0\nspawn 0.0\nwake 1.0\nspawn 1.0\n\
     send 0.0 1.0 0.1\nrest 1.0\nadmit 0 1 0\ntake 1.0\nsend 1.0 0.1 1.1\nsend 1.0 1.1 0.1\n\
     drop 1.0 0.1\ndrop 1.0 1.1\nrest 1.0\ndrop 0.0 0.1\nrest 0.0\nadmit 1 0 0\ntake 0.1\nrest 0.1\n\
     take 1.1\nrest 1.1\nflush 0.0\nflush 0.1\nflush 1.0\nflush 1.1\npublish 0\npublish 1\n\
     hand 0 0 0\nhand 0 1 0\nhand 1 0 0\nhand 1 1 0\nsweep 0\ncut 0 1 1 lost\n\
     stop 0.1 by 0 received 1 told 1 admitted 0 owners 0.1 1.1\nsweep 1\ncut 1 1 1 lost\n\
     stop 1.1 by 1 received 1 told 1 admitted 0 owners 0.1 1.1\nend events 35 stopped 2\n";

const CRASH_AFTER_18_EVENTS: &str =
    "crgc 1 nodes 2\nseed 0\nseed 1\ntie 0.0 1.0\nwake 0.0\nspawn 0.0\nwake 1.0\nspawn 1.0\n\
     send 0.0 1.0 0.1\nrest 1.0\nadmit 0 1 0\ntake 1.0\nsend 1.0 0.1 1.1\nsend 1.0 1.1 0.1\n\
     drop 1.0 0.1\ndrop 1.0 1.1\nrest 1.0\ndrop 0.0 0.1\nrest 0.0\ncrash 1\nremove 0 1\nflush 0.0\n\
     flush 0.1\npublish 0\nhand 0 0 0\nhand 0 0 1\nsweep 0\n";

const CRASH_AFTER_21_EVENTS: &str =
    "crgc 1 nodes 2\nseed 0\nseed 1\ntie 0.0 1.0\nwake 0.0\nspawn 0.0\nwake 1.0\nspawn 1.0\n\
     send 0.0 1.0 0.1\nrest 1.0\nadmit 0 1 0\ntake 1.0\nsend 1.0 0.1 1.1\nsend 1.0 1.1 0.1\n\
     drop 1.0 0.1\ndrop 1.0 1.1\nrest 1.0\ndrop 0.0 0.1\nrest 0.0\nadmit 1 0 0\ntake 0.1\nrest 0.1\n\
     crash 1\nremove 0 1\nflush 0.0\nflush 0.1\npublish 0\nhand 0 0 0\nhand 0 0 1\nsweep 0\n";

const BRIEF_REPORT: &str = "crgc 1 nodes 1\nnode 0 born 2 stopped 1\ntotal born 2 stopped 1\n";

const CHANGED_STOP: &str =
    "crgc 1 nodes 1\nseed 0\nwake 0.0\nspawn 0.0\ndrop 0.0 0.1\nrest 0.0\nflush 0.0\nflush 0.1\n\
     publish 0\nhand 0 0 0\nsweep 0\ncut 0 1 lost\n\
     stop 0.1 by 0 received 1 told 0 admitted 0 owners 0.1\nend events 10 stopped 1\n";

const THIRD_TAKE: &str =
    "crgc 1 nodes 2\nseed 0\nseed 1\ntie 0.0 1.0\nwake 0.0\nsend 0.0 1.0\nrepeat 0 1 0\nadmit 0 1 0\n\
     admit 0 1 0\ntake 1.0\nrest 1.0\ntake 1.0\n";

const LAST_REFERENCE_TO_A_PARENT: &str =
    "crgc 2 nodes 1\nseed 0\nwake 0.0\nspawn 0.0\nsend 0.0 0.1\ntake 0.1\ndrop 0.1 0.0\n";

const A_MESSAGE_IS_LOST: &str =
    "{\"nodes\":3,\"behaviours\":[{\"name\":\"maker\",\"wake\":[[\"spawn\",\"x\",\"cell\"],\
     [\"send\",\"b\",\"x\"],[\"send\",\"c\",\"x\"],[\"drop\",\"x\"]]},\
     {\"name\":\"friend\",\"message\":[[\"spawn\",\"y\",\"cell\"],[\"send\",\"m0\",\"y\"],\
     [\"send\",\"y\",\"m0\"],[\"drop\",\"y\"]]},\
     {\"name\":\"poke\",\"message\":[[\"send\",\"m0\"]]},\
     {\"name\":\"cell\",\"message\":[[\"keep\",\"k\",\"m0\"]]}],\"seeds\":[\
     {\"node\":0,\"behaviour\":\"maker\",\"wakes\":1},\
     {\"node\":1,\"behaviour\":\"friend\",\"wakes\":0},\
     {\"node\":2,\"behaviour\":\"poke\",\"wakes\":0}],\"ties\":[\
     {\"from\":0,\"to\":1,\"as\":\"b\"},{\"from\":0,\"to\":2,\"as\":\"c\"}],\"crashes\":[\
     {\"node\":2,\"after\":1}],\"turns\":100,\"losses\":[{\"from\":1,\"to\":0,\"number\":0}]}";

const A_MESSAGE_IS_LOST_REPORT: &str =
    "crgc 2 nodes 3\nseed 0\nseed 1\nseed 2\ntie 0.0 1.0\ntie 0.0 2.0\nwake 0.0\nspawn 0.0\n\
     send 0.0 1.0 0.1\nsend 0.0 2.0 0.1\ndrop 0.0 0.1\nrest 0.0\nadmit 0 1 0\nadmit 0 2 0\n\
     take 1.0\nspawn 1.0\nsend 1.0 0.1 1.1\nsend 1.0 1.1 0.1\ndrop 1.0 1.1\ndrop 1.0 0.1\n\
     rest 1.0\nlose 1 0 0\ntake 1.1\nrest 1.1\ntake 2.0\nsend 2.0 0.1\ndrop 2.0 0.1\n\
     rest 2.0\ncrash 2\nadmit 2 0 0\ntake 0.1\nrest 0.1\nremove 0 2\nremove 1 2\nwindow 1 0\n\
     flush 0.0\nflush 0.1\npublish 0\nflush 1.0\nflush 1.1\npublish 1\nhand 0 0 0\n\
     hand 0 0 1\nhand 0 1 0\nhand 0 1 1\nhand 0 1 2\nhand 1 0 0\nhand 1 0 1\nhand 1 1 0\n\
     hand 1 1 1\nhand 1 1 2\nsweep 0\ncut 0 2 3 0 lost 2\nsweep 1\ncut 1 2 3 0 lost 2\n\
     end events 52 stopped 0\n";

const A_MESSAGE_IS_LOST_IN_BRIEF: &str =
    "crgc 2 nodes 3\nnode 0 born 2 stopped 0\nnode 1 born 2 stopped 0\nnode 2 born 1 stopped 0\n\
     total born 5 stopped 0\n";

const TWO_WAKES: &str = "{\"nodes\":2,\"behaviours\":[{\"name\":\"idler\"}],\"seeds\":[\
     {\"node\":0,\"behaviour\":\"idler\",\"wakes\":1},\
     {\"node\":1,\"behaviour\":\"idler\",\"wakes\":1}],\"turns\":10}";

/// How the call ends that needs no worker threads.
fn called(
    alloc: Global,
    words: &[String],
    source: &mut MemorySource,
    sink: &mut MemorySink,
) -> Result<Status, Fail> {
    if wants_workers(words) {
        return Err("words that want no workers".into());
    }
    Ok(plain_top(alloc, words, source, sink))
}

/// The words, each as a text of its own.
fn texts(alloc: Global, words: &[&str]) -> Result<Vec<String>, Fail> {
    let mut said = Vec::new(alloc);
    for word in words {
        said.push(String::from_str(alloc, word)?)?;
    }
    Ok(said)
}

/// With these words and this input: the number with which the program ends, and the bytes that were written.
fn ended(alloc: Global, words: &[&str], input: &str) -> Result<(u8, Vec<u8>), Fail> {
    let said = texts(alloc, words)?;
    let none = Vec::new(alloc);
    let mut source = MemorySource::new(input.as_bytes().to_vec(alloc)?, 7, none);
    let mut sink = MemorySink::new(alloc, 1000, 9, Vec::new(alloc))
        .ok()
        .ok_or("memory")?;
    let status = called(alloc, said.as_slice(), &mut source, &mut sink)?;
    Ok((status.exit_number(), sink.bytes().to_vec(alloc)?))
}

/// The same, where worker threads may run; the history is kept.
fn ended_by_threads<G: Gate + Sync, R: Threads + Wait + Clock + Sync>(
    rt: &R,
    alloc: Global,
    words: &[&str],
    input: &str,
    gate: &G,
    kept: &mut Option<History>,
) -> Result<(u8, Vec<u8>), Fail> {
    let said = texts(alloc, words)?;
    let mut source = MemorySource::new(input.as_bytes().to_vec(alloc)?, 7, Vec::new(alloc));
    let mut sink = MemorySink::new(alloc, 4000, 9, Vec::new(alloc))
        .ok()
        .ok_or("memory")?;
    let status = crgc_top(
        rt,
        alloc,
        said.as_slice(),
        &mut source,
        &mut sink,
        gate,
        kept,
    );
    Ok((status.exit_number(), sink.bytes().to_vec(alloc)?))
}

#[test]
fn what_the_last_event_makes_due_is_told_last(rt: HostRuntime) -> Result<(), Fail> {
    let cases = [
        ("crgc 1 nodes 1\n", "end events 0 stopped 0\n"),
        (DROPPED_CHILD_REPORT, ""),
        (NO_OWN_ENTRY, "\ncut 0 1 lost\nend events 7 stopped 0\n"),
        (
            CRASH_AFTER_18_EVENTS,
            "cut 0 2 0 lost 1\nstop 0.1 by 0 received 0 told 0 admitted 0 owners 0.1\n\
             end events 26 stopped 1\n",
        ),
        (
            CRASH_AFTER_21_EVENTS,
            "cut 0 2 0 lost 1\nstop 0.1 by 0 received 1 told 0 admitted 1 owners 0.1\n\
             end events 29 stopped 1\n",
        ),
    ];
    for (input, more) in cases {
        let (number, written) = ended(rt.alloc(), &["play"], input)?;
        let mut report = input.as_bytes().to_vec(rt.alloc())?;
        report.extend_from_slice(more.as_bytes())?;
        assert_eq!(rt; number, 0);
        assert_eq!(rt; written.as_slice(), report.as_slice());
    }
    Ok(())
}

#[test]
fn each_sweep_is_told_where_it_comes_and_in_brief_in_numbers(rt: HostRuntime) -> Result<(), Fail> {
    let full = ["play"].as_slice();
    let brief = ["play", "--brief"].as_slice();
    let cases = [
        (full, OUT_OF_ORDER, OUT_OF_ORDER_REPORT),
        (full, CYCLE_OVER_TWO_NODES, CYCLE_OVER_TWO_NODES_REPORT),
        (brief, DROPPED_CHILD, BRIEF_REPORT),
    ];
    for (words, input, report) in cases {
        let (number, written) = ended(rt.alloc(), words, input)?;
        assert_eq!(rt; number, 0);
        assert_eq!(rt; written.as_slice(), report.as_bytes());
    }
    Ok(())
}

#[test]
fn the_first_faulty_line_is_told(rt: HostRuntime) -> Result<(), Fail> {
    let cases = [
        ("", "fault 7 line 1 header\n"),
        ("crgc 1 nodes 17\n", "fault 7 line 1 header\n"),
        ("crgc 1 nodes 1\nSeed 0\n", "fault 7 line 2 word\n"),
        ("crgc 1 nodes 1\nseed 00\n", "fault 7 line 2 field\n"),
        ("crgc 1 nodes 1\nseed 0 \n", "fault 7 line 2 extra\n"),
        (CHANGED_STOP, "fault 7 line 13 differs\n"),
        (
            "crgc 1 nodes 1\nend events 0 stopped 0\nseed 0\n",
            "fault 7 line 3 after-end\n",
        ),
        (THIRD_TAKE, "fault 7 line 12 no-mail\n"),
        (LAST_REFERENCE_TO_A_PARENT, "fault 7 line 7 supervisor\n"),
    ];
    for (input, told) in cases {
        let (number, written) = ended(rt.alloc(), &["play"], input)?;
        assert_eq!(rt; number, 7);
        assert_eq!(rt; written.as_slice(), told.as_bytes());
    }
    Ok(())
}

#[test]
fn a_script_is_run_to_its_report_and_in_brief_to_its_numbers(rt: HostRuntime) -> Result<(), Fail> {
    let full = ["run", "--workers", "0"].as_slice();
    let brief = ["run", "--brief", "--workers=0"].as_slice();
    let cases = [
        (full, A_MESSAGE_IS_LOST_REPORT),
        (brief, A_MESSAGE_IS_LOST_IN_BRIEF),
    ];
    for (words, report) in cases {
        let (number, written) = ended(rt.alloc(), words, A_MESSAGE_IS_LOST)?;
        assert_eq!(rt; number, 0);
        assert_eq!(rt; written.as_slice(), report.as_bytes());
    }
    Ok(())
}

#[test]
fn the_first_fault_of_a_script_is_told(rt: HostRuntime) -> Result<(), Fail> {
    let cases = [
        ("{", "fault 3 json\n"),
        (
            "{\"nodes\":1,\"behaviours\":[],\"seeds\":[],\"turns\":1,\"extra\":0}",
            "fault 3 key script\n",
        ),
        (
            "{\"nodes\":1,\"behaviours\":[],\"seeds\":[]}",
            "fault 3 missing turns\n",
        ),
        (
            "{\"nodes\":1.0,\"behaviours\":[],\"seeds\":[],\"turns\":1}",
            "fault 3 kind nodes\n",
        ),
        (
            "{\"nodes\":17,\"behaviours\":[],\"seeds\":[],\"turns\":1}",
            "fault 3 range nodes\n",
        ),
        (
            "{\"nodes\":1,\"behaviours\":[],\"seeds\":[{\"node\":0,\"behaviour\":\"ghost\",\"wakes\":0}],\"turns\":1}",
            "fault 3 unknown-behaviour ghost\n",
        ),
    ];
    for (input, told) in cases {
        let (number, written) = ended(rt.alloc(), &["run", "--workers", "0"], input)?;
        assert_eq!(rt; number, 3);
        assert_eq!(rt; written.as_slice(), told.as_bytes());
    }
    Ok(())
}

#[test]
fn an_input_that_is_too_long_passes_a_limit(rt: HostRuntime) -> Result<(), Fail> {
    let words = [String::from_str(rt.alloc(), "play")?];
    let bytes = vec![in rt.alloc(); b'\n'; 16_777_217]?;
    let mut source = MemorySource::new(bytes, 65_536, Vec::new(rt.alloc()));
    let mut sink = MemorySink::new(rt.alloc(), 100, 9, Vec::new(rt.alloc()))
        .ok()
        .ok_or("memory")?;
    let status = called(rt.alloc(), &words, &mut source, &mut sink)?;
    assert_eq!(rt; status.exit_number(), 6);
    assert_eq!(rt; sink.bytes(), b"fault 6 limit input\n".as_slice());
    Ok(())
}

#[test]
fn other_words_are_refused_and_the_source_is_not_read(rt: HostRuntime) -> Result<(), Fail> {
    let cases = [
        ["play", "--help"],
        ["--brief", "play"],
        ["run", "--workers=33"],
        ["gen", "--seed=7"],
    ];
    for [command, option] in cases {
        let fails_at_once = [0].to_vec(rt.alloc())?;
        let mut source = MemorySource::new(Vec::new(rt.alloc()), 7, fails_at_once);
        let mut sink = MemorySink::new(rt.alloc(), 100, 9, Vec::new(rt.alloc()))
            .ok()
            .ok_or("memory")?;
        let words = [
            String::from_str(rt.alloc(), command)?,
            String::from_str(rt.alloc(), option)?,
        ];
        let mut kept = None;
        let status = crgc_top(
            &rt,
            rt.alloc(),
            &words,
            &mut source,
            &mut sink,
            &QuietGate,
            &mut kept,
        );
        assert_eq!(rt; status.exit_number(), 2);
        assert_eq!(rt; sink.bytes(), b"fault 2 usage\n".as_slice());
    }
    Ok(())
}

#[test]
fn a_script_is_made_and_the_source_is_not_read(rt: HostRuntime) -> Result<(), Fail> {
    let fails_at_once = [0].to_vec(rt.alloc())?;
    let mut source = MemorySource::new(Vec::new(rt.alloc()), 7, fails_at_once);
    let mut sink = MemorySink::new(rt.alloc(), 4000, 512, Vec::new(rt.alloc()))
        .ok()
        .ok_or("memory")?;
    let words = [
        String::from_str(rt.alloc(), "gen")?,
        String::from_str(rt.alloc(), "--size=1")?,
        String::from_str(rt.alloc(), "--seed")?,
        String::from_str(rt.alloc(), "7")?,
    ];
    let status = called(rt.alloc(), &words, &mut source, &mut sink)?;
    assert_eq!(rt; status.exit_number(), 0);
    assert_eq!(rt; sink.bytes().len(), 1551);
    assert!(rt;
        sink.bytes().starts_with(b"{\"behaviours\":[{\"message\":[[\"spawn\",\"y\",\"cell\"]")
    );
    assert!(rt;
        sink.bytes().ends_with(b"{\"as\":\"b\",\"from\":19,\"to\":1}],\"turns\":1000000}\n")
    );
    Ok(())
}

/// A gate that counts the turns which begin.
#[derive(Drop)]
struct CountingGate {
    turns: AtomicU64,
}

impl Gate for CountingGate {
    fn turn_begins(&self, _worker: u32, _actor: ActorId) {
        self.turns.fetch_add(1, Ordering::SeqCst);
    }
}

#[test]
fn playing_begins_no_turn(rt: HostRuntime) -> Result<(), Fail> {
    let gate = CountingGate {
        turns: AtomicU64::new(0),
    };
    let input = DROPPED_CHILD.as_bytes().to_vec(rt.alloc())?;
    let mut source = MemorySource::new(input, 7, Vec::new(rt.alloc()));
    let mut sink = MemorySink::new(rt.alloc(), 1000, 9, Vec::new(rt.alloc()))
        .ok()
        .ok_or("memory")?;
    let words = [String::from_str(rt.alloc(), "play")?];
    let mut kept = None;
    let status = crgc_top(
        &rt,
        rt.alloc(),
        &words,
        &mut source,
        &mut sink,
        &gate,
        &mut kept,
    );
    assert_eq!(rt; status.exit_number(), 0);
    assert_eq!(rt; sink.bytes(), DROPPED_CHILD_REPORT.as_bytes());
    assert_eq!(rt; gate.turns.load(Ordering::SeqCst), 0);
    assert!(rt; kept.is_none());
    Ok(())
}

#[test]
fn workers_run_a_script_to_a_report_that_replays_and_its_history_is_kept(
    rt: HostRuntime,
) -> Result<(), Fail> {
    let gate = HoldGate::new(200_000_000);
    let mut kept = None;
    let words = ["run", "--workers", "2"];
    let (number, report) = ended_by_threads(&rt, rt.alloc(), &words, TWO_WAKES, &gate, &mut kept)?;
    assert_eq!(rt; number, 0);
    assert!(rt; gate.met());
    let Some(history) = kept else {
        return Err("a history".into());
    };
    assert!(rt; history.len() >= 16);
    let text = str::from_utf8(report.as_slice()).ok().ok_or("a text")?;
    let (number, replayed) = ended(rt.alloc(), &["play"], text)?;
    assert_eq!(rt; number, 0);
    assert_eq!(rt; replayed.as_slice(), report.as_slice());
    Ok(())
}

#[test]
fn workers_tell_in_brief_what_the_fixed_schedule_tells(rt: HostRuntime) -> Result<(), Fail> {
    let mut kept = None;
    let words = ["run", "--brief", "--workers=4"];
    let (number, report) = ended_by_threads(
        &rt,
        rt.alloc(),
        &words,
        A_MESSAGE_IS_LOST,
        &QuietGate,
        &mut kept,
    )?;
    assert_eq!(rt; number, 0);
    assert_eq!(rt; report.as_slice(), A_MESSAGE_IS_LOST_IN_BRIEF.as_bytes());
    assert!(rt; kept.is_some());
    Ok(())
}

#[test]
fn a_faulty_script_begins_no_turn_and_nothing_is_kept(rt: HostRuntime) -> Result<(), Fail> {
    let gate = CountingGate {
        turns: AtomicU64::new(0),
    };
    let mut kept = None;
    let words = ["run", "--workers", "32"];
    let (number, told) = ended_by_threads(&rt, rt.alloc(), &words, "{", &gate, &mut kept)?;
    assert_eq!(rt; number, 3);
    assert_eq!(rt; told.as_slice(), b"fault 3 json\n".as_slice());
    assert_eq!(rt; gate.turns.load(Ordering::SeqCst), 0);
    assert!(rt; kept.is_none());
    Ok(())
}

#[test]
fn a_failing_edge_is_told(rt: HostRuntime) -> Result<(), Fail> {
    let words = [String::from_str(rt.alloc(), "play")?];
    let header = b"crgc 1 nodes 1\n".to_vec(rt.alloc())?;
    let mut source = MemorySource::new(header, 7, Vec::new(rt.alloc()));
    let second = [1].to_vec(rt.alloc())?;
    let mut sink = MemorySink::new(rt.alloc(), 100, 8, second)
        .ok()
        .ok_or("memory")?;
    let status = called(rt.alloc(), &words, &mut source, &mut sink)?;
    assert_eq!(rt; status.exit_number(), 5);
    assert_eq!(rt; sink.bytes(), b"crgc 1 n".as_slice());
    let first = [0].to_vec(rt.alloc())?;
    let mut broken = MemorySource::new(Vec::new(rt.alloc()), 7, first);
    let mut whole = MemorySink::new(rt.alloc(), 100, 8, Vec::new(rt.alloc()))
        .ok()
        .ok_or("memory")?;
    let status = called(rt.alloc(), &words, &mut broken, &mut whole)?;
    assert_eq!(rt; status.exit_number(), 4);
    assert_eq!(rt; whole.bytes(), b"fault 4 read\n".as_slice());
    Ok(())
}

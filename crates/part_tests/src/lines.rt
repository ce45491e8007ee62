//! Lines of worked histories, read and written with ample memory.
use crgc_ids::{ActorId, ActorList, Cut, NodeId, NodeSet};
use event_lines::{
    LineRead, append_end, append_event, append_header, append_verdict, print, read, read_header,
};
use history_model::{Event, Stop, StopList, Verdict};
use journal_model::LineFault;
use std::test::Fail;

#[test]
fn each_form_is_read_and_printed(rt: HostRuntime) -> Result<(), Fail> {
    let lines = [
        "seed 0",
        "tie 1.0 0.0",
        "wake 0.0",
        "take 1.262143",
        "spawn 15.7",
        "send 2.0 0.1",
        "send 0.0 1.0 0.1 0.1 0.1 0.1 0.1 0.1 0.1 0.1 0.1 0.1 0.1 0.1 0.1 0.1 0.1 1.1",
        "drop 0.0 0.1",
        "retire 0.0",
        "rest 0.1",
        "flush 0.0",
        "publish 0",
        "window 1 0",
        "admit 0 1 0",
        "lose 0 1 4294967295",
        "repeat 0 1 10",
        "crash 15",
        "remove 0 1",
        "hand 0 1 2",
        "sweep 10",
        "cut 0 0 lost",
        "cut 1 3 3 0 lost 2 15",
        "stop 0.1 by 0 received 2 told 1 admitted 1 owners 0.1 1.1",
        "stop 0.1 by 0 received 4294967295 told 0 admitted 0 owners",
        "end events 57 stopped 2",
    ];
    for line in lines {
        let said = read(rt.alloc(), line.as_bytes()).map_err(|_| "a line")?;
        assert_eq!(rt; print(rt.alloc(), &said)?.as_slice(), line.as_bytes());
    }
    Ok(())
}

#[test]
fn each_fault_is_told(rt: HostRuntime) -> Result<(), Fail> {
    let lines: [(&[u8], LineFault); 28] = [
        (b"", LineFault::Word),
        (b"Seed 0", LineFault::Word),
        (b" seed 0", LineFault::Word),
        (b"crgc 1 nodes 1", LineFault::Word),
        (b"seed", LineFault::Field),
        (b"seed  0", LineFault::Field),
        (b"seed 00", LineFault::Field),
        (b"seed +1", LineFault::Field),
        (b"seed 16", LineFault::Field),
        (b"seed \xff", LineFault::Field),
        (b"seed 0\r", LineFault::Field),
        (b"seed 0 ", LineFault::Extra),
        (b"wake 0", LineFault::Field),
        (b"wake 0.0.0", LineFault::Field),
        (b"wake 0.262144", LineFault::Field),
        (b"tie 0.0 1 2", LineFault::Field),
        (b"admit 0 1", LineFault::Field),
        (b"admit 0 1 4294967296", LineFault::Field),
        (b"admit 0 1 2 3", LineFault::Extra),
        (b"send 0.0 0.0 x 0.0", LineFault::Field),
        (
            b"send 0.0 0.0 0.0 0.0 0.0 0.0 0.0 0.0 0.0 0.0 0.0 0.0 0.0 0.0 0.0 0.0 0.0 0.0 0.0",
            LineFault::Extra,
        ),
        (b"cut 0 lost", LineFault::Field),
        (b"cut 0 1", LineFault::Field),
        (
            b"cut 0 1 1 1 1 1 1 1 1 1 1 1 1 1 1 1 1 1 lost",
            LineFault::Field,
        ),
        (
            b"cut 0 1 lost 0 1 2 3 4 5 6 7 8 9 10 11 12 13 14 15 0",
            LineFault::Extra,
        ),
        (
            b"stop 0.1 by 0 received 0 told 0 admitted 4294967296 owners",
            LineFault::Field,
        ),
        (
            b"stop 0.1 by 0 received 0 told 0 admitted 0",
            LineFault::Field,
        ),
        (b"end events 1 stopped 2 3", LineFault::Extra),
    ];
    for (line, fault) in lines {
        match read(rt.alloc(), line) {
            Err(LineRead::Fault(found)) => assert_eq!(rt; found, fault),
            _ => return Err("no fault".into()),
        }
    }
    Ok(())
}

#[test]
fn headers_are_read(rt: HostRuntime) -> Result<(), Fail> {
    assert_eq!(rt; read_header(b"crgc 1 nodes 1"), Some((1, 1)));
    assert_eq!(rt; read_header(b"crgc 2 nodes 16"), Some((16, 2)));
    let others: [&[u8]; 6] = [
        b"",
        b"crgc 1 nodes 0",
        b"crgc 1 nodes 17",
        b"crgc 3 nodes 1",
        b"crgc 1 nodes 1\r",
        b"crgc 1 nodes 1 ",
    ];
    for line in others {
        assert_eq!(rt; read_header(line), None);
    }
    Ok(())
}

#[test]
fn a_report_is_appended(rt: HostRuntime) -> Result<(), Fail> {
    let node = NodeId::new(0).ok_or("node 0")?;
    let actor = ActorId::new(node, 1).ok_or("actor 0.1")?;
    let mut cut = Cut::zero();
    cut.raise(node);
    let mut owners = ActorList::new(rt.alloc());
    owners.push(actor)?;
    let mut stops = StopList::new(rt.alloc());
    stops.push(Stop {
        actor,
        received: 0,
        told: 0,
        admitted: 0,
        owners,
    })?;
    let lost = NodeSet::empty();
    let verdict = Verdict {
        node,
        cut,
        lost,
        stops,
    };
    let mut out = Vec::new(rt.alloc());
    append_header(1, 1, &mut out)?;
    append_event(&Event::Sweep { node }, &mut out)?;
    append_verdict(1, &verdict, &mut out)?;
    append_end(10, 1, &mut out)?;
    let text =
        "crgc 1 nodes 1\nsweep 0\ncut 0 1 lost\nstop 0.1 by 0 received 0 told 0 admitted 0 owners 0.1\nend events 10 stopped 1\n";
    assert_eq!(rt; out.as_slice(), text.as_bytes());
    Ok(())
}

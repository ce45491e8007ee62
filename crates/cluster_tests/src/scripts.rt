//! Worked scripts, run to their reports.
use script_player::run;
use script_reader::read_script;
use std::alloc::Global;
use std::test::Fail;

const ONE_TURN: &str =
    "{\"nodes\":3,\"behaviours\":[{\"name\":\"maker\",\"wake\":[[\"spawn\",\"x\",\"cell\"],\
     [\"send\",\"b\",\"x\"],[\"send\",\"c\",\"x\"],[\"drop\",\"x\"]]},{\"name\":\"friend\",\
     \"message\":[[\"spawn\",\"y\",\"cell\"],[\"send\",\"m0\",\"y\"],[\"send\",\"y\",\"m0\"\
     ],[\"drop\",\"y\"]]},{\"name\":\"poke\",\"message\":[[\"send\",\"m0\"]]},{\"name\":\"c\
     ell\",\"message\":[[\"keep\",\"k\",\"m0\"]]}],\"seeds\":[{\"node\":0,\"behaviour\":\"m\
     aker\",\"wakes\":1},{\"node\":1,\"behaviour\":\"friend\",\"wakes\":0},{\"node\":2,\"be\
     haviour\":\"poke\",\"wakes\":0}],\"ties\":[{\"from\":0,\"to\":1,\"as\":\"b\"},{\"from\"\
     :0,\"to\":2,\"as\":\"c\"}],\"crashes\":[{\"node\":2,\"after\":1}],\"turns\":1}";

const ONE_TURN_REPORT: &str =
    "crgc 2 nodes 3\nseed 0\nseed 1\nseed 2\ntie 0.0 1.0\ntie 0.0 2.0\nwake 0.0\nspawn 0.0\n\
     send 0.0 1.0 0.1\nsend 0.0 2.0 0.1\ndrop 0.0 0.1\nrest 0.0\nadmit 0 1 0\nadmit 0 2 0\n\
     window 1 0\nwindow 2 0\nflush 0.0\nflush 0.1\npublish 0\nflush 1.0\npublish 1\nflush 2\
     .0\npublish 2\nhand 0 0 0\nhand 0 1 0\nhand 0 1 1\nhand 0 2 0\nhand 0 2 1\nhand 1 0 0\n\
     hand 1 1 0\nhand 1 1 1\nhand 1 2 0\nhand 1 2 1\nhand 2 0 0\nhand 2 1 0\nhand 2 1 1\nha\
     nd 2 2 0\nhand 2 2 1\nsweep 0\ncut 0 1 2 2 lost\nsweep 1\ncut 1 1 2 2 lost\nsweep 2\nc\
     ut 2 1 2 2 lost\nend events 40 stopped 0\n";

const MAKER_FRIEND_POKE: &str =
    "{\"nodes\":3,\n \"behaviours\":[\n  {\"name\":\"maker\",\"wake\":[[\"spawn\",\"x\",\"c\
     ell\"],[\"send\",\"b\",\"x\"],[\"send\",\"c\",\"x\"],[\"drop\",\"x\"]]},\n  {\"name\":\
     \"friend\",\"message\":[[\"spawn\",\"y\",\"cell\"],[\"send\",\"m0\",\"y\"],[\"send\",\"\
     y\",\"m0\"],[\"drop\",\"y\"]]},\n  {\"name\":\"poke\",\"message\":[[\"send\",\"m0\"]]}\
     ,\n  {\"name\":\"cell\",\"message\":[[\"keep\",\"k\",\"m0\"]]}],\n \"seeds\":[\n  {\"n\
     ode\":0,\"behaviour\":\"maker\",\"wakes\":1},\n  {\"node\":1,\"behaviour\":\"friend\",\
     \"wakes\":0},\n  {\"node\":2,\"behaviour\":\"poke\",\"wakes\":0}],\n \"ties\":[{\"from\
     \":0,\"to\":1,\"as\":\"b\"},{\"from\":0,\"to\":2,\"as\":\"c\"}],\n \"crashes\":[{\"nod\
     e\":2,\"after\":1}],\n \"turns\":100}\n";

const MAKER_FRIEND_POKE_REPORT: &str =
    "crgc 2 nodes 3\nseed 0\nseed 1\nseed 2\ntie 0.0 1.0\ntie 0.0 2.0\nwake 0.0\nspawn 0.0\n\
     send 0.0 1.0 0.1\nsend 0.0 2.0 0.1\ndrop 0.0 0.1\nrest 0.0\nadmit 0 1 0\nadmit 0 2 0\n\
     take 1.0\nspawn 1.0\nsend 1.0 0.1 1.1\nsend 1.0 1.1 0.1\ndrop 1.0 1.1\ndrop 1.0 0.1\nr\
     est 1.0\nadmit 1 0 0\ntake 0.1\nrest 0.1\ntake 1.1\nrest 1.1\ntake 2.0\nsend 2.0 0.1\n\
     drop 2.0 0.1\nrest 2.0\ncrash 2\nadmit 2 0 0\ntake 0.1\nrest 0.1\nremove 0 2\nremove 1 \
     2\nwindow 0 1\nwindow 1 0\nflush 0.0\nflush 0.1\npublish 0\nflush 1.0\nflush 1.1\npubl\
     ish 1\nhand 0 0 0\nhand 0 0 1\nhand 0 0 2\nhand 0 1 0\nhand 0 1 1\nhand 0 1 2\nhand 1 \
     0 0\nhand 1 0 1\nhand 1 0 2\nhand 1 1 0\nhand 1 1 1\nhand 1 1 2\nsweep 0\ncut 0 3 3 0 \
     lost 2\nstop 0.1 by 0 received 2 told 1 admitted 1 owners 0.1 1.1\nsweep 1\ncut 1 3 3 \
     0 lost 2\nstop 1.1 by 1 received 1 told 1 admitted 0 owners 0.1 1.1\nend events 57 sto\
     pped 2\n";

const LOST_BETWEEN_NODES: &str =
    "{\"nodes\":3,\"behaviours\":[{\"name\":\"maker\",\"wake\":[[\"spawn\",\"x\",\"cell\"]\
     ,[\"send\",\"b\",\"x\"],[\"send\",\"c\",\"x\"],[\"drop\",\"x\"]]},{\"name\":\"friend\"\
     ,\"message\":[[\"spawn\",\"y\",\"cell\"],[\"send\",\"m0\",\"y\"],[\"send\",\"y\",\"m0\
     \"],[\"drop\",\"y\"]]},{\"name\":\"poke\",\"message\":[[\"send\",\"m0\"]]},{\"name\":\
     \"cell\",\"message\":[[\"keep\",\"k\",\"m0\"]]}],\"seeds\":[{\"node\":0,\"behaviour\":\
     \"maker\",\"wakes\":1},{\"node\":1,\"behaviour\":\"friend\",\"wakes\":0},{\"node\":2,\
     \"behaviour\":\"poke\",\"wakes\":0}],\"ties\":[{\"from\":0,\"to\":1,\"as\":\"b\"},{\"f\
     rom\":0,\"to\":2,\"as\":\"c\"}],\"crashes\":[{\"node\":2,\"after\":1}],\"turns\":100,\
     \"losses\":[{\"from\":1,\"to\":0,\"number\":0}]}";

const LOST_BETWEEN_NODES_REPORT: &str =
    "crgc 2 nodes 3\nseed 0\nseed 1\nseed 2\ntie 0.0 1.0\ntie 0.0 2.0\nwake 0.0\nspawn 0.0\
     \nsend 0.0 1.0 0.1\nsend 0.0 2.0 0.1\ndrop 0.0 0.1\nrest 0.0\nadmit 0 1 0\nadmit 0 2 0\
     \ntake 1.0\nspawn 1.0\nsend 1.0 0.1 1.1\nsend 1.0 1.1 0.1\ndrop 1.0 1.1\ndrop 1.0 0.1\
     \nrest 1.0\nlose 1 0 0\ntake 1.1\nrest 1.1\ntake 2.0\nsend 2.0 0.1\ndrop 2.0 0.1\nrest \
     2.0\ncrash 2\nadmit 2 0 0\ntake 0.1\nrest 0.1\nremove 0 2\nremove 1 2\nwindow 1 0\nflu\
     sh 0.0\nflush 0.1\npublish 0\nflush 1.0\nflush 1.1\npublish 1\nhand 0 0 0\nhand 0 0 1\
     \nhand 0 1 0\nhand 0 1 1\nhand 0 1 2\nhand 1 0 0\nhand 1 0 1\nhand 1 1 0\nhand 1 1 1\n\
     hand 1 1 2\nsweep 0\ncut 0 2 3 0 lost 2\nsweep 1\ncut 1 2 3 0 lost 2\nend events 52 st\
     opped 0\n";

fn report_of(alloc: Global, text: &str, brief: bool) -> Result<Vec<u8>, Fail> {
    let script = read_script(alloc, text.as_bytes()).ok().ok_or("a script")?;
    Ok(run(alloc, script, brief).ok().ok_or("a report")?.report)
}

#[test]
fn one_turn_is_run_to_its_report(rt: HostRuntime) -> Result<(), Fail> {
    let report = report_of(rt.alloc(), ONE_TURN, false)?;
    assert_eq!(rt; report.as_slice(), ONE_TURN_REPORT.as_bytes());
    Ok(())
}

#[test]
fn three_nodes_of_which_one_crashes_are_run_to_their_report(rt: HostRuntime) -> Result<(), Fail> {
    let report = report_of(rt.alloc(), MAKER_FRIEND_POKE, false)?;
    assert_eq!(rt; report.as_slice(), MAKER_FRIEND_POKE_REPORT.as_bytes());
    Ok(())
}

#[test]
fn a_message_lost_between_nodes_is_in_the_report(rt: HostRuntime) -> Result<(), Fail> {
    let report = report_of(rt.alloc(), LOST_BETWEEN_NODES, false)?;
    assert_eq!(rt; report.as_slice(), LOST_BETWEEN_NODES_REPORT.as_bytes());
    Ok(())
}

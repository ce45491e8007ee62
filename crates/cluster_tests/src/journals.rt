//! A worked journal of a crash, played to its report, and the report played again.
use journal_player::{Cause, PlayFault, play};
use std::alloc::Global;
use std::test::Fail;

const CRASH_AFTER_ADMISSION: &str =
    "crgc 1 nodes 2\nseed 0\nseed 1\ntie 1.0 0.0\nwake 1.0\nspawn 1.0\nsend 1.0 0.0 1.1\n\
     drop 1.0 1.1\nrest 1.0\nadmit 1 0 0\ntake 0.0\nsend 0.0 1.1\nadmit 0 1 0\ntake 1.1\n\
     rest 1.1\ncrash 0\nflush 1.0\nflush 1.1\npublish 1\nhand 1 1 0\nsweep 1\nremove 1 0\n\
     hand 1 1 1\nsweep 1\n";

const CRASH_AFTER_ADMISSION_REPORT: &str =
    "crgc 1 nodes 2\nseed 0\nseed 1\ntie 1.0 0.0\nwake 1.0\nspawn 1.0\nsend 1.0 0.0 1.1\n\
     drop 1.0 1.1\nrest 1.0\nadmit 1 0 0\ntake 0.0\nsend 0.0 1.1\nadmit 0 1 0\ntake 1.1\n\
     rest 1.1\ncrash 0\nflush 1.0\nflush 1.1\npublish 1\nhand 1 1 0\nsweep 1\ncut 1 0 1 lost\n\
     remove 1 0\nhand 1 1 1\nsweep 1\ncut 1 0 2 lost 0\n\
     stop 1.1 by 1 received 1 told 0 admitted 1 owners 1.1\nend events 23 stopped 1\n";

const CRASH_AFTER_ADMISSION_BRIEF: &str =
    "crgc 1 nodes 2\nnode 0 born 1 stopped 0\nnode 1 born 2 stopped 1\ntotal born 3 stopped 1\n";

/// The journal up to its first sweep, with a cut that does not count the bulletin.
const OTHER_CUT: &str =
    "crgc 1 nodes 2\nseed 1\nflush 1.0\npublish 1\nhand 1 1 0\nsweep 1\ncut 1 0 0 lost\n";

fn played(alloc: Global, text: &str, brief: bool) -> Result<Vec<u8>, Fail> {
    let journal = Vec::from_slice(alloc, text.as_bytes())?;
    Ok(play(alloc, journal, brief).ok().ok_or("a report")?.report)
}

#[test]
fn a_crash_is_played_to_its_report(rt: HostRuntime) -> Result<(), Fail> {
    let full = played(rt.alloc(), CRASH_AFTER_ADMISSION, false)?;
    assert_eq!(rt; full.as_slice(), CRASH_AFTER_ADMISSION_REPORT.as_bytes());
    let again = played(rt.alloc(), CRASH_AFTER_ADMISSION_REPORT, false)?;
    assert_eq!(rt; again.as_slice(), CRASH_AFTER_ADMISSION_REPORT.as_bytes());
    let brief = played(rt.alloc(), CRASH_AFTER_ADMISSION_REPORT, true)?;
    assert_eq!(rt; brief.as_slice(), CRASH_AFTER_ADMISSION_BRIEF.as_bytes());
    Ok(())
}

#[test]
fn a_cut_that_is_not_due_differs(rt: HostRuntime) -> Result<(), Fail> {
    let journal = Vec::from_slice(rt.alloc(), OTHER_CUT.as_bytes())?;
    let fault = play(rt.alloc(), journal, false).err();
    let differs = PlayFault::Journal {
        line: 7,
        cause: Cause::Differs,
    };
    assert_eq!(rt; fault, Some(differs));
    Ok(())
}

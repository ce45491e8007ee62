//! How many actors were stopped.
ghost use Rattle.std.specs.Prelude.{◌≡◌, ◌<◌, ◌^◌};
ghost use Rattle.evidence_report.specs.Stops.{stops_in};

use history_model::Verdict;

/// How many actors the verdicts stop. Linear in the verdicts.
pub fn stopped_by_all(verdicts: &[Verdict]) -> u64
    requires { stops_in verdicts.now < 2 ^ 64 }
    ensures { result ≡ stops_in verdicts.now }
{
    let mut all = 0;
    for verdict in verdicts {
        all += verdict.stops.len() as u64;
    }
    all
}

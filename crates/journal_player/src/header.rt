//! The header of a journal.
ghost use Rattle.std.specs.Prelude.{◌≡◌, MatchOption, None, Some};
ghost use Rattle.std.specs.Prelude.{◌≤◌};
ghost use Rattle.journal_model.specs.Journals.{header_of};

/// The number of nodes, 1 to 16, and the version, 1 or 2, of the cluster whose header the line is; None exactly where it is
/// that of none. Linear in the line.
pub fn read_header(line: &[u8]) -> Option<(u8, u8)>
    ensures header { MatchOption result (header_of line.now ≡ None) (λ r. header_of line.now ≡ Some (record { nodes = r.0; version = r.1 })) }
    ensures in_range { MatchOption result (Unit {0}) (λ r. (1 ≤ r.0) × (r.0 ≤ 16) × (1 ≤ r.1) × (r.1 ≤ 2)) }
{
    event_lines::read_header(line)
}

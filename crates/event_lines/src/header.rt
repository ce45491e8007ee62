//! Reading the header of a history.
ghost use Rattle.std.specs.Prelude.{◌≡◌, ◌≤◌, ℕ, MatchOption};
ghost use Rattle.journal_model.specs.Lines.{header_line};
ghost use Rattle.event_lines.specs.Header.{header_numbers};

use crate::pieces::Pieces;

/// The number of nodes, 1 to 16, and the version, 1 or 2, of the header that the line spells, without its line feed;
/// None exactly where it spells none.
pub fn read_header(line: &[u8]) -> Option<(u8, u8)>
    ensures { MatchOption result
        ((nodes version : ℕ) → 1 ≤ nodes → nodes ≤ 16 → 1 ≤ version → version ≤ 2
        → header_line (record { nodes = nodes; version = version }) ≡ line.now → ⊥)
        (λ r. (1 ≤ r.0) × (r.0 ≤ 16) × (1 ≤ r.1) × (r.1 ≤ 2) × (header_line (record { nodes = r.0; version = r.1 }) ≡ line.now)) }
{
    Pieces::of(line, b' ').header()
}

impl Pieces<'_> {
    /// The words of a header, and nothing else: the number of nodes and the version.
    fn header(mut self) -> Option<(u8, u8)>
        ensures { result ≡ header_numbers self.entry }
    {
        self.name(b"crgc")?;
        let version = self.number(3)?;
        self.name(b"nodes")?;
        let nodes = self.number(17)?;
        self.end()?;
        if nodes == 0 || version == 0 {
            return None;
        }
        Some((nodes as u8, version as u8))
    }
}

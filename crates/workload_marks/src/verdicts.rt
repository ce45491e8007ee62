//! Two verdicts beside each other.
ghost use Rattle.std.specs.Prelude.{◌≡◌, ◌↔◌, IfOk, IsTrue};
ghost use Rattle.workload_marks.specs.Trio.{verdict_text};

use crate::memory::made;
use event_lines::append_verdict;
use history_model::Verdict;
use std::alloc::Global;
use std::io;

/// Whether the verdicts have the same lines, in a cluster of so many nodes, 1 to 16: the same node, cut and lost nodes, and the same
/// stops with their evidence. Linear time in the lines.
pub fn is_same(alloc: Global, nodes: u8, one: &Verdict, other: &Verdict) -> io::Result<bool>
    ensures { IfOk result (λ same. IsTrue same ↔ (verdict_text nodes one.now ≡ verdict_text nodes other.now)) }
{
    let one = lines_of(alloc, nodes, one)?;
    let other = lines_of(alloc, nodes, other)?;
    Ok(one.as_slice() == other.as_slice())
}

/// The lines of the verdict.
fn lines_of(alloc: Global, nodes: u8, verdict: &Verdict) -> io::Result<Vec<u8>>
    ensures { IfOk result (λ text. text.items ≡ verdict_text nodes verdict.now) }
{
    if nodes == 0 || nodes > 16 {
        return Err(io::ErrorKind::InvalidInput.into());
    }
    let mut text = Vec::new(alloc);
    made(append_verdict(nodes, verdict, &mut text))?;
    Ok(text)
}

//! The one spelling of a line.
ghost use Rattle.std.specs.Prelude.{◌≡◌, [], ◌∷◌, ◌++◌, map, decimal, IfOk, OnOk};
ghost use Rattle.journal_model.specs.Lines.{cut_words, line_of, spell, spelling};
ghost use Rattle.event_lines.specs.Words.{spaced};

use crate::printing::{append_end, append_event};
use crate::verdict::append_stop;
use crate::words::{Word, write, write_byte, write_word};
use crgc_ids::{NoMemory, NodeId, Octets};
use journal_model::Line;
use std::alloc::Global;

/// The one spelling of the line, without its line feed. What may be printed is read from it again. Linear time and
/// memory in it.
pub fn print(alloc: Global, line: &Line) -> Result<Octets, NoMemory>
    ensures { IfOk result (λ bytes. bytes ≡ spelling line.now) }
{
    let mut out = Vec::new(alloc);
    append(line, &mut out)?;
    out.pop();
    Ok(Octets::from_vec(out))
}

/// Appends the line with its line feed.
fn append(line: &Line, out: &mut Vec<u8>) -> Result<(), NoMemory>
    ensures { OnOk result (out.new.items ≡ out.old.items ++ line_of (spelling line.now)) }
{
    match line {
        Line::Event(event) => append_event(event, out),
        Line::Cut { node, counts, lost } => {
            append_cut(*node, counts.as_slice(), lost.as_slice(), out)
        }
        Line::Stop { by, stop } => append_stop(*by, stop, out),
        Line::End { events, stopped } => append_end(*events as u64, *stopped as u64, out),
    }
}

/// Appends the line of a cut.
fn append_cut(
    node: NodeId,
    counts: &[u32],
    lost: &[NodeId],
    out: &mut Vec<u8>,
) -> Result<(), NoMemory>
    ensures { OnOk result (out.new.items ≡ out.old.items ++ (spell (cut_words node counts.now lost.now) ++ 10 ∷ [])) }
{
    write(out, b"cut")?;
    write_word(out, &Word::of_node(node))?;
    write_numbers(counts, out)?;
    write_word(out, &Word::Name(b"lost"))?;
    write_nodes(lost, out)?;
    write_byte(out, b'\n')
}

/// Each number after a space.
fn write_numbers(numbers: &[u32], out: &mut Vec<u8>) -> Result<(), NoMemory>
    ensures { OnOk result (out.new.items ≡ out.old.items ++ spaced (map decimal numbers.now)) }
{
    for number in numbers {
        write_word(out, &Word::Number(*number as u64))?;
    }
    Ok(())
}

/// Each node after a space.
fn write_nodes(nodes: &[NodeId], out: &mut Vec<u8>) -> Result<(), NoMemory>
    ensures { OnOk result (out.new.items ≡ out.old.items ++ spaced (map decimal nodes.now)) }
{
    for node in nodes {
        write_word(out, &Word::of_node(*node))?;
    }
    Ok(())
}

//! Appending lines, each with its line feed.
ghost use Rattle.std.specs.Prelude.{◌≡◌, [], ◌∷◌, ◌++◌, decimal, OnOk, OnErr};
ghost use Rattle.journal_model.specs.Lines.{spell, end_words, event_line, header_line, line_of};

use crate::words::{Word, append_line};
use crgc_ids::{NoMemory, NodeId};
use history_model::Event;

/// Appends the line of the event. After `NoMemory` the bytes are as before. Linear time in the line.
#[inline(always)]
pub fn append_event(event: &Event, out: &mut Vec<u8>) -> Result<(), NoMemory>
    ensures ok { OnOk result (out.new.items ≡ out.old.items ++ line_of (event_line event.now)) }
    ensures err { OnErr result (out.new.items ≡ out.old.items) }
{
    match event {
        Event::Seed { node } => append_node(out, b"seed", *node),
        Event::Publish { node } => append_node(out, b"publish", *node),
        Event::Crash { node } => append_node(out, b"crash", *node),
        Event::Sweep { node } => append_node(out, b"sweep", *node),
        Event::Wake { actor } => append_line(out, b"wake", &[], &[*actor]),
        Event::Take { actor } => append_line(out, b"take", &[], &[*actor]),
        Event::Spawn { parent } => append_line(out, b"spawn", &[], &[*parent]),
        Event::Retire { actor } => append_line(out, b"retire", &[], &[*actor]),
        Event::Rest { actor } => append_line(out, b"rest", &[], &[*actor]),
        Event::Flush { actor } => append_line(out, b"flush", &[], &[*actor]),
        Event::Tie { owner, target } => append_line(out, b"tie", &[], &[*owner, *target]),
        Event::Drop { actor, target } => append_line(out, b"drop", &[], &[*actor, *target]),
        Event::Send { from, to, refs } => {
            let ends = [Word::ActorName(*from), Word::ActorName(*to)];
            append_line(out, b"send", &ends, refs.as_slice())
        }
        Event::Window { at, from } => append_nodes(out, b"window", *at, *from),
        Event::Remove { at, gone } => append_nodes(out, b"remove", *at, *gone),
        Event::Admit { from, at, number } => append_link(out, b"admit", *from, *at, *number),
        Event::Lose { from, at, number } => append_link(out, b"lose", *from, *at, *number),
        Event::Repeat { from, at, number } => append_link(out, b"repeat", *from, *at, *number),
        Event::Hand { to, origin, number } => append_link(out, b"hand", *to, *origin, *number),
    }
}

/// Appends a line with a node.
fn append_node(out: &mut Vec<u8>, name: &[u8], node: NodeId) -> Result<(), NoMemory>
    ensures ok { OnOk result (out.new.items ≡ out.old.items ++ (spell (name.now ∷ decimal node ∷ []) ++ 10 ∷ [])) }
    ensures err { OnErr result (out.new.items ≡ out.old.items) }
{
    append_line(out, name, &[Word::of_node(node)], &[])
}

/// Appends a line with two nodes.
fn append_nodes(
    out: &mut Vec<u8>,
    name: &[u8],
    first: NodeId,
    second: NodeId,
) -> Result<(), NoMemory>
    ensures ok { OnOk result (out.new.items ≡ out.old.items ++ (spell (name.now ∷ decimal first ∷ decimal second ∷ []) ++ 10 ∷ [])) }
    ensures err { OnErr result (out.new.items ≡ out.old.items) }
{
    append_line(
        out,
        name,
        &[Word::of_node(first), Word::of_node(second)],
        &[],
    )
}

/// Appends a line with two nodes and a number.
fn append_link(
    out: &mut Vec<u8>,
    name: &[u8],
    first: NodeId,
    second: NodeId,
    number: u32,
) -> Result<(), NoMemory>
    ensures ok { OnOk result
        (out.new.items
        ≡ out.old.items ++ (spell (name.now ∷ decimal first ∷ decimal second ∷ decimal number ∷ []) ++ 10 ∷ [])) }
    ensures err { OnErr result (out.new.items ≡ out.old.items) }
{
    let words = [
        Word::of_node(first),
        Word::of_node(second),
        Word::Number(number as u64),
    ];
    append_line(out, name, &words, &[])
}

/// Appends the header of a history of so many nodes, in this version. After `NoMemory` the bytes are as before.
pub fn append_header(nodes: u8, version: u8, out: &mut Vec<u8>) -> Result<(), NoMemory>
    ensures ok { OnOk result (out.new.items ≡ out.old.items ++ line_of (header_line (record { nodes = nodes; version = version }))) }
    ensures err { OnErr result (out.new.items ≡ out.old.items) }
{
    let words = [
        Word::Number(version as u64),
        Word::Name(b"nodes"),
        Word::Number(nodes as u64),
    ];
    append_line(out, b"crgc", &words, &[])
}

/// Appends the last line of a report: how many events the history has, and how many actors were stopped. After
/// `NoMemory` the bytes are as before.
pub fn append_end(events: u64, stopped: u64, out: &mut Vec<u8>) -> Result<(), NoMemory>
    ensures ok { OnOk result (out.new.items ≡ out.old.items ++ (spell (end_words events stopped) ++ 10 ∷ [])) }
    ensures err { OnErr result (out.new.items ≡ out.old.items) }
{
    let words = [
        Word::Name(b"events"),
        Word::Number(events),
        Word::Name(b"stopped"),
        Word::Number(stopped),
    ];
    append_line(out, b"end", &words, &[])
}

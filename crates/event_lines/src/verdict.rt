//! Appending the lines of a verdict.
ghost use Rattle.std.specs.Prelude.{◌≡◌, ◌≤◌, [], ◌∷◌, ◌++◌, decimal, map, take, OnOk, OnErr};
ghost use Rattle.journal_model.specs.Lines.{cut_words, spell, stop_words, text_of};
ghost use Rattle.event_lines.specs.Words.{BeginsWith, spaced};

use crate::words::{Word, append_line, write, write_byte, write_word};
use crgc_ids::{Cut, NoMemory, NodeId, NodeSet};
use history_model::{Stop, Verdict};

/// Appends the cut line and the stop lines of the verdict, in a cluster of so many nodes. After `NoMemory` the bytes
/// are as before. Linear time in the lines.
pub fn append_verdict(nodes: u8, verdict: &Verdict, out: &mut Vec<u8>) -> Result<(), NoMemory>
    requires some { 1 ≤ nodes }
    requires nodes { nodes ≤ 16 }
    ensures ok { OnOk result (out.new.items ≡ out.old.items ++ text_of (spell (cut_words verdict.now.node (take nodes verdict.now.cut) verdict.now.lost)
        ∷ map (λ s. spell (stop_words verdict.now.node s)) verdict.now.stops)) }
    ensures err { OnErr result (out.new.items ≡ out.old.items) }
{
    let start = out.len();
    match write_verdict(nodes, verdict, out) {
        Ok(()) => Ok(()),
        Err(_) => {
            out.truncate(start);
            Err(NoMemory)
        }
    }
}

fn write_verdict(nodes: u8, verdict: &Verdict, out: &mut Vec<u8>) -> Result<(), NoMemory>
    requires nodes { nodes ≤ 16 }
    ensures ok { OnOk result (out.new.items ≡ out.old.items ++ text_of (spell (cut_words verdict.now.node (take nodes verdict.now.cut) verdict.now.lost)
        ∷ map (λ s. spell (stop_words verdict.now.node s)) verdict.now.stops)) }
    ensures err { OnErr result (BeginsWith out.old.items out.new.items) }
{
    write_cut(nodes, verdict, out)?;
    write_stops(verdict.node, verdict.stops.as_slice(), out)
}

fn write_cut(nodes: u8, verdict: &Verdict, out: &mut Vec<u8>) -> Result<(), NoMemory>
    requires nodes { nodes ≤ 16 }
    ensures ok { OnOk result (out.new.items
        ≡ out.old.items ++ (spell (cut_words verdict.now.node (take nodes verdict.now.cut) verdict.now.lost) ++ 10 ∷ [])) }
    ensures err { OnErr result (BeginsWith out.old.items out.new.items) }
{
    write(out, b"cut")?;
    write_word(out, &Word::of_node(verdict.node))?;
    write_counts(nodes, &verdict.cut, out)?;
    write_word(out, &Word::Name(b"lost"))?;
    write_members(verdict.lost, out)?;
    write_byte(out, b'\n')
}

/// The counts of the nodes below `nodes`, each after a space.
fn write_counts(nodes: u8, cut: &Cut, out: &mut Vec<u8>) -> Result<(), NoMemory>
    requires nodes { nodes ≤ 16 }
    ensures ok { OnOk result (out.new.items ≡ out.old.items ++ spaced (map decimal (take nodes cut.now))) }
    ensures err { OnErr result (BeginsWith out.old.items out.new.items) }
{
    for n in 0..nodes {
        let node = NodeId::new(n).unwrap();
        write_word(out, &Word::Number(cut.at(node) as u64))?;
    }
    Ok(())
}

/// The members of the set, each after a space.
fn write_members(set: NodeSet, out: &mut Vec<u8>) -> Result<(), NoMemory>
    ensures ok { OnOk result (out.new.items ≡ out.old.items ++ spaced (map decimal set)) }
    ensures err { OnErr result (BeginsWith out.old.items out.new.items) }
{
    for n in 0..16 {
        let node = NodeId::new(n).unwrap();
        if set.contains(node) {
            write_word(out, &Word::of_node(node))?;
        }
    }
    Ok(())
}

fn write_stops(by: NodeId, stops: &[Stop], out: &mut Vec<u8>) -> Result<(), NoMemory>
    ensures ok { OnOk result (out.new.items ≡ out.old.items ++ text_of (map (λ s. spell (stop_words by s)) stops.now)) }
    ensures err { OnErr result (BeginsWith out.old.items out.new.items) }
{
    for stop in stops {
        append_stop(by, stop, out)?;
    }
    Ok(())
}

pub fn append_stop(by: NodeId, stop: &Stop, out: &mut Vec<u8>) -> Result<(), NoMemory>
    ensures ok { OnOk result (out.new.items ≡ out.old.items ++ (spell (stop_words by stop.now) ++ 10 ∷ [])) }
    ensures err { OnErr result (out.new.items ≡ out.old.items) }
{
    let words = [
        Word::ActorName(stop.actor),
        Word::Name(b"by"),
        Word::of_node(by),
        Word::Name(b"received"),
        Word::Number(stop.received),
        Word::Name(b"told"),
        Word::Number(stop.told),
        Word::Name(b"admitted"),
        Word::Number(stop.admitted),
        Word::Name(b"owners"),
    ];
    append_line(out, b"stop", &words, stop.owners.as_slice())
}

//! The report in brief.
ghost use Rattle.std.specs.Prelude.{◌≡◌, ◌≤◌, ◌++◌, [], ◌∷◌, codes, decimal, map, sum_by, IfOk, OnOk};
ghost use Rattle.crgc_ids.specs.Nodes.{nodes_below};
ghost use Rattle.history_model.specs.Cluster.{births};
ghost use Rattle.journal_model.specs.Lines.{line_of, spell, text_of};
ghost use Rattle.journal_model.specs.Report.{brief_of, node_words, stopped_on};
ghost use Rattle.evidence_report.specs.Pieces.{counts_text};

use crate::text::{append, append_number};
use crgc_ids::{NoMemory, NodeId};
use event_lines::append_header;
use std::alloc::Global;
use true_config::World;

/// The report of the world's history in brief. Constant time: the nodes are 16 at most.
pub fn brief_report(alloc: Global, world: &World) -> Result<Vec<u8>, NoMemory>
    ensures { IfOk result (λ text. text.items ≡ brief_of world.now.cluster world.now.past) }
{
    world.is_lawful();
    let mut text = Vec::new(alloc);
    append_header(world.nodes(), world.version(), &mut text)?;
    let (born, stopped) = append_nodes(world, &mut text)?;
    append(&mut text, b"total")?;
    append_counts(&mut text, born, stopped)?;
    Ok(text)
}

/// Appends the line of each node, and answers how many actors were born and how many stopped on all of them.
fn append_nodes(world: &World, text: &mut Vec<u8>) -> Result<(u64, u64), NoMemory>
    ensures lines { OnOk result (text.new.items ≡ text.old.items
        ++ text_of (map (λ n. spell (node_words world.now.cluster world.now.past n)) (nodes_below world.now.cluster.nodes))) }
    ensures born { IfOk result (λ sums. sums.0 ≡ sum_by (λ n. births n world.now.past) (nodes_below world.now.cluster.nodes)) }
    ensures stopped { IfOk result (λ sums. sums.1 ≡ sum_by (λ n. stopped_on world.now.cluster n world.now.past) (nodes_below world.now.cluster.nodes)) }
{
    // No more actors are stopped than born, and no more born than there are events.
    world.is_lawful();
    let _events = world.len();
    let mut born = 0;
    let mut stopped = 0;
    for n in 0..world.nodes() {
        let node = NodeId::new(n).unwrap();
        let born_here = u64::from(world.born(node));
        let stopped_here = u64::from(world.stopped(node));
        append_node(text, node, born_here, stopped_here)?;
        born += born_here;
        stopped += stopped_here;
    }
    Ok((born, stopped))
}

/// Appends the line of a node on which so many actors were born and stopped.
fn append_node(text: &mut Vec<u8>, node: NodeId, born: u64, stopped: u64) -> Result<(), NoMemory>
    ensures { OnOk result (text.new.items ≡ text.old.items
        ++ line_of (spell (codes "node" ∷ decimal node ∷ codes "born" ∷ decimal born ∷ codes "stopped" ∷ decimal stopped ∷ []))) }
{
    append(text, b"node ")?;
    append_number(text, node.get() as u64)?;
    append_counts(text, born, stopped)
}

/// Appends the rest of a line that counts the born and the stopped.
fn append_counts(text: &mut Vec<u8>, born: u64, stopped: u64) -> Result<(), NoMemory>
    ensures { OnOk result (text.new.items ≡ text.old.items ++ counts_text born stopped) }
{
    append(text, b" born ")?;
    append_number(text, born)?;
    append(text, b" stopped ")?;
    append_number(text, stopped)?;
    append(text, b"\n")
}

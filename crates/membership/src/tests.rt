//! Removed and lost nodes of worked histories.
ghost use Rattle.std.specs.Prelude.{◌≡◌, IfOk};

use crate::Finals;
use crgc_ids::{NodeId, NodeSet};
use std::test::Fail;

fn node(number: u8) -> Result<NodeId, Fail>
    ensures { IfOk result (λ n. n ≡ number) }
{
    let Some(node) = NodeId::new(number) else {
        return Err(Fail::from("a node of 16 or above"));
    };
    Ok(node)
}

fn note(finals: &mut Finals, nodes: u8, from: u8, at: u8) -> Result<(), Fail>
    requires { finals.old.nodes ≡ nodes }
    ensures { finals.new.nodes ≡ nodes }
{
    let source = node(from)?;
    let destination = node(at)?;
    if from < nodes && at < nodes && from != at {
        finals.note_final(source, destination);
    }
    Ok(())
}

#[test]
fn a_node_is_lost_once_all_others_removed_it(rt: HostRuntime) -> Result<(), Fail> {
    let removed = NodeSet::empty().with(node(0)?);
    let mut finals = Finals::new(3);
    note(&mut finals, 3, 0, 1)?;
    assert_eq!(rt; finals.removed(), removed);
    assert_eq!(rt; finals.lost(), NodeSet::empty());
    note(&mut finals, 3, 0, 2)?;
    assert_eq!(rt; finals.removed(), removed);
    assert_eq!(rt; finals.lost(), removed);
    Ok(())
}

#[test]
fn two_nodes_are_lost_together(rt: HostRuntime) -> Result<(), Fail> {
    let both = NodeSet::empty().with(node(2)?).with(node(3)?);
    let mut finals = Finals::new(4);
    note(&mut finals, 4, 2, 0)?;
    note(&mut finals, 4, 3, 0)?;
    note(&mut finals, 4, 2, 1)?;
    assert_eq!(rt; finals.removed(), both);
    assert_eq!(rt; finals.lost(), NodeSet::empty());
    note(&mut finals, 4, 3, 1)?;
    assert_eq!(rt; finals.lost(), both);
    Ok(())
}

//! Bulletins made by dice, with rows on four actors.
use crate::dice::Dice;
use std::alloc::{AllocError, Global};

/// What a bulletin is.
#[derive(Clone, Copy, PartialEq, Eq)]
pub enum Kind {
    Delta,
    Window,
    Final,
}

/// A row of a bulletin, on actors by their places in the table of four.
#[derive(Clone, Copy)]
pub enum Row {
    State {
        actor: u8,
        received: u8,
        busy: bool,
        root: bool,
    },
    Messages {
        actor: u8,
    },
    References {
        owner: u8,
        target: u8,
        count: u8,
    },
    Released {
        owner: u8,
        target: u8,
    },
}

/// A bulletin of a node; a window or a Final is of its link from another.
#[derive(Drop)]
pub struct Sheet {
    pub kind: Kind,
    pub node: u8,
    pub from: u8,
    pub rows: Vec<Row>,
}

/// The node and the serial of the actor at the place, in a cluster of two or of three nodes.
pub fn actor_at(nodes: u8, place: u8) -> (u8, u8) {
    match place {
        0 => (0, 0),
        1 => (0, 1),
        2 => (1, 0),
        _ if nodes == 2 => (1, 1),
        _ => (2, 0),
    }
}

/// The bulletin of the node with this number, 0 or 1. The second is mostly the Final of the link from the victim.
pub fn make_sheet(
    alloc: Global,
    nodes: u8,
    victim: u8,
    node: u8,
    number: u8,
    dice: &mut Dice,
) -> Result<Sheet, AllocError> {
    let (kind, from) = if number == 1 && node != victim && !dice.shows(4) {
        (Kind::Final, victim)
    } else if dice.shows(4) {
        (Kind::Window, other(nodes, node, dice))
    } else if dice.shows(8) {
        (Kind::Final, other(nodes, node, dice))
    } else {
        (Kind::Delta, 0)
    };
    let rows = rows_of(alloc, nodes, kind, node, dice)?;
    Ok(Sheet {
        kind,
        node,
        from,
        rows,
    })
}

/// Another node.
fn other(nodes: u8, node: u8, dice: &mut Dice) -> u8 {
    let step = if nodes == 3 && dice.shows(2) { 2 } else { 1 };
    let next = node.saturating_add(step);
    if next >= nodes { next - nodes } else { next }
}

/// Rows of the bulletin, section by section, each rising.
fn rows_of(
    alloc: Global,
    nodes: u8,
    kind: Kind,
    node: u8,
    dice: &mut Dice,
) -> Result<Vec<Row>, AllocError> {
    let mut rows = Vec::new(alloc);
    if kind == Kind::Delta {
        add_states(nodes, node, dice, &mut rows)?;
    }
    add_messages(dice, &mut rows)?;
    add_references(dice, &mut rows)?;
    if kind == Kind::Delta {
        add_released(dice, &mut rows)?;
    }
    Ok(rows)
}

/// States of most actors of the node, and of few others.
fn add_states(nodes: u8, node: u8, dice: &mut Dice, rows: &mut Vec<Row>) -> Result<(), AllocError> {
    for actor in 0..4u8 {
        let is_told = if actor_at(nodes, actor).0 == node {
            !dice.shows(6)
        } else {
            dice.shows(12)
        };
        if is_told {
            let received = if dice.shows(5) { 1 } else { 0 };
            let busy = dice.shows(12);
            let root = dice.shows(12);
            rows.push(Row::State {
                actor,
                received,
                busy,
                root,
            })?;
        }
    }
    Ok(())
}

/// Messages to few actors.
fn add_messages(dice: &mut Dice, rows: &mut Vec<Row>) -> Result<(), AllocError> {
    for actor in 0..4u8 {
        if dice.shows(10) {
            rows.push(Row::Messages { actor })?;
        }
    }
    Ok(())
}

/// References of few actors to few actors.
fn add_references(dice: &mut Dice, rows: &mut Vec<Row>) -> Result<(), AllocError> {
    for pair in 0..16u8 {
        if dice.shows(10) {
            let count = if dice.shows(4) { 2 } else { 1 };
            rows.push(Row::References {
                owner: pair / 4,
                target: pair % 4,
                count,
            })?;
        }
    }
    Ok(())
}

/// References that few actors released.
fn add_released(dice: &mut Dice, rows: &mut Vec<Row>) -> Result<(), AllocError> {
    for pair in 0..16u8 {
        if dice.shows(16) {
            rows.push(Row::Released {
                owner: pair / 4,
                target: pair % 4,
            })?;
        }
    }
    Ok(())
}

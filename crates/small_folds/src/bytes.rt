//! The bytes of bulletins, all counts of which are below 256.
use crate::bulletins::{Kind, Row, Sheet, actor_at};
use std::alloc::{AllocError, Global};

/// The bytes of the bulletin.
pub fn bytes_of(alloc: Global, nodes: u8, sheet: &Sheet) -> Result<Vec<u8>, AllocError> {
    let rows = sheet.rows.as_slice();
    let mut out = Vec::new(alloc);
    out.extend_from_slice(b"CRG1")?;
    put_kind(&mut out, sheet)?;
    put_table(&mut out, nodes, rows)?;
    if sheet.kind == Kind::Delta {
        put_states(&mut out, rows)?;
    }
    put_messages(&mut out, rows)?;
    put_references(&mut out, rows)?;
    if sheet.kind == Kind::Delta {
        put_released(&mut out, rows)?;
    }
    Ok(out)
}

/// The kind and the nodes.
fn put_kind(out: &mut Vec<u8>, sheet: &Sheet) -> Result<(), AllocError> {
    match sheet.kind {
        Kind::Delta => out.extend_from_slice(&[1, sheet.node]),
        Kind::Window => out.extend_from_slice(&[2, sheet.node, sheet.from]),
        Kind::Final => out.extend_from_slice(&[3, sheet.node, sheet.from]),
    }
}

/// The actors that rows name.
fn put_table(out: &mut Vec<u8>, nodes: u8, rows: &[Row]) -> Result<(), AllocError> {
    out.extend_from_slice(&[0, index_of(rows, 4)])?;
    for actor in 0..4u8 {
        if is_named(rows, actor) {
            let (node, serial) = actor_at(nodes, actor);
            out.extend_from_slice(&[node, 0, 0, 0, serial])?;
        }
    }
    Ok(())
}

/// Whether a row names the actor.
fn is_named(rows: &[Row], actor: u8) -> bool {
    rows.iter().any(|row| names(*row, actor))
}

fn names(row: Row, named: u8) -> bool {
    match row {
        Row::State { actor, .. } | Row::Messages { actor } => actor == named,
        Row::References { owner, target, .. } | Row::Released { owner, target } => {
            owner == named || target == named
        }
    }
}

/// How many actors before this one are named: its index in the bulletin's own table, if it is named.
fn index_of(rows: &[Row], actor: u8) -> u8 {
    let mut index = 0u8;
    for other in 0..actor {
        if is_named(rows, other) {
            index = index.saturating_add(1);
        }
    }
    index
}

fn put_states(out: &mut Vec<u8>, rows: &[Row]) -> Result<(), AllocError> {
    out.extend_from_slice(&[0, count(rows, 0)])?;
    for row in rows {
        if let Row::State {
            actor,
            received,
            busy,
            root,
        } = *row
        {
            let flags = if busy { 1 } else { 0 } + if root { 2 } else { 0 };
            let index = index_of(rows, actor);
            out.extend_from_slice(&[0, index, 0, 0, 0, received, flags])?;
        }
    }
    Ok(())
}

fn put_messages(out: &mut Vec<u8>, rows: &[Row]) -> Result<(), AllocError> {
    out.extend_from_slice(&[0, count(rows, 1)])?;
    for row in rows {
        if let Row::Messages { actor } = *row {
            out.extend_from_slice(&[0, index_of(rows, actor), 0, 0, 0, 1])?;
        }
    }
    Ok(())
}

fn put_references(out: &mut Vec<u8>, rows: &[Row]) -> Result<(), AllocError> {
    out.extend_from_slice(&[0, 0, 0, count(rows, 2)])?;
    for row in rows {
        if let Row::References {
            owner,
            target,
            count,
        } = *row
        {
            put_pair(out, rows, owner, target, count)?;
        }
    }
    Ok(())
}

fn put_released(out: &mut Vec<u8>, rows: &[Row]) -> Result<(), AllocError> {
    out.extend_from_slice(&[0, 0, 0, count(rows, 3)])?;
    for row in rows {
        if let Row::Released { owner, target } = *row {
            put_pair(out, rows, owner, target, 1)?;
        }
    }
    Ok(())
}

fn put_pair(
    out: &mut Vec<u8>,
    rows: &[Row],
    owner: u8,
    target: u8,
    count: u8,
) -> Result<(), AllocError> {
    let owner = index_of(rows, owner);
    let target = index_of(rows, target);
    out.extend_from_slice(&[0, owner, 0, target, 0, 0, 0, count])
}

/// How many rows the section with this number, from 0, has.
fn count(rows: &[Row], wanted: u8) -> u8 {
    let mut count = 0u8;
    for row in rows {
        if section(*row) == wanted {
            count = count.saturating_add(1);
        }
    }
    count
}

fn section(row: Row) -> u8 {
    match row {
        Row::State { .. } => 0,
        Row::Messages { .. } => 1,
        Row::References { .. } => 2,
        Row::Released { .. } => 3,
    }
}

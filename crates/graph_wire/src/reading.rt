//! Bytes to bulletins.
ghost use Rattle.std.specs.Prelude.{◌≡◌, ◌<◌, true, [], ◌∷◌, IfOk, None};
ghost use Rattle.crgc_ids.specs.Actor.{is_actor_below};
ghost use Rattle.wire_grammar.specs.Fields.{is_above, number_at, rows_at};
ghost use Rattle.wire_grammar.specs.Named.{state_names, count_names, pair_names};
ghost use Rattle.wire_grammar.specs.Spelling.{index_len};
ghost use Rattle.wire_grammar.specs.Reading.{node_at, actor_at, table_row, table_len_at, table_at, index_at, flags_at, count_at, key_at, is_pair_below, pair_key_at, state_row, count_row, pair_row, states_at, counts_at, pairs_at};
ghost use Rattle.graph_wire.specs.Gives.{Gives};
ghost use Rattle.graph_wire.specs.Marks.{actors_of, GivesTable, IsFresh, Marks};

use crate::fault::{ReadFault, fault};
use crate::table::{TableActor, mark};
use crgc_bytes::Cursor;
use crgc_ids::{
    ActorCount, ActorCounts, ActorId, NoMemory, NodeId, PairCount, PairCounts, RisingList, Row,
};
use history_model::{StateRow, StateRows};
use std::mem;
use wire_grammar::WireKind;

/// For how many rows there is room at first, at most: a count that is read may be too high, and then 786,432 bytes are asked for at
/// most, and given back unused.
const MOST_AT_FIRST: u32 = 65_536;

/// The spare vector, emptied, with room for so many rows, or for some of them.
fn with_room<T: Copy>(spare: &mut Vec<T>, count: u32) -> Result<Vec<T>, NoMemory>
    ensures { IfOk result (λ v. v.items ≡ []) }
{
    let alloc = *spare.allocator();
    let mut rows = mem::replace(spare, Vec::new(alloc));
    rows.clear();
    match rows.reserve(count.min(MOST_AT_FIRST) as usize) {
        Ok(()) => Ok(rows),
        Err(_) => Err(NoMemory),
    }
}

/// A list of no rows with room for so many, or for some of them, in the spare vector.
fn no_rows<T: Row>(spare: &mut Vec<T>, count: u32) -> Result<RisingList<T>, NoMemory>
    ensures { IfOk result (λ l. l ≡ []) }
{
    match with_room(spare, count) {
        Ok(rows) => Ok(RisingList::from_vec(rows)),
        Err(_) => Err(NoMemory),
    }
}

pub fn u8_at(cursor: &mut Cursor<'_>) -> Result<u8, ReadFault>
    ensures { Gives cursor.new result (number_at 1 cursor.old) }
{
    let offset = cursor.offset();
    match cursor.take_u8() {
        Some(number) => Ok(number),
        None => Err(fault(WireKind::Short, offset)),
    }
}

fn u16_at(cursor: &mut Cursor<'_>) -> Result<u16, ReadFault>
    ensures { Gives cursor.new result (number_at 2 cursor.old) }
{
    let offset = cursor.offset();
    match cursor.take_u16() {
        Some(number) => Ok(number),
        None => Err(fault(WireKind::Short, offset)),
    }
}

pub fn u32_at(cursor: &mut Cursor<'_>) -> Result<u32, ReadFault>
    ensures { Gives cursor.new result (number_at 4 cursor.old) }
{
    let offset = cursor.offset();
    match cursor.take_u32() {
        Some(number) => Ok(number),
        None => Err(fault(WireKind::Short, offset)),
    }
}

/// A number in two bytes, or in four in the wide form.
fn len_at(cursor: &mut Cursor<'_>, wide: bool) -> Result<u32, ReadFault>
    ensures { Gives cursor.new result (number_at (index_len wide) cursor.old) }
{
    if wide {
        u32_at(cursor)
    } else {
        Ok(u32::from(u16_at(cursor)?))
    }
}

pub fn node_at(cursor: &mut Cursor<'_>) -> Result<NodeId, ReadFault>
    ensures { Gives cursor.new result (node_at cursor.old) }
{
    let offset = cursor.offset();
    let number = u8_at(cursor)?;
    match NodeId::new(number) {
        Some(node) => Ok(node),
        None => Err(fault(WireKind::Node, offset)),
    }
}

fn actor_at(cursor: &mut Cursor<'_>) -> Result<ActorId, ReadFault>
    ensures { Gives cursor.new result (actor_at cursor.old) }
{
    let node = node_at(cursor)?;
    let offset = cursor.offset();
    let serial = u32_at(cursor)?;
    match ActorId::new(node, serial) {
        Some(actor) => Ok(actor),
        None => Err(fault(WireKind::Node, offset)),
    }
}

/// Whether the actor is above the one before it.
fn is_above(last: Option<ActorId>, actor: ActorId) -> bool
    ensures { result ≡ is_above is_actor_below last actor }
{
    match last {
        None => true,
        Some(last) => last < actor,
    }
}

fn table_row(cursor: &mut Cursor<'_>, last: Option<ActorId>) -> Result<ActorId, ReadFault>
    ensures gives { Gives cursor.new result (table_row last cursor.old) }
    ensures above { IfOk result (λ a. is_above is_actor_below last a ≡ true) }
{
    let offset = cursor.offset();
    let actor = actor_at(cursor)?;
    if !is_above(last, actor) {
        return Err(fault(WireKind::Order, offset));
    }
    Ok(actor)
}

fn table_len(cursor: &mut Cursor<'_>, wide: bool) -> Result<u32, ReadFault>
    ensures { Gives cursor.new result (table_len_at wide cursor.old) }
{
    let offset = cursor.offset();
    let count = len_at(cursor, wide)?;
    if wide && count <= 65_535 {
        return Err(fault(WireKind::Narrow, offset));
    }
    Ok(count)
}

fn table_rows(
    spare: &mut Vec<TableActor>,
    cursor: &mut Cursor<'_>,
    count: u32,
) -> Result<Vec<TableActor>, ReadFault>
    ensures gives { GivesTable cursor.new result (rows_at (λ a. a) table_row count None cursor.old) }
    ensures fresh { IfOk result (λ t. IsFresh t.items) }
{
    let mut table = with_room(spare, count)?;
    let mut last = None;
    let mut own = cursor.copy();
    for i in 0..count {
        let actor = table_row(&mut own, last)?;
        let named = false;
        table.push(TableActor { actor, named })?;
        last = Some(actor);
    }
    *cursor = own;
    Ok(table)
}

/// The rising table of a bulletin's actors, which no row names yet, in the spare vector.
#[tactic(auto, unfolding(wire_grammar::specs::Reading::table_at))]
pub fn table_at(
    spare: &mut Vec<TableActor>,
    cursor: &mut Cursor<'_>,
    wide: bool,
) -> Result<Vec<TableActor>, ReadFault>
    ensures gives { GivesTable cursor.new result (table_at wide cursor.old) }
    ensures fresh { IfOk result (λ t. IsFresh t.items) }
{
    let count = table_len(cursor, wide)?;
    table_rows(spare, cursor, count)
}

/// The table's actor at the index that is read; it is marked.
#[tactic(auto, unfolding(wire_grammar::specs::Reading::index_at))]
fn index_at(
    cursor: &mut Cursor<'_>,
    wide: bool,
    table: &mut [TableActor],
) -> Result<ActorId, ReadFault>
    ensures gives { Gives cursor.new result (index_at wide (actors_of table.old) cursor.old) }
    ensures marks { IfOk result (λ a. Marks (a ∷ []) table.old table.new) }
{
    let offset = cursor.offset();
    let index = len_at(cursor, wide)?;
    match mark(table, index as usize) {
        Some(actor) => Ok(actor),
        None => Err(fault(WireKind::Index, offset)),
    }
}

/// The actor of a row, above the one of the row before it.
fn key_at(
    cursor: &mut Cursor<'_>,
    wide: bool,
    table: &mut [TableActor],
    last: Option<ActorId>,
) -> Result<ActorId, ReadFault>
    ensures gives { Gives cursor.new result (key_at wide (actors_of table.old) last cursor.old) }
    ensures marks { IfOk result (λ a. Marks (a ∷ []) table.old table.new) }
    ensures above { IfOk result (λ a. is_above is_actor_below last a ≡ true) }
{
    let offset = cursor.offset();
    let actor = index_at(cursor, wide, table)?;
    if !is_above(last, actor) {
        return Err(fault(WireKind::Order, offset));
    }
    Ok(actor)
}

fn is_pair_below(first: (ActorId, ActorId), second: (ActorId, ActorId)) -> bool
    ensures { result ≡ is_pair_below first second }
{
    first.0 < second.0 || (first.0 == second.0 && first.1 < second.1)
}

/// Whether the pair is above the one before it.
fn is_pair_above(last: Option<(ActorId, ActorId)>, pair: (ActorId, ActorId)) -> bool
    ensures { result ≡ is_above is_pair_below last pair }
{
    match last {
        None => true,
        Some(last) => is_pair_below(last, pair),
    }
}

/// The owner and the target of a row, above those of the row before it.
fn pair_key_at(
    cursor: &mut Cursor<'_>,
    wide: bool,
    table: &mut [TableActor],
    last: Option<(ActorId, ActorId)>,
) -> Result<(ActorId, ActorId), ReadFault>
    ensures gives { Gives cursor.new result (pair_key_at wide (actors_of table.old) last cursor.old) }
    ensures marks { IfOk result (λ p. Marks (p.0 ∷ p.1 ∷ []) table.old table.new) }
    ensures above { IfOk result (λ p. is_above is_pair_below last p ≡ true) }
{
    let offset = cursor.offset();
    let owner = index_at(cursor, wide, table)?;
    let target = index_at(cursor, wide, table)?;
    if !is_pair_above(last, (owner, target)) {
        return Err(fault(WireKind::Order, offset));
    }
    Ok((owner, target))
}

fn flags_at(cursor: &mut Cursor<'_>) -> Result<u8, ReadFault>
    ensures { Gives cursor.new result (flags_at cursor.old) }
{
    let offset = cursor.offset();
    let flags = u8_at(cursor)?;
    if flags > 3 {
        return Err(fault(WireKind::Flags, offset));
    }
    Ok(flags)
}

fn count_at(cursor: &mut Cursor<'_>) -> Result<u32, ReadFault>
    ensures gives { Gives cursor.new result (count_at cursor.old) }
    ensures stands { IfOk result (λ n. 0 < n) }
{
    let offset = cursor.offset();
    let count = u32_at(cursor)?;
    if count == 0 {
        return Err(fault(WireKind::Zero, offset));
    }
    Ok(count)
}

#[tactic(auto, unfolding(wire_grammar::specs::Reading::state_row))]
fn state_row(
    cursor: &mut Cursor<'_>,
    wide: bool,
    table: &mut [TableActor],
    last: Option<ActorId>,
) -> Result<StateRow, ReadFault>
    ensures gives { Gives cursor.new result (state_row wide (actors_of table.old) last cursor.old) }
    ensures marks { IfOk result (λ r. Marks (r.actor ∷ []) table.old table.new) }
    ensures above { IfOk result (λ r. is_above is_actor_below last r.actor ≡ true) }
{
    let actor = key_at(cursor, wide, table, last)?;
    let received = u32_at(cursor)?;
    let flags = flags_at(cursor)?;
    Ok(StateRow {
        actor,
        received,
        busy: flags % 2 == 1,
        root: flags > 1,
    })
}

#[tactic(auto, unfolding(wire_grammar::specs::Reading::count_row))]
fn count_row(
    cursor: &mut Cursor<'_>,
    wide: bool,
    table: &mut [TableActor],
    last: Option<ActorId>,
) -> Result<ActorCount, ReadFault>
    ensures gives { Gives cursor.new result (count_row wide (actors_of table.old) last cursor.old) }
    ensures marks { IfOk result (λ r. Marks (r.actor ∷ []) table.old table.new) }
    ensures above { IfOk result (λ r. is_above is_actor_below last r.actor ≡ true) }
    ensures stands { IfOk result (λ r. 0 < r.count) }
{
    let actor = key_at(cursor, wide, table, last)?;
    let count = count_at(cursor)?;
    Ok(ActorCount { actor, count })
}

#[tactic(auto, unfolding(wire_grammar::specs::Reading::pair_row))]
fn pair_row(
    cursor: &mut Cursor<'_>,
    wide: bool,
    table: &mut [TableActor],
    last: Option<(ActorId, ActorId)>,
) -> Result<PairCount, ReadFault>
    ensures gives { Gives cursor.new result (pair_row wide (actors_of table.old) last cursor.old) }
    ensures marks { IfOk result (λ r. Marks (r.owner ∷ r.target ∷ []) table.old table.new) }
    ensures above { IfOk result (λ r. is_above is_pair_below last (r.owner, r.target) ≡ true) }
    ensures stands { IfOk result (λ r. 0 < r.count) }
{
    let (owner, target) = pair_key_at(cursor, wide, table, last)?;
    let count = count_at(cursor)?;
    Ok(PairCount {
        owner,
        target,
        count,
    })
}

fn state_rows(
    spare: &mut Vec<StateRow>,
    cursor: &mut Cursor<'_>,
    wide: bool,
    table: &mut [TableActor],
    count: u32,
) -> Result<StateRows, ReadFault>
    ensures gives { Gives cursor.new result (rows_at (λ r. r.actor) (state_row wide (actors_of table.old)) count None cursor.old) }
    ensures marks { IfOk result (λ rows. Marks (state_names rows) table.old table.new) }
{
    let mut rows = no_rows(spare, count)?;
    let mut last = None;
    let mut own = cursor.copy();
    for i in 0..count {
        let row = state_row(&mut own, wide, table, last)?;
        let key = row.actor;
        rows.push(row)?;
        last = Some(key);
    }
    *cursor = own;
    Ok(rows)
}

/// The states of a Delta.
#[tactic(auto, unfolding(wire_grammar::specs::Reading::states_at))]
pub fn states_at(
    spare: &mut Vec<StateRow>,
    cursor: &mut Cursor<'_>,
    wide: bool,
    table: &mut [TableActor],
) -> Result<StateRows, ReadFault>
    ensures gives { Gives cursor.new result (states_at wide (actors_of table.old) cursor.old) }
    ensures marks { IfOk result (λ rows. Marks (state_names rows) table.old table.new) }
{
    let count = len_at(cursor, wide)?;
    state_rows(spare, cursor, wide, table, count)
}

fn count_rows(
    spare: &mut Vec<ActorCount>,
    cursor: &mut Cursor<'_>,
    wide: bool,
    table: &mut [TableActor],
    count: u32,
) -> Result<ActorCounts, ReadFault>
    ensures gives { Gives cursor.new result (rows_at (λ r. r.actor) (count_row wide (actors_of table.old)) count None cursor.old) }
    ensures marks { IfOk result (λ rows. Marks (count_names rows) table.old table.new) }
{
    let mut rows = no_rows(spare, count)?;
    let mut last = None;
    let mut own = cursor.copy();
    for i in 0..count {
        let row = count_row(&mut own, wide, table, last)?;
        let key = row.actor;
        rows.push(row)?;
        last = Some(key);
    }
    *cursor = own;
    Ok(rows)
}

/// A section of actor counts.
#[tactic(auto, unfolding(wire_grammar::specs::Reading::counts_at))]
pub fn counts_at(
    spare: &mut Vec<ActorCount>,
    cursor: &mut Cursor<'_>,
    wide: bool,
    table: &mut [TableActor],
) -> Result<ActorCounts, ReadFault>
    ensures gives { Gives cursor.new result (counts_at wide (actors_of table.old) cursor.old) }
    ensures marks { IfOk result (λ rows. Marks (count_names rows) table.old table.new) }
{
    let count = len_at(cursor, wide)?;
    count_rows(spare, cursor, wide, table, count)
}

fn pair_rows(
    spare: &mut Vec<PairCount>,
    cursor: &mut Cursor<'_>,
    wide: bool,
    table: &mut [TableActor],
    count: u32,
) -> Result<PairCounts, ReadFault>
    ensures gives { Gives cursor.new result (rows_at (λ r. (r.owner, r.target)) (pair_row wide (actors_of table.old)) count None cursor.old) }
    ensures marks { IfOk result (λ rows. Marks (pair_names rows) table.old table.new) }
{
    let mut rows = no_rows(spare, count)?;
    let mut last = None;
    let mut own = cursor.copy();
    for i in 0..count {
        let row = pair_row(&mut own, wide, table, last)?;
        let key = (row.owner, row.target);
        rows.push(row)?;
        last = Some(key);
    }
    *cursor = own;
    Ok(rows)
}

/// A section of pair counts.
#[tactic(auto, unfolding(wire_grammar::specs::Reading::pairs_at))]
pub fn pairs_at(
    spare: &mut Vec<PairCount>,
    cursor: &mut Cursor<'_>,
    wide: bool,
    table: &mut [TableActor],
) -> Result<PairCounts, ReadFault>
    ensures gives { Gives cursor.new result (pairs_at wide (actors_of table.old) cursor.old) }
    ensures marks { IfOk result (λ rows. Marks (pair_names rows) table.old table.new) }
{
    let count = u32_at(cursor)?;
    pair_rows(spare, cursor, wide, table, count)
}

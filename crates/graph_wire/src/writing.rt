//! Bulletins to bytes.
ghost use Rattle.std.specs.Prelude.{◌≡◌, ◌<◌, ◌≤◌, ◌^◌, ◌++◌, ◌↔◌, [], length, slice_get, OnOk, IfOk, IfSome, IsTrue};
ghost use Rattle.byteorder.specs.Endian.{big_bytes};
ghost use Rattle.crgc_ids.specs.Actor.{IsActorBelow};
ghost use Rattle.crgc_ids.specs.Rising.{IsRising};
ghost use Rattle.wire_grammar.specs.Named.{index_of};
ghost use Rattle.wire_grammar.specs.Spelling.{index_len, actor_text, state_text, count_text, pair_text, table_text, states_text, counts_text, pairs_text, head_text, delta_text, window_text, spelled};
ghost use Rattle.graph_wire.specs.Writable.{IsWritable, DeltaHasRoom, WindowHasRoom};

use crate::names::{row_count, table};
use crgc_ids::{ActorCount, ActorId, NoMemory, Octets, PairCount};
use history_model::{Bulletin, Delta, StateRow, Window};
use std::alloc::Global;

#[inline(always)]
fn put(out: &mut Vec<u8>, bytes: &[u8]) -> Result<(), NoMemory>
    ensures { OnOk result (out.new.items ≡ out.old.items ++ bytes.now) }
{
    match out.extend_from_slice(bytes) {
        Ok(()) => Ok(()),
        Err(_) => Err(NoMemory),
    }
}

fn put_u32(out: &mut Vec<u8>, number: u32) -> Result<(), NoMemory>
    ensures { OnOk result (out.new.items ≡ out.old.items ++ big_bytes 4 number) }
{
    put(out, &number.to_be_bytes())
}

/// A number in two bytes, or in four in the wide form.
fn put_len(out: &mut Vec<u8>, wide: bool, number: usize) -> Result<(), NoMemory>
    requires { number < 256 ^ index_len wide }
    ensures { OnOk result (out.new.items ≡ out.old.items ++ big_bytes (index_len wide) number) }
{
    if wide {
        put_u32(out, number as u32)
    } else {
        put(out, &(number as u16).to_be_bytes())
    }
}

fn put_actor(out: &mut Vec<u8>, actor: ActorId) -> Result<(), NoMemory>
    ensures { OnOk result (out.new.items ≡ out.old.items ++ actor_text actor) }
{
    let [a, b, c, d] = actor.serial().to_be_bytes();
    put(out, &[actor.node().get(), a, b, c, d])
}

fn put_table(out: &mut Vec<u8>, wide: bool, table: &[ActorId]) -> Result<(), NoMemory>
    requires { length table.now < 256 ^ index_len wide }
    ensures { OnOk result (out.new.items ≡ out.old.items ++ table_text wide table.now) }
{
    put_len(out, wide, table.len())?;
    for actor in table {
        put_actor(out, *actor)?;
    }
    Ok(())
}

/// The index of an actor in a rising table, found by its order.
fn index(table: &[ActorId], actor: ActorId) -> usize
    requires { IsRising IsActorBelow table.now }
    ensures value { result ≡ index_of table.now actor }
    ensures bound { result ≤ length table.now }
{
    match table.binary_search(&actor) {
        Ok(found) => found,
        Err(above) => above,
    }
}

fn stands_at(table: &[ActorId], place: usize, actor: ActorId) -> bool
    ensures { IsTrue result ↔ slice_get table.now place ≡ Some actor }
{
    match table.get(place) {
        Some(other) => *other == actor,
        None => false,
    }
}

/// A place as far from the given one as two serials are apart: where the table has each serial between, the actor stands
/// there. It is a guess, so nothing is promised of it.
fn guess(table: &[ActorId], place: usize, actor: ActorId) -> usize {
    match table.get(place) {
        Some(other) => {
            let ahead = place.saturating_add(actor.serial() as usize);
            ahead.saturating_sub(other.serial() as usize)
        }
        None => place,
    }
}

/// The index of an actor in a rising table, if it stands where the serials let it be expected from a place, or right after that
/// place. Constant time.
fn index_from(table: &[ActorId], place: usize, actor: ActorId) -> Option<usize>
    requires { IsRising IsActorBelow table.now }
    ensures value { IfSome result (λ i. i ≡ index_of table.now actor) }
    ensures bound { IfSome result (λ i. i ≤ length table.now) }
{
    let expected = guess(table, place, actor);
    if stands_at(table, expected, actor) {
        return Some(expected);
    }
    let next = place.saturating_add(1);
    if stands_at(table, next, actor) {
        return Some(next);
    }
    None
}

/// The index of an actor in a rising table. It is looked for from a place, since a section's rows rise and so does the table;
/// then it is found by its order.
fn index_near(table: &[ActorId], place: usize, actor: ActorId) -> usize
    requires { IsRising IsActorBelow table.now }
    ensures value { result ≡ index_of table.now actor }
    ensures bound { result ≤ length table.now }
{
    match index_from(table, place, actor) {
        Some(found) => found,
        None => index(table, actor),
    }
}

/// Puts a state by one call, and answers its actor's index. The narrow form has the low two of the index's four bytes.
fn put_state(
    out: &mut Vec<u8>,
    wide: bool,
    table: &[ActorId],
    near: usize,
    row: StateRow,
) -> Result<usize, NoMemory>
    requires rises { IsRising IsActorBelow table.now }
    requires room { length table.now < 256 ^ index_len wide }
    ensures text { OnOk result (out.new.items ≡ out.old.items ++ state_text wide table.now row) }
    ensures index { IfOk result (λ i. i ≡ index_of table.now row.actor) }
{
    let index = index_near(table, near, row.actor);
    let flags = u8::from(row.busy) + 2 * u8::from(row.root);
    let [a, b, c, d] = (index as u32).to_be_bytes();
    let [e, f, g, h] = row.received.to_be_bytes();
    if wide {
        put(out, &[a, b, c, d, e, f, g, h, flags])?;
    } else {
        put(out, &[c, d, e, f, g, h, flags])?;
    }
    Ok(index)
}

/// Puts a count by one call, and answers its actor's index.
fn put_count(
    out: &mut Vec<u8>,
    wide: bool,
    table: &[ActorId],
    near: usize,
    row: ActorCount,
) -> Result<usize, NoMemory>
    requires rises { IsRising IsActorBelow table.now }
    requires room { length table.now < 256 ^ index_len wide }
    ensures text { OnOk result (out.new.items ≡ out.old.items ++ count_text wide table.now row) }
    ensures index { IfOk result (λ i. i ≡ index_of table.now row.actor) }
{
    let index = index_near(table, near, row.actor);
    let [a, b, c, d] = (index as u32).to_be_bytes();
    let [e, f, g, h] = row.count.to_be_bytes();
    if wide {
        put(out, &[a, b, c, d, e, f, g, h])?;
    } else {
        put(out, &[c, d, e, f, g, h])?;
    }
    Ok(index)
}

/// Where the next pair of a section is looked for: near the index of the last owner, and near that of the last target that was
/// not near its owner.
#[derive(Clone, Copy)]
struct Near {
    owner: usize,
    target: usize,
}

/// The index of a pair's target, which may be near that of its owner or of another target, and where the next target is looked
/// for.
fn target_near(table: &[ActorId], near: Near, target: ActorId) -> (usize, usize)
    requires { IsRising IsActorBelow table.now }
    ensures value { result.0 ≡ index_of table.now target }
    ensures bound { result.0 ≤ length table.now }
{
    if let Some(index) = index_from(table, near.owner, target) {
        return (index, near.target);
    }
    let index = index_near(table, near.target, target);
    (index, index)
}

/// Puts a pair by one call, and answers where the next one is looked for.
fn put_pair(
    out: &mut Vec<u8>,
    wide: bool,
    table: &[ActorId],
    near: Near,
    row: PairCount,
) -> Result<Near, NoMemory>
    requires rises { IsRising IsActorBelow table.now }
    requires room { length table.now < 256 ^ index_len wide }
    ensures { OnOk result (out.new.items ≡ out.old.items ++ pair_text wide table.now row) }
{
    let owner = index_near(table, near.owner, row.owner);
    let at_owner = Near {
        owner,
        target: near.target,
    };
    let (target, next) = target_near(table, at_owner, row.target);
    let [a, b, c, d] = (owner as u32).to_be_bytes();
    let [e, f, g, h] = (target as u32).to_be_bytes();
    let [i, j, k, l] = row.count.to_be_bytes();
    if wide {
        put(out, &[a, b, c, d, e, f, g, h, i, j, k, l])?;
    } else {
        put(out, &[c, d, g, h, i, j, k, l])?;
    }
    Ok(Near {
        owner,
        target: next,
    })
}

fn put_states(
    out: &mut Vec<u8>,
    wide: bool,
    table: &[ActorId],
    rows: &[StateRow],
) -> Result<(), NoMemory>
    requires rises { IsRising IsActorBelow table.now }
    requires room { length table.now < 256 ^ index_len wide }
    requires few { length rows.now < 256 ^ index_len wide }
    ensures { OnOk result (out.new.items ≡ out.old.items ++ states_text wide table.now rows.now) }
{
    put_len(out, wide, rows.len())?;
    let mut near = 0;
    for state in rows.iter().copied() {
        near = put_state(out, wide, table, near, state)?;
    }
    Ok(())
}

fn put_counts(
    out: &mut Vec<u8>,
    wide: bool,
    table: &[ActorId],
    rows: &[ActorCount],
) -> Result<(), NoMemory>
    requires rises { IsRising IsActorBelow table.now }
    requires room { length table.now < 256 ^ index_len wide }
    requires few { length rows.now < 256 ^ index_len wide }
    ensures { OnOk result (out.new.items ≡ out.old.items ++ counts_text wide table.now rows.now) }
{
    put_len(out, wide, rows.len())?;
    let mut near = 0;
    for count in rows.iter().copied() {
        near = put_count(out, wide, table, near, count)?;
    }
    Ok(())
}

fn put_pairs(
    out: &mut Vec<u8>,
    wide: bool,
    table: &[ActorId],
    rows: &[PairCount],
) -> Result<(), NoMemory>
    requires rises { IsRising IsActorBelow table.now }
    requires room { length table.now < 256 ^ index_len wide }
    requires few { length rows.now < 2 ^ 32 }
    ensures { OnOk result (out.new.items ≡ out.old.items ++ pairs_text wide table.now rows.now) }
{
    put_u32(out, rows.len() as u32)?;
    let mut near = Near {
        owner: 0,
        target: 0,
    };
    for pair in rows.iter().copied() {
        near = put_pair(out, wide, table, near, pair)?;
    }
    Ok(())
}

fn put_head(out: &mut Vec<u8>, wide: bool, kind: u8) -> Result<(), NoMemory>
    ensures { OnOk result (out.new.items ≡ out.old.items ++ head_text wide kind) }
{
    put(out, if wide { b"CRG2" } else { b"CRG1" })?;
    put(out, &kind.to_be_bytes())
}

#[tactic(auto, unfolding(wire_grammar::specs::Spelling::delta_text))]
fn put_delta(out: &mut Vec<u8>, wide: bool, table: &[ActorId], d: &Delta) -> Result<(), NoMemory>
    requires { DeltaHasRoom wide table.now d.now }
    ensures { OnOk result (out.new.items ≡ out.old.items ++ delta_text wide table.now d.now) }
{
    put(out, &d.node.get().to_be_bytes())?;
    put_table(out, wide, table)?;
    put_states(out, wide, table, d.states.as_slice())?;
    put_counts(out, wide, table, d.sent.as_slice())?;
    put_pairs(out, wide, table, d.created.as_slice())?;
    put_pairs(out, wide, table, d.released.as_slice())
}

#[tactic(auto, unfolding(wire_grammar::specs::Spelling::window_text))]
fn put_window(out: &mut Vec<u8>, wide: bool, table: &[ActorId], w: &Window) -> Result<(), NoMemory>
    requires { WindowHasRoom wide table.now w.now }
    ensures { OnOk result (out.new.items ≡ out.old.items ++ window_text wide table.now w.now) }
{
    put(out, &w.at.get().to_be_bytes())?;
    put(out, &w.from.get().to_be_bytes())?;
    put_table(out, wide, table)?;
    put_counts(out, wide, table, w.messages.as_slice())?;
    put_pairs(out, wide, table, w.carried.as_slice())
}

// What a header, an actor of the table and a row take at most, in bytes.
const HEAD: usize = 32;

const ACTOR: usize = 5;

const ROW: usize = 12;

/// An empty text with room for a bulletin, as a rule.
fn empty_text(alloc: Global, table: &[ActorId], b: &Bulletin) -> Result<Vec<u8>, NoMemory>
    ensures { IfOk result (λ v. v.items ≡ []) }
{
    let actors = table.len().saturating_mul(ACTOR);
    let rows = row_count(b).saturating_mul(ROW);
    match Vec::with_capacity(alloc, HEAD.saturating_add(actors).saturating_add(rows)) {
        Ok(text) => Ok(text),
        Err(_) => Err(NoMemory),
    }
}

/// The one spelling of the bulletin, in the wide form where it names more than 65,535 actors. Time in proportion to
/// n log n for n names at most, and to n where each section's names rise and leave out few of the table's actors.
#[tactic(auto, unfolding(wire_grammar::specs::Spelling::spelled))]
pub fn write(alloc: Global, b: &Bulletin) -> Result<Octets, NoMemory>
    requires { IsWritable b.now }
    ensures { IfOk result (λ bytes. bytes ≡ spelled b.now) }
{
    let table = table(alloc, b)?;
    let wide = table.len() > 65_535;
    let mut out = empty_text(alloc, &table, b)?;
    match b {
        Bulletin::Delta(d) => {
            put_head(&mut out, wide, 1)?;
            put_delta(&mut out, wide, &table, d)?;
        }
        Bulletin::Window(w) => {
            put_head(&mut out, wide, 2)?;
            put_window(&mut out, wide, &table, w)?;
        }
        Bulletin::Final(w) => {
            put_head(&mut out, wide, 3)?;
            put_window(&mut out, wide, &table, w)?;
        }
    }
    Ok(Octets::from_vec(out))
}

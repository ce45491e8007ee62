//! Bytes to whole bulletins.
ghost use Rattle.std.specs.Prelude.{◌≡◌, ◌++◌, ℕ, List, length, drop, Ok, IfOk};
ghost use Rattle.history_model.specs.declared.records.Bulletin.{Bulletin};
ghost use Rattle.wire_grammar.specs.Reading.{delta_at, window_at, link_at, magic_at, kind_at, body_at, bulletin_at, reading};
ghost use Rattle.wire_grammar.specs.Spelling.{spelled};
ghost use Rattle.wire_grammar.specs.Spellable.{IsSpellable};
ghost use Rattle.graph_wire.specs.Gives.{Gives, GivesPrefix};

use crate::fault::{ReadFault, fault};
use crate::reading::{counts_at, node_at, pairs_at, states_at, table_at, u8_at, u32_at};
use crate::spare::{Spare, keep};
use crate::table::unnamed;
use crgc_bytes::Cursor;
use crgc_ids::NodeId;
use history_model::{Bulletin, Delta, Window};
use std::alloc::Global;
use wire_grammar::WireKind;

/// "CRG1" as a number.
const NARROW: u32 = 0x4352_4731;

/// "CRG2" as a number.
const WIDE: u32 = 0x4352_4732;

#[tactic(auto, unfolding(wire_grammar::specs::Reading::delta_at))]
fn delta_at(spare: &mut Spare, cursor: &mut Cursor<'_>, wide: bool) -> Result<Delta, ReadFault>
    ensures { Gives cursor.new result (delta_at wide cursor.old) }
{
    let node = node_at(cursor)?;
    let mut table = table_at(&mut spare.table, cursor, wide)?;
    let first = cursor.offset() - 5 * table.len();
    let actors = table.as_mut_slice();
    let states = states_at(&mut spare.states, cursor, wide, actors)?;
    let sent = counts_at(&mut spare.counts, cursor, wide, actors)?;
    let created = pairs_at(&mut spare.created, cursor, wide, actors)?;
    let released = pairs_at(&mut spare.released, cursor, wide, actors)?;
    let unused = unnamed(actors, first);
    keep(&mut spare.table, table);
    match unused {
        Some(offset) => Err(fault(WireKind::Unused, offset)),
        None => Ok(Delta {
            node,
            states,
            sent,
            created,
            released,
        }),
    }
}

/// The two nodes of a link, which differ: the one at which messages were admitted, and the one from which they came.
fn link_at(cursor: &mut Cursor<'_>) -> Result<(NodeId, NodeId), ReadFault>
    ensures { Gives cursor.new result (link_at cursor.old) }
{
    let at = node_at(cursor)?;
    let offset = cursor.offset();
    let from = node_at(cursor)?;
    if from == at {
        return Err(fault(WireKind::Node, offset));
    }
    Ok((at, from))
}

#[tactic(auto, unfolding(wire_grammar::specs::Reading::window_at))]
fn window_at(spare: &mut Spare, cursor: &mut Cursor<'_>, wide: bool) -> Result<Window, ReadFault>
    ensures { Gives cursor.new result (window_at wide cursor.old) }
{
    let (at, from) = link_at(cursor)?;
    let mut table = table_at(&mut spare.table, cursor, wide)?;
    let first = cursor.offset() - 5 * table.len();
    let actors = table.as_mut_slice();
    let messages = counts_at(&mut spare.counts, cursor, wide, actors)?;
    let carried = pairs_at(&mut spare.created, cursor, wide, actors)?;
    let unused = unnamed(actors, first);
    keep(&mut spare.table, table);
    match unused {
        Some(offset) => Err(fault(WireKind::Unused, offset)),
        None => Ok(Window {
            at,
            from,
            messages,
            carried,
        }),
    }
}

/// The number that a form begins with.
fn magic_at(cursor: &mut Cursor<'_>) -> Result<u32, ReadFault>
    ensures { Gives cursor.new result (magic_at cursor.old) }
{
    let offset = cursor.offset();
    let number = u32_at(cursor)?;
    if number != NARROW && number != WIDE {
        return Err(fault(WireKind::Magic, offset));
    }
    Ok(number)
}

fn kind_at(cursor: &mut Cursor<'_>) -> Result<u8, ReadFault>
    ensures { Gives cursor.new result (kind_at cursor.old) }
{
    let offset = cursor.offset();
    let kind = u8_at(cursor)?;
    if kind == 0 || kind > 3 {
        return Err(fault(WireKind::Kind, offset));
    }
    Ok(kind)
}

fn body_at(
    spare: &mut Spare,
    cursor: &mut Cursor<'_>,
    wide: bool,
    kind: u8,
) -> Result<Bulletin, ReadFault>
    ensures { Gives cursor.new result (body_at wide kind cursor.old) }
{
    match kind {
        1 => Ok(Bulletin::Delta(delta_at(spare, cursor, wide)?)),
        2 => Ok(Bulletin::Window(window_at(spare, cursor, wide)?)),
        _ => Ok(Bulletin::Final(window_at(spare, cursor, wide)?)),
    }
}

#[tactic(auto, unfolding(wire_grammar::specs::Reading::bulletin_at))]
fn bulletin_at(spare: &mut Spare, cursor: &mut Cursor<'_>) -> Result<Bulletin, ReadFault>
    ensures { Gives cursor.new result (bulletin_at cursor.old) }
{
    let number = magic_at(cursor)?;
    let kind = kind_at(cursor)?;
    body_at(spare, cursor, number == WIDE, kind)
}

#[tactic(auto, unfolding(wire_grammar::specs::Reading::reading))]
fn prefix(spare: &mut Spare, bytes: &[u8]) -> Result<(Bulletin, usize), ReadFault>
    ensures { GivesPrefix result (reading bytes.now) }
{
    let mut cursor = Cursor::new(bytes);
    let b = bulletin_at(spare, &mut cursor)?;
    Ok((b, cursor.offset()))
}

/// The bulletin whose spelling begins the bytes, with the length of that spelling; else the first fault from the left.
/// It takes memory and time in proportion to the bytes that are there, whatever they claim.
pub fn read(alloc: Global, bytes: &[u8]) -> Result<(Bulletin, usize), ReadFault>
    // What is answered has a spelling, with which the bytes begin.
    ensures found { IfOk result (λ x. IsSpellable x.0 × (bytes.now ≡ spelled x.0 ++ drop x.1 bytes.now) × (x.1 ≡ length (spelled x.0))) }
    // Where the bytes begin with a spelling, it is read.
    ensures only { (b : Bulletin) (rest : List ℕ) → IsSpellable b → bytes.now ≡ spelled b ++ rest
        → GivesPrefix result (Ok (b, length (spelled b))) }
    // Which fault it is.
    ensures exact { GivesPrefix result (reading bytes.now) }
{
    read_into(&mut Spare::new(alloc), bytes)
}

/// The same, in the room of bulletins that were given up before.
pub fn read_into(spare: &mut Spare, bytes: &[u8]) -> Result<(Bulletin, usize), ReadFault>
    ensures found { IfOk result (λ x. IsSpellable x.0 × (bytes.now ≡ spelled x.0 ++ drop x.1 bytes.now) × (x.1 ≡ length (spelled x.0))) }
    ensures only { (b : Bulletin) (rest : List ℕ) → IsSpellable b → bytes.now ≡ spelled b ++ rest
        → GivesPrefix result (Ok (b, length (spelled b))) }
    ensures exact { GivesPrefix result (reading bytes.now) }
{
    prefix(spare, bytes)
}

//! The table of a bulletin that is being read, with a mark at each actor that a row names.
ghost use Rattle.std.specs.Prelude.{◌≡◌, ◌<◌, ◌+◌, ◌*◌, ◌^◌, [], ◌∷◌, List, length, slice_get, IfSome};
ghost use Rattle.crgc_ids.specs.Actor.{Actor};
ghost use Rattle.wire_grammar.specs.Reading.{unnamed};
ghost use Rattle.graph_wire.specs.Marks.{actors_of, AreNamed, Marks};

use crgc_ids::ActorId;

/// An actor of a table, and whether a row that was read names it.
#[derive(Clone, Copy)]
pub struct TableActor {
    pub actor: ActorId,
    pub named: bool,
}

/// The actor at the index, which is marked.
pub fn mark(table: &mut [TableActor], index: usize) -> Option<ActorId>
    ensures actor { result ≡ slice_get (actors_of table.old) index }
    ensures marks { IfSome result (λ a. Marks (a ∷ []) table.old table.new) }
{
    if index >= table.len() {
        return None;
    }
    let entry = &mut table[index];
    entry.named = true;
    Some(entry.actor)
}

/// Where the first actor stands that no row names; the first actor of all stands at the offset.
pub fn unnamed(table: &[TableActor], first: usize) -> Option<usize>
    requires { first + 5 * length table.now < 2 ^ 64 }
    ensures { (names : List Actor) → AreNamed names table.now → result ≡ unnamed names first (actors_of table.now) }
{
    for (i, entry) in table.iter().enumerate() {
        if !entry.named {
            return Some(first + 5 * i);
        }
    }
    None
}

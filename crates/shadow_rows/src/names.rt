//! The actors that the rows of a bulletin name, each with a place among the shadows and the edges.
ghost use Rattle.std.specs.Prelude.{◌≡◌, ◌∷◌, ◌<◌, ◌≤◌, [], true, IfOk, IfSome, OnOk, map};
ghost use Rattle.std.specs.List.{AllByRecursion};
ghost use Rattle.edge_table.specs.Table.{Edges};
ghost use Rattle.shadow_table.specs.Shadows.{is_named, place_in};
ghost use Rattle.shadow_rows.specs.Rows.{NamesRows};
ghost use Rattle.shadow_rows.specs.Tabled.{AreTabled, ExtendsShadows};

use crgc_ids::{ActorCount, ActorId, NoMemory, PairCount};
use edge_table::EdgeTable;
use history_model::StateRow;
use shadow_table::ShadowTable;

/// There are at least so many places. After `NoMemory` there may be some more than before.
fn add_places(edges: &mut EdgeTable, places: u32) -> Result<(), NoMemory>
    ensures ok { OnOk result (places ≤ edges.new.places) }
    ensures grown { edges.old.places ≤ edges.new.places }
    ensures pairs { edges.new.pairs ≡ edges.old.pairs }
    ensures edges { edges.new.edges ≡ edges.old.edges }
{
    for _ in edges.place_count()..places {
        edges.add_place()?;
    }
    Ok(())
}

/// The actor is named, with a place among the edges; the answer is its place. After `NoMemory` it may be named. Constant time, amortized
/// where it was not named before.
#[inline(always)]
pub fn name(
    shadows: &mut ShadowTable,
    edges: &mut EdgeTable,
    actor: ActorId,
) -> Result<u32, NoMemory>
    requires tabled { AreTabled shadows.old.names edges.old }
    ensures named { OnOk result (NamesRows shadows.old.names shadows.new.names (actor ∷ [])) }
    ensures place { IfOk result (λ place. place ≡ place_in shadows.new.names actor) }
    ensures tabled { OnOk result (AreTabled shadows.new.names edges.new) }
    ensures shadows { ExtendsShadows shadows.old shadows.new }
    ensures places { edges.old.places ≤ edges.new.places }
    ensures pairs { edges.new.pairs ≡ edges.old.pairs }
    ensures edges { edges.new.edges ≡ edges.old.edges }
{
    match shadows.place_of(actor) {
        Some(place) => Ok(place),
        None => name_new(shadows, edges, actor),
    }
}

/// The same for an actor that most likely was not named before.
fn name_new(
    shadows: &mut ShadowTable,
    edges: &mut EdgeTable,
    actor: ActorId,
) -> Result<u32, NoMemory>
    requires tabled { AreTabled shadows.old.names edges.old }
    ensures named { OnOk result (NamesRows shadows.old.names shadows.new.names (actor ∷ [])) }
    ensures place { IfOk result (λ place. place ≡ place_in shadows.new.names actor) }
    ensures tabled { OnOk result (AreTabled shadows.new.names edges.new) }
    ensures shadows { ExtendsShadows shadows.old shadows.new }
    ensures places { edges.old.places ≤ edges.new.places }
    ensures pairs { edges.new.pairs ≡ edges.old.pairs }
    ensures edges { edges.new.edges ≡ edges.old.edges }
{
    shadows.name(actor)?;
    add_places(edges, shadows.place_count())?;
    Ok(shadows.place_of(actor).unwrap())
}

/// The same, but the last actor that was named is told with its place, and often is the one that is to be named.
#[inline(always)]
pub fn name_after(
    shadows: &mut ShadowTable,
    edges: &mut EdgeTable,
    last: Option<(ActorId, u32)>,
    actor: ActorId,
) -> Result<u32, NoMemory>
    requires tabled { AreTabled shadows.old.names edges.old }
    requires last_named { IfSome last (λ l. is_named shadows.old.names l.0 ≡ true) }
    requires last { IfSome last (λ l. l.1 ≡ place_in shadows.old.names l.0) }
    ensures named { OnOk result (NamesRows shadows.old.names shadows.new.names (actor ∷ [])) }
    ensures place { IfOk result (λ place. place ≡ place_in shadows.new.names actor) }
    ensures tabled { OnOk result (AreTabled shadows.new.names edges.new) }
    ensures shadows { ExtendsShadows shadows.old shadows.new }
    ensures places { edges.old.places ≤ edges.new.places }
    ensures pairs { edges.new.pairs ≡ edges.old.pairs }
    ensures edges { edges.new.edges ≡ edges.old.edges }
{
    if let Some((asked, place)) = last {
        if asked == actor {
            return Ok(place);
        }
    }
    name(shadows, edges, actor)
}

/// The actors of the states are named. After `NoMemory` some of them may be. Linear time in the number of rows, amortized.
pub fn name_states(
    shadows: &mut ShadowTable,
    edges: &mut EdgeTable,
    rows: &[StateRow],
) -> Result<(), NoMemory>
    requires tabled { AreTabled shadows.old.names edges.old }
    ensures named { OnOk result (NamesRows shadows.old.names shadows.new.names (map (λ r. r.actor) rows.now)) }
    ensures fits { OnOk result (AllByRecursion (λ r. r.received < 4294967296) rows.now) }
    ensures tabled { OnOk result (AreTabled shadows.new.names edges.new) }
    ensures shadows { ExtendsShadows shadows.old shadows.new }
    ensures places { edges.old.places ≤ edges.new.places }
    ensures pairs { edges.new.pairs ≡ edges.old.pairs }
    ensures edges { edges.new.edges ≡ edges.old.edges }
{
    for row in rows {
        let actor = named_in_state(*row);
        name(shadows, edges, actor)?;
    }
    Ok(())
}

/// The actors of the counts are named. After `NoMemory` some of them may be. Linear time in the number of rows, amortized.
pub fn name_counts(
    shadows: &mut ShadowTable,
    edges: &mut EdgeTable,
    rows: &[ActorCount],
) -> Result<(), NoMemory>
    requires tabled { AreTabled shadows.old.names edges.old }
    ensures named { OnOk result (NamesRows shadows.old.names shadows.new.names (map (λ r. r.actor) rows.now)) }
    ensures fits { OnOk result (AllByRecursion (λ r. r.count < 4294967296) rows.now) }
    ensures tabled { OnOk result (AreTabled shadows.new.names edges.new) }
    ensures shadows { ExtendsShadows shadows.old shadows.new }
    ensures places { edges.old.places ≤ edges.new.places }
    ensures pairs { edges.new.pairs ≡ edges.old.pairs }
    ensures edges { edges.new.edges ≡ edges.old.edges }
{
    for row in rows {
        let actor = named_in_count(*row);
        name(shadows, edges, actor)?;
    }
    Ok(())
}

/// The actor of the row.
fn named_in_state(row: StateRow) -> ActorId
    ensures actor { result ≡ row.actor }
    ensures fits { row.received < 4294967296 }
{
    row.actor
}

/// The actor of the row.
fn named_in_count(row: ActorCount) -> ActorId
    ensures actor { result ≡ row.actor }
    ensures fits { row.count < 4294967296 }
{
    row.actor
}

/// The owner and the target of the row.
pub fn named_in_pair(row: PairCount) -> (ActorId, ActorId)
    ensures actors { result ≡ (row.owner, row.target) }
    ensures fits { row.count < 4294967296 }
{
    (row.owner, row.target)
}

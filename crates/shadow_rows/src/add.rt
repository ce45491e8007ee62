//! Bulletins whose rows the shadows, the edges and the log take in.
ghost use Rattle.std.specs.Prelude.{◌≡◌, ◌≤◌, true, false, Bool, Option, OnErr, OnOk, vec_capacity};
ghost use Rattle.std.specs.List.{AllByRecursion};
ghost use Rattle.crgc_ids.specs.Actor.{Actor};
ghost use Rattle.history_model.specs.declared.records.Bulletin.TheVariants as bulletins;
ghost use Rattle.history_model.specs.Ledgers.{IsInOrder, delta_ledger, ledger_names, no_rows};
ghost use Rattle.delta_graph.specs.Sums.{CountsFit};
ghost use Rattle.shadow_table.specs.Shadows.{is_named};
ghost use Rattle.undo_log.specs.Told.{Notes, told_by};
ghost use Rattle.undo_log.specs.declared.corrections.Side.TheVariants as sides;
ghost use Rattle.shadow_rows.specs.Rows.{AddsRows, AreSmall, IsLogCovered, LogsIf, NamesRows};
ghost use Rattle.shadow_rows.specs.Pairs.{KeepsEnds};
ghost use Rattle.shadow_rows.specs.Tabled.{AreNumbered, AreTabled, ExtendsEdges, ExtendsShadows};
ghost use Rattle.shadow_rows.specs.Touched.{NamesMore};

use crate::count::count_told;
use crate::edges::release_all;
use crate::grow::{cut_back, grow};
use crate::row_numbers::RowNumbers;
use crgc_ids::NoMemory;
use edge_table::EdgeTable;
use history_model::Delta;
use shadow_table::ShadowTable;
use undo_log::UndoLog;

/// The actors and pairs of the Delta are there, and where it is noted the log has its sends and its created pairs; `numbers` has
/// the numbers of the pairs' edges. After `NoMemory` some of the actors and pairs may be there.
fn prepare_delta(
    numbers: &mut RowNumbers,
    shadows: &mut ShadowTable,
    edges: &mut EdgeTable,
    log: &mut UndoLog,
    delta: &Delta,
    logs: bool,
) -> Result<(), NoMemory>
    requires tabled { AreTabled shadows.old.names edges.old }
    requires small { (owner : Option Actor) (target : Actor) → told_by log.old delta.now.node owner target ≤ 4611686018427387904 }
    ensures named { OnOk result (NamesRows shadows.old.names shadows.new.names (ledger_names (delta_ledger delta.now))) }
    ensures fits { OnOk result (CountsFit (delta_ledger delta.now)) }
    ensures created { OnOk result (AreNumbered edges.new delta.now.created numbers.new.created.items) }
    ensures released { OnOk result (AreNumbered edges.new delta.now.released numbers.new.released.items) }
    ensures tabled { OnOk result (AreTabled shadows.new.names edges.new) }
    ensures noted { OnOk result (logs ≡ true → Notes log.old log.new delta.now.node sides.Told delta.now.sent delta.now.created) }
    ensures same_log { logs ≡ false → log.new ≡ log.old }
    ensures shadows { ExtendsShadows shadows.old shadows.new }
    ensures edges { ExtendsEdges edges.old edges.new }
    ensures places { edges.old.places ≤ edges.new.places }
    ensures log { OnErr result (log.new ≡ log.old) }
    ensures ordered { IsInOrder (delta_ledger delta.now) }
{
    let states = delta.states.as_slice();
    let sent = delta.sent.as_slice();
    let created = delta.created.as_slice();
    let released = delta.released.as_slice();
    grow(numbers, shadows, edges, states, sent, created, released)?;
    if logs {
        log.note_told(delta.node, &delta.sent, &delta.created)?;
    }
    Ok(())
}

/// The rows of the Delta are counted, its sends and created pairs only where they count, and noted in the log where `logs`
/// says so. After `NoMemory` all that is told of actors and pairs is as before. `numbers` lends its room: what was in it is lost,
/// and much room is given up. Amortized time in proportion to n log n for n rows, and logarithmic in the number of edges for each.
pub fn add_delta(
    numbers: &mut RowNumbers,
    shadows: &mut ShadowTable,
    edges: &mut EdgeTable,
    log: &mut UndoLog,
    delta: &Delta,
    counts: bool,
    logs: bool,
) -> Result<(), NoMemory>
    requires tabled { AreTabled shadows.old.names edges.old }
    requires covered { IsLogCovered shadows.old edges.old log.old }
    requires small { AreSmall shadows.old edges.old }
    requires log_small { (owner : Option Actor) (target : Actor) → told_by log.old delta.now.node owner target ≤ 4611686018427387904 }
    ensures adds { OnOk result (AddsRows delta.now.node counts (delta_ledger delta.now) no_rows shadows.old shadows.new edges.old edges.new) }
    ensures noted { OnOk result (LogsIf logs delta.now.node (bulletins.Delta delta.now) log.old log.new) }
    ensures named { OnOk result (NamesRows shadows.old.names shadows.new.names (ledger_names (delta_ledger delta.now))) }
    ensures more { OnOk result (NamesMore shadows.old.names shadows.new.names) }
    ensures fits { OnOk result (CountsFit (delta_ledger delta.now)) }
    ensures covered { IsLogCovered shadows.new edges.new log.new }
    ensures tabled { AreTabled shadows.new.names edges.new }
    ensures shadows { OnErr result (shadows.new ≡ shadows.old) }
    ensures pairs { OnErr result (edges.new.pairs ≡ edges.old.pairs) }
    ensures edges { OnErr result (edges.new.edges ≡ edges.old.edges) }
    ensures log { OnErr result (log.new ≡ log.old) }
    ensures ordered { IsInOrder (delta_ledger delta.now) }
    ensures created_room { vec_capacity numbers.new.created ≤ 1024 }
    ensures released_room { vec_capacity numbers.new.released ≤ 1024 }
{
    let places = shadows.place_count();
    let count = edges.edge_count();
    match prepare_delta(numbers, shadows, edges, log, delta, logs) {
        Ok(()) => {
            count_delta(shadows, edges, delta, numbers, counts);
            numbers.give_up_much();
            Ok(())
        }
        Err(_) => {
            cut_back(shadows, edges, places, count);
            numbers.give_up_much();
            Err(NoMemory)
        }
    }
}

/// The rows of the Delta, whose edges have these numbers, are counted, its sends and created pairs only where they count.
fn count_delta(
    shadows: &mut ShadowTable,
    edges: &mut EdgeTable,
    delta: &Delta,
    numbers: &RowNumbers,
    counts: bool,
)
    requires states { AllByRecursion (λ r. is_named shadows.old.names r.actor ≡ true) delta.now.states }
    requires sent { AllByRecursion (λ r. is_named shadows.old.names r.actor ≡ true) delta.now.sent }
    requires created { AreNumbered edges.old delta.now.created numbers.now.created.items }
    requires released { AreNumbered edges.old delta.now.released numbers.now.released.items }
    requires small { AreSmall shadows.old edges.old }
    requires fits { CountsFit (delta_ledger delta.now) }
    ensures adds { AddsRows delta.now.node counts (delta_ledger delta.now) no_rows shadows.old shadows.new edges.old edges.new }
    ensures names { shadows.new.names ≡ shadows.old.names }
    ensures ends { KeepsEnds edges.old edges.new }
{
    shadows.note_states(delta.node, delta.states.as_slice());
    let (sent, created) = (delta.sent.as_slice(), delta.created.as_slice());
    let (of_created, of_released) = (numbers.created.as_slice(), numbers.released.as_slice());
    count_told(shadows, edges, sent, created, of_created, counts);
    release_all(edges, delta.released.as_slice(), of_released);
}

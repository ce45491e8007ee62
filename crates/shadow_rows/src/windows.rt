//! Windows and Finals whose rows the shadows, the edges and the log take in.
ghost use Rattle.std.specs.Prelude.{◌≡◌, ◌≤◌, if◌then◌else◌, true, false, Bool, Option, OnErr, OnOk, vec_capacity};
ghost use Rattle.std.specs.List.{AllByRecursion};
ghost use Rattle.crgc_ids.specs.Actor.{Actor};
ghost use Rattle.history_model.specs.declared.records.Bulletin.TheVariants as bulletins;
ghost use Rattle.history_model.specs.Ledgers.{IsInOrder, ledger_names, no_rows, window_ledger};
ghost use Rattle.delta_graph.specs.Sums.{CountsFit};
ghost use Rattle.shadow_table.specs.Shadows.{is_named};
ghost use Rattle.undo_log.specs.Told.{Notes, admitted_from};
ghost use Rattle.undo_log.specs.declared.corrections.Side.TheVariants as sides;
ghost use Rattle.shadow_rows.specs.Rows.{AddsRows, AreSmall, IsLogCovered, LogsIf, NamesRows};
ghost use Rattle.shadow_rows.specs.Pairs.{KeepsEnds};
ghost use Rattle.shadow_rows.specs.Tabled.{AreNumbered, AreTabled, ExtendsEdges, ExtendsShadows};
ghost use Rattle.shadow_rows.specs.Touched.{NamesMore};

use crate::count::count_admitted;
use crate::grow::{cut_back, grow};
use crate::row_numbers::RowNumbers;
use crgc_ids::NoMemory;
use edge_table::EdgeTable;
use history_model::Window;
use shadow_table::ShadowTable;
use undo_log::UndoLog;

/// The actors and pairs of the window are there, and where it is noted the log has its messages and its carried pairs; `numbers`
/// has the numbers of the pairs' edges. After `NoMemory` some of the actors and pairs may be there.
fn prepare_window(
    numbers: &mut RowNumbers,
    shadows: &mut ShadowTable,
    edges: &mut EdgeTable,
    log: &mut UndoLog,
    window: &Window,
    logs: bool,
) -> Result<(), NoMemory>
    requires tabled { AreTabled shadows.old.names edges.old }
    requires small { (owner : Option Actor) (target : Actor) → admitted_from log.old window.now.from owner target ≤ 4611686018427387904 }
    ensures named { OnOk result (NamesRows shadows.old.names shadows.new.names (ledger_names (window_ledger window.now))) }
    ensures fits { OnOk result (CountsFit (window_ledger window.now)) }
    ensures carried { OnOk result (AreNumbered edges.new window.now.carried numbers.new.created.items) }
    ensures tabled { OnOk result (AreTabled shadows.new.names edges.new) }
    ensures noted { OnOk result (logs ≡ true → Notes log.old log.new window.now.from sides.Admitted window.now.messages window.now.carried) }
    ensures same_log { logs ≡ false → log.new ≡ log.old }
    ensures shadows { ExtendsShadows shadows.old shadows.new }
    ensures edges { ExtendsEdges edges.old edges.new }
    ensures places { edges.old.places ≤ edges.new.places }
    ensures log { OnErr result (log.new ≡ log.old) }
    ensures ordered { IsInOrder (window_ledger window.now) }
{
    let messages = window.messages.as_slice();
    let carried = window.carried.as_slice();
    grow(numbers, shadows, edges, &[], messages, carried, &[])?;
    if logs {
        log.note_admitted(window.from, &window.messages, &window.carried)?;
    }
    Ok(())
}

/// The rows of the window are counted, and noted in the log where `logs` says so; its messages and carried pairs count where
/// `counts` says so, which is where the node from which they were admitted is lost. After `NoMemory` all that is told of actors
/// and pairs is as before. `numbers` lends its room: what was in it is lost, and much room is given up. Amortized time in proportion
/// to n log n for n rows, and logarithmic in the number of edges for each.
pub fn add_window(
    numbers: &mut RowNumbers,
    shadows: &mut ShadowTable,
    edges: &mut EdgeTable,
    log: &mut UndoLog,
    window: &Window,
    counts: bool,
    logs: bool,
) -> Result<(), NoMemory>
    requires tabled { AreTabled shadows.old.names edges.old }
    requires covered { IsLogCovered shadows.old edges.old log.old }
    requires small { AreSmall shadows.old edges.old }
    requires log_small { (owner : Option Actor) (target : Actor) → admitted_from log.old window.now.from owner target ≤ 4611686018427387904 }
    ensures adds { OnOk result ((told : Bool) → AddsRows window.now.at told no_rows (if counts then window_ledger window.now else no_rows)
        shadows.old shadows.new edges.old edges.new) }
    ensures noted { OnOk result (LogsIf logs window.now.at (bulletins.Window window.now) log.old log.new) }
    ensures noted_final { OnOk result (LogsIf logs window.now.at (bulletins.Final window.now) log.old log.new) }
    ensures named { OnOk result (NamesRows shadows.old.names shadows.new.names (ledger_names (window_ledger window.now))) }
    ensures more { OnOk result (NamesMore shadows.old.names shadows.new.names) }
    ensures fits { OnOk result (CountsFit (window_ledger window.now)) }
    ensures covered { IsLogCovered shadows.new edges.new log.new }
    ensures tabled { AreTabled shadows.new.names edges.new }
    ensures shadows { OnErr result (shadows.new ≡ shadows.old) }
    ensures pairs { OnErr result (edges.new.pairs ≡ edges.old.pairs) }
    ensures edges { OnErr result (edges.new.edges ≡ edges.old.edges) }
    ensures log { OnErr result (log.new ≡ log.old) }
    ensures ordered { IsInOrder (window_ledger window.now) }
    ensures created_room { vec_capacity numbers.new.created ≤ 1024 }
    ensures released_room { vec_capacity numbers.new.released ≤ 1024 }
{
    let places = shadows.place_count();
    let count = edges.edge_count();
    match prepare_window(numbers, shadows, edges, log, window, logs) {
        Ok(()) => {
            count_window(shadows, edges, window, numbers.created.as_slice(), counts);
            numbers.give_up_much();
            Ok(())
        }
        Err(_) => {
            cut_back(shadows, edges, places, count);
            numbers.give_up_much();
            Err(NoMemory)
        }
    }
}

/// The rows of the window, whose edges have these numbers, are counted where they count.
fn count_window(
    shadows: &mut ShadowTable,
    edges: &mut EdgeTable,
    window: &Window,
    numbers: &[u32],
    counts: bool,
)
    requires messages { AllByRecursion (λ r. is_named shadows.old.names r.actor ≡ true) window.now.messages }
    requires carried { AreNumbered edges.old window.now.carried numbers.now }
    requires small { AreSmall shadows.old edges.old }
    requires fits { CountsFit (window_ledger window.now) }
    ensures adds { (told : Bool) → AddsRows window.now.at told no_rows (if counts then window_ledger window.now else no_rows)
        shadows.old shadows.new edges.old edges.new }
    ensures names { shadows.new.names ≡ shadows.old.names }
    ensures ends { KeepsEnds edges.old edges.new }
{
    let (messages, carried) = (window.messages.as_slice(), window.carried.as_slice());
    count_admitted(shadows, edges, messages, carried, numbers, counts);
}

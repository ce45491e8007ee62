//! Which places the next sweep looks at, by the rows of a bulletin that was folded.
ghost use Rattle.std.specs.Prelude.{◌≡◌, ◌<◌, ◌≤◌, ℕ, true, length};
ghost use Rattle.std.specs.List.{AllByRecursion};
ghost use Rattle.crgc_ids.specs.Actor.{Actor};
ghost use Rattle.crgc_ids.specs.Nodes.{has_node};
ghost use Rattle.history_model.specs.Ledgers.{delta_ledger, window_ledger};
ghost use Rattle.kept_marks.specs.PlaceSet.{has_place};
ghost use Rattle.shadow_rows.specs.Touched.{is_touched};
ghost use Rattle.shadow_graph.specs.Graph.{lost_in};
ghost use Rattle.shadow_graph.specs.Taken.{touches};
ghost use Rattle.pseudoroot_trace.specs.Traced.{IsLookedAt, TouchesMore};

use crgc_ids::{ActorCount, ActorId, PairCount};
use history_model::{Bulletin, Delta, StateRow, Window};
use kept_marks::KeptMarks;
use shadow_graph::ShadowGraph;

/// The place of the actor is touched, if it is one of the first so many; others are new.
pub fn touch_actor(kept: &mut KeptMarks, graph: &ShadowGraph, places: u32, actor: ActorId)
    requires { places ≤ length kept.old.supports }
    ensures touches { TouchesMore places kept.old kept.new }
    ensures actor { IsLookedAt graph.now places kept.new actor }
{
    let Some(place) = graph.place_of(actor) else {
        return;
    };
    if place < places {
        kept.touch(place);
    }
}

/// The actors of the states are touched.
fn touch_states(kept: &mut KeptMarks, graph: &ShadowGraph, places: u32, rows: &[StateRow])
    requires { places ≤ length kept.old.supports }
    ensures touches { TouchesMore places kept.old kept.new }
    ensures rows { AllByRecursion (λ r. IsLookedAt graph.now places kept.new r.actor) rows.now }
{
    for row in rows {
        touch_actor(kept, graph, places, row.actor);
    }
}

/// The actors of the counts are touched.
fn touch_counts(kept: &mut KeptMarks, graph: &ShadowGraph, places: u32, rows: &[ActorCount])
    requires { places ≤ length kept.old.supports }
    ensures touches { TouchesMore places kept.old kept.new }
    ensures rows { AllByRecursion (λ r. IsLookedAt graph.now places kept.new r.actor) rows.now }
{
    for row in rows {
        touch_actor(kept, graph, places, row.actor);
    }
}

/// The targets of the pairs are touched.
fn touch_targets(kept: &mut KeptMarks, graph: &ShadowGraph, places: u32, rows: &[PairCount])
    requires { places ≤ length kept.old.supports }
    ensures touches { TouchesMore places kept.old kept.new }
    ensures rows { AllByRecursion (λ r. IsLookedAt graph.now places kept.new r.target) rows.now }
{
    for row in rows {
        touch_actor(kept, graph, places, row.target);
    }
}

/// Whom the Delta's rows touch is touched.
fn touch_delta(kept: &mut KeptMarks, graph: &ShadowGraph, places: u32, delta: &Delta)
    requires { places ≤ length kept.old.supports }
    ensures touches { TouchesMore places kept.old kept.new }
    ensures actors { (a : Actor) → is_touched (delta_ledger delta.now) a ≡ true → IsLookedAt graph.now places kept.new a }
{
    let states = delta.states.as_slice();
    let sent = delta.sent.as_slice();
    let created = delta.created.as_slice();
    let released = delta.released.as_slice();
    touch_states(kept, graph, places, states);
    touch_counts(kept, graph, places, sent);
    touch_targets(kept, graph, places, created);
    touch_targets(kept, graph, places, released);
}

/// Whom the window's rows touch is touched, if they count: where the node from which it admits is lost.
fn touch_window(kept: &mut KeptMarks, graph: &ShadowGraph, places: u32, window: &Window)
    requires { places ≤ length kept.old.supports }
    ensures touches { TouchesMore places kept.old kept.new }
    ensures actors { has_node (lost_in graph.now) window.now.from ≡ true → (a : Actor) → is_touched (window_ledger window.now) a ≡ true
        → IsLookedAt graph.now places kept.new a }
{
    let counts = graph.lost().contains(window.from);
    if !counts {
        return;
    }
    let messages = window.messages.as_slice();
    let carried = window.carried.as_slice();
    touch_counts(kept, graph, places, messages);
    touch_targets(kept, graph, places, carried);
}

/// Whom the bulletin touches is touched. It takes no memory. Linear time in the number of rows.
pub fn touch_rows(kept: &mut KeptMarks, graph: &ShadowGraph, places: u32, b: &Bulletin)
    requires { places ≤ length kept.old.supports }
    ensures touches { TouchesMore places kept.old kept.new }
    ensures actors { (a : Actor) → touches (lost_in graph.now) b.now a ≡ true → IsLookedAt graph.now places kept.new a }
{
    match b {
        Bulletin::Delta(delta) => touch_delta(kept, graph, places, delta),
        Bulletin::Window(window) => touch_window(kept, graph, places, window),
        Bulletin::Final(window) => touch_window(kept, graph, places, window),
    }
}

/// The places from the one number on, below the other, are touched.
pub fn touch_from(kept: &mut KeptMarks, from: u32, to: u32)
    requires { to ≤ length kept.old.supports }
    ensures touches { TouchesMore to kept.old kept.new }
    ensures added { (a : ℕ) → from ≤ a → a < to → has_place kept.new.touched a ≡ true }
{
    for place in from..to {
        kept.touch(place);
    }
}

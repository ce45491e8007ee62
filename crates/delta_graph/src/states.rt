//! States added up.
ghost use Rattle.std.specs.Prelude.{◌≡◌, ◌+◌, ◌<◌, ◌^◌, if◌then◌else◌, min, IfOk, OnOk};
ghost use Rattle.crgc_ids.specs.Actor.{Actor, IsActorBelow, same_actor};
ghost use Rattle.crgc_ids.specs.Rising.{IsRising};
ghost use Rattle.history_model.specs.Ledgers.{received_total, row_flags};

use crgc_ids::NoMemory;
use history_model::{StateRow, StateRows};
use row_sums::compare_actors;

/// The states added up: those of one actor become one, which counts the messages of all, and has the flags of the last.
/// Time in proportion to n log n for n states.
pub fn sum_of_states(rows: Vec<StateRow>) -> Result<StateRows, NoMemory>
    requires { (a : Actor) → received_total a rows.items < 2 ^ 32 }
    ensures rise { IfOk result (λ s. IsRising (λ r t. IsActorBelow r.actor t.actor) s) }
    ensures received { IfOk result (λ s. (a : Actor) → received_total a s ≡ received_total a rows.items) }
    ensures flags { IfOk result (λ s. (a : Actor) → row_flags a s ≡ row_flags a rows.items) }
{
    let mut rows = rows;
    add_up_states(&mut rows)?;
    Ok(StateRows::from_vec(rows))
}

/// The states are sorted, those of one actor in their order, and each takes in the later ones of its actor.
fn add_up_states(rows: &mut Vec<StateRow>) -> Result<(), NoMemory>
    requires { (a : Actor) → received_total a rows.old.items < 2 ^ 32 }
    ensures rise { OnOk result (IsRising (λ r t. IsActorBelow r.actor t.actor) rows.new.items) }
    ensures received { OnOk result ((a : Actor) → received_total a rows.new.items ≡ received_total a rows.old.items) }
    ensures flags { OnOk result ((a : Actor) → row_flags a rows.new.items ≡ row_flags a rows.old.items) }
{
    match rows.sort_by(|r, s| compare_actors(r.actor, s.actor)) {
        Ok(()) => {
            rows.dedup_by(|next, last| take_in_state(last, next));
            Ok(())
        }
        Err(_) => Err(NoMemory),
    }
}

/// Whether the next state is of the last one's actor. The last one then takes in its messages, and has its flags.
fn take_in_state(last: &mut StateRow, next: &StateRow) -> bool
    ensures same { result ≡ same_actor last.old.actor next.now.actor }
    ensures sum { last.new ≡ (if result then record last.old {
      received = min (last.old.received + next.now.received) 4294967295;
      busy = next.now.busy;
      root = next.now.root;
    } else last.old) }
{
    let same = last.actor == next.actor;
    if same {
        // where the totals fit, nothing is cut off
        last.received = last.received.saturating_add(next.received);
        last.busy = next.busy;
        last.root = next.root;
    }
    same
}

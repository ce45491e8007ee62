//! A bulletin that fits the wire has a spelling. The functions only read, and answer nothing: their contracts are the law, since the types of
//! the rows keep their numbers in range.
ghost use Rattle.std.specs.Prelude.{◌≢◌, ◌<◌, ◌^◌, length};
ghost use Rattle.std.specs.List.{AllByRecursion};
ghost use Rattle.crgc_ids.specs.Actor.{IsActor};
ghost use Rattle.history_model.specs.Ledgers.{delta_ledger, window_ledger};
ghost use Rattle.bulletin_streams.specs.Standing.{FitsWire, HasFewRows};
ghost use Rattle.wire_grammar.specs.Spellable.{AreCounts, ArePairs, AreStates, IsDelta, IsSpellable, IsStateRow, IsWindow};
ghost use Rattle.bulletin_spelling.specs.Rows.{IsInRange, IsPairInRange};

use crgc_ids::{ActorCount, ActorCounts, ActorId, PairCount, PairCounts};
use history_model::{Bulletin, Delta, StateRow, StateRows, Window};

/// A bulletin that fits the wire has a spelling. Linear time in the number of rows.
pub fn is_spellable(b: &Bulletin)
    requires { FitsWire b.now }
    ensures { IsSpellable b.now }
{
    match b {
        Bulletin::Delta(delta) => is_delta(delta),
        Bulletin::Window(window) => is_window(window),
        Bulletin::Final(window) => is_window(window),
    }
}

fn is_delta(delta: &Delta)
    requires { HasFewRows (delta_ledger delta.now) }
    ensures { IsDelta delta.now }
{
    let _node = delta.node.get();
    are_states(&delta.states);
    are_counts(&delta.sent);
    are_pairs(&delta.created);
    are_pairs(&delta.released);
}

fn is_window(window: &Window)
    requires link { window.now.from ≢ window.now.at }
    requires rows { HasFewRows (window_ledger window.now) }
    ensures { IsWindow window.now }
{
    let _at = window.at.get();
    let _from = window.from.get();
    are_counts(&window.messages);
    are_pairs(&window.carried);
}

fn are_states(rows: &StateRows)
    requires { length rows.now < 2 ^ 32 }
    ensures { AreStates rows.now }
{
    states_in_range(rows.as_slice());
}

fn are_counts(rows: &ActorCounts)
    requires { length rows.now < 2 ^ 32 }
    ensures { AreCounts rows.now }
{
    counts_in_range(rows.as_slice());
}

fn are_pairs(rows: &PairCounts)
    requires { length rows.now < 2 ^ 32 }
    ensures { ArePairs rows.now }
{
    pairs_in_range(rows.as_slice());
}

/// The numbers of the rows are in range, as the readers of their actors say.
fn states_in_range(rows: &[StateRow])
    ensures { AllByRecursion IsStateRow rows.now }
{
    for row in rows {
        actor_in_range(row.actor);
        count_in_range(row.received);
    }
}

fn counts_in_range(rows: &[ActorCount])
    ensures { AllByRecursion IsInRange rows.now }
{
    for row in rows {
        actor_in_range(row.actor);
        count_in_range(row.count);
    }
}

fn pairs_in_range(rows: &[PairCount])
    ensures { AllByRecursion IsPairInRange rows.now }
{
    for row in rows {
        actor_in_range(row.owner);
        actor_in_range(row.target);
        count_in_range(row.count);
    }
}

fn actor_in_range(actor: ActorId)
    ensures { IsActor actor }
{
    let _node = actor.node().get();
    let _serial = actor.serial();
}

fn count_in_range(count: u32)
    ensures { count < 2 ^ 32 }
{
    let _count = count;
}

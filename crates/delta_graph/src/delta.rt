//! Entries added up.
ghost use Rattle.std.specs.Prelude.{◌≡◌, ◌≤◌, IfErr, IfOk, OnOk, length};
ghost use Rattle.history_model.specs.Graph.{rising_actors};
ghost use Rattle.history_model.specs.Ledgers.{IsInOrder, delta_ledger, entries_ledger, ledger_names};
ghost use Rattle.history_model.specs.Tells.{IsDeltaOf};
ghost use Rattle.delta_graph.specs.Sums.{CountsFit, IsFaultOf, named_count};
ghost use Rattle.crgc_ids.specs.declared.limits.TheConstants.{MOST_NAMED};

use crate::fault::DeltaFault;
use crate::gathered::{created_of, released_of, sent_of, states_of};
use crate::names::names_too_many;
use crate::states::sum_of_states;
use crgc_ids::{NoMemory, NodeId};
use history_model::{Delta, Entry};
use row_sums::{sum_of_counts, sum_of_pairs};
use std::alloc::Global;

/// The Delta of the node that is the sum of the entries: of each actor's flags the last stand, and all counts add up. Its
/// rows rise, and none counts 0, so there is one. `TableFull` exactly where the entries name more than 200,000 different
/// actors. Time in proportion to n log n for n rows.
pub fn delta_of(alloc: Global, node: NodeId, entries: &[Entry]) -> Result<Delta, DeltaFault>
    requires { CountsFit (entries_ledger entries.now) }
    ensures sum { IfOk result (λ d. IsDeltaOf node entries.now d) }
    ensures ordered { IfOk result (λ d. IsInOrder (delta_ledger d)) }
    ensures named { OnOk result (named_count entries.now ≤ MOST_NAMED) }
    ensures fault { IfErr result (λ f. IsFaultOf entries.now f) }
{
    let delta = sum_of(alloc, node, entries)?;
    if names_too_many(alloc, &delta)? {
        return Err(DeltaFault::TableFull);
    }
    Ok(delta)
}

/// The sum of the entries, whomever it names.
fn sum_of(alloc: Global, node: NodeId, entries: &[Entry]) -> Result<Delta, NoMemory>
    requires { CountsFit (entries_ledger entries.now) }
    ensures sum { IfOk result (λ d. IsDeltaOf node entries.now d) }
    ensures ordered { IfOk result (λ d. IsInOrder (delta_ledger d)) }
    ensures named { IfOk result (λ d. length (rising_actors (ledger_names (delta_ledger d))) ≡ named_count entries.now) }
{
    let states = states_of(alloc, entries)?;
    let sent = sent_of(alloc, entries)?;
    let created = created_of(alloc, entries)?;
    let released = released_of(alloc, entries)?;
    Ok(Delta {
        node,
        states: sum_of_states(states)?,
        sent: sum_of_counts(sent),
        created: sum_of_pairs(created),
        released: sum_of_pairs(released),
    })
}

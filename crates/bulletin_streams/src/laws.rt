//! The laws of queues and streams. Each function does nothing, and its contract is the law.
ghost use Rattle.std.specs.Prelude.{◌≡◌, ◌<◌, ◌≤◌, true, ℕ, List, length};
ghost use Rattle.history_model.specs.declared.events.Event.{Event};
ghost use Rattle.history_model.specs.declared.records.Bulletin.{Bulletin};
ghost use Rattle.history_model.specs.declared.records.Window.{Window};
ghost use Rattle.history_model.specs.Cluster.{Cluster};
ghost use Rattle.history_model.specs.Ledgers.{CountFromOne, IsInOrder, entries_ledger, entry_ledger, window_ledger};
ghost use Rattle.history_model.specs.Tells.{CountsMessages, IsOrdered, admitted_since};
ghost use Rattle.journal_model.specs.Lines.{AreWithinRanges};
ghost use Rattle.delta_graph.specs.Sums.{CountsFit};
ghost use Rattle.bulletin_streams.specs.Standing.{AreStreamsOf, FitsWire, IsWithinLimits, StandAfter, TellsLink, TellsNumber, is_silent};
ghost use Rattle.bulletin_streams.specs.StreamState.{AreAlike, StreamState, stream_at};
ghost use Rattle.crgc_ids.specs.declared.limits.TheConstants.{MOST_EVENTS};

use history_model::{Entry, Window};

/// No row of an entry counts 0, as the types of its rows keep.
pub fn an_entry_counts_from_one(entry: &Entry)
    ensures { CountFromOne (entry_ledger entry.now) }
{
    let _created = entry.created.as_slice();
    let _sent = entry.sent.as_slice();
    let _released = entry.released.as_slice();
}

/// The rows of a window rise, and none counts 0, as their types keep.
pub fn a_window_is_in_order(window: &Window)
    ensures { IsInOrder (window_ledger window.now) }
{
    let _messages = window.messages.as_slice();
    let _carried = window.carried.as_slice();
}

/// The same entries and bulletins stand for the same. So streams stand after a call that only reserved room, or that failed.
pub fn streams_that_keep_the_same_stand()
    ensures { (cl : Cluster) (h : List Event) (old new : List StreamState) → AreAlike old new → AreStreamsOf cl h old → AreStreamsOf cl h new }
{}

/// An event that moves nothing to a queue or a stream leaves them.
pub fn other_events_leave_streams()
    ensures { (cl : Cluster) (e : Event) (p : List Event) (streams : List StreamState) → is_silent e ≡ true → StandAfter cl e p streams streams }
{}

/// A window that counts the messages that were admitted on its link since the last one tells what its node admitted there.
pub fn a_window_tells_its_link()
    ensures { (p : List Event) (w : Window) → CountsMessages w (admitted_since w.from w.at p) → TellsLink p w }
{}

/// In a history whose messages carry at most 16 references each, the counts of the entries fit 32 bits up to 1,000,000 events,
/// and a stream has no more bulletins than the history has events.
pub fn streams_are_no_larger_than_their_history()
    ensures queue { (cl : Cluster) (h : List Event) (streams : List StreamState) (n : ℕ) → AreStreamsOf cl h streams → n < 16
        → AreWithinRanges h → length h ≤ MOST_EVENTS → CountsFit (entries_ledger (stream_at streams n).entries) }
    ensures stream { (cl : Cluster) (h : List Event) (streams : List StreamState) (n : ℕ) → AreStreamsOf cl h streams → n < 16
        → length (stream_at streams n).bulletins ≤ length h }
{}

/// In a legal history within its limits each bulletin of a stream has a spelling.
pub fn bulletins_fit_the_wire()
    ensures { (cl : Cluster) (h : List Event) (o k : ℕ) (b : Bulletin) → IsWithinLimits cl h → IsOrdered b → TellsNumber cl h o k b → FitsWire b }
{}

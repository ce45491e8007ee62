//! The laws of logs: what ties them to facts and to the history. Each function does nothing, and its contract is the law.
ghost use Rattle.std.specs.Prelude.{◌≡◌, ◌==◌, ◌++◌, [], ◌∷◌, if◌then◌else◌, ℕ, false, List, IsTrue, None, Some, length};
ghost use Rattle.std.specs.List.{AllByRecursion};
ghost use Rattle.crgc_ids.specs.Actor.{Actor};
ghost use Rattle.history_model.specs.declared.events.Event.{Event};
ghost use Rattle.history_model.specs.declared.events.Event.TheVariants.{Flush, Seed, Spawn};
ghost use Rattle.history_model.specs.declared.records.Entry.{Entry};
ghost use Rattle.history_model.specs.Cluster.{Cluster, is_born, newborn};
ghost use Rattle.history_model.specs.Facts.{Fact, Flags, created, flagged, is_created, is_received, is_released, is_sent_to, message_facts, notes};
ghost use Rattle.history_model.specs.Messages.{Message};
ghost use Rattle.history_model.specs.Streams.{can_flush, entry, facts_by, flags_at, is_flush_of};
ghost use Rattle.history_model.specs.Tally.{tally};
ghost use Rattle.history_model.specs.Tells.{TellsEntry};
ghost use Rattle.entry_records.specs.Log.{IsEntryOf, IsLogAt, IsLogOf, MayNote, Log, birth_facts, blank_log, flushed_log, log_with, may_flush, without_last_message};
ghost use Rattle.entry_records.specs.Unflushed.{actor_count, pair_count};

/// A blank log counts no facts. A log that counts what facts say counts these and more where more are noted that its actor
/// may note. Its entry tells these facts, and there is one.
pub fn a_log_counts_what_is_noted()
    ensures blank { (a : Actor) → IsLogOf [] (blank_log a) }
    ensures more { (l : Log) (known more : List Fact) → IsLogOf known l → AllByRecursion (MayNote l.actor) more
        → IsLogOf (known ++ more) (log_with more l) }
    ensures entry { (l : Log) (known : List Fact) (flags : Flags) (e : Entry) → IsLogOf known l → IsEntryOf l flags e
        → TellsEntry l.actor e (flagged l.actor flags ∷ known) }
    ensures one { (l : Log) (flags : Flags) (e f : Entry) → IsEntryOf l flags e → IsEntryOf l flags f → e ≡ f }
{}

/// A message that was noted as sent, and is then taken back, leaves the log as it was before.
pub fn a_message_taken_back_was_not_noted()
    ensures { (l : Log) (m : Message) → without_last_message (length m.refs) (log_with (message_facts m) l) ≡ l }
{}

/// What a log counts is what its facts count: so where these fit, so do the log's counts.
pub fn a_log_has_the_counts_of_its_facts()
    ensures received { (l : Log) (known : List Fact) → IsLogOf known l → l.noted.received ≡ tally (is_received l.actor) known }
    ensures sent { (l : Log) (known : List Fact) (a : Actor) → IsLogOf known l → actor_count a l.noted.sent ≡ tally (is_sent_to a) known }
    ensures created { (l : Log) (known : List Fact) (b a : Actor) → IsLogOf known l → pair_count b a l.noted.created ≡ tally (is_created b a) known }
    ensures released { (l : Log) (known : List Fact) (a : Actor) → IsLogOf known l → actor_count a l.noted.released
        ≡ tally (is_released l.actor a) known }
{}

/// What a birth notes: the newborn's log begins with it, and in version 2 the parent notes the child's reference to it.
pub fn a_birth_is_noted()
    ensures seed { (cl : Cluster) (n : ℕ) (h : List Event) → facts_by (newborn n h) (notes cl (Seed n) h) ≡ birth_facts (newborn n h) None }
    ensures child { (cl : Cluster) (a : Actor) (h : List Event) → IsTrue (is_born a h)
        → facts_by (newborn a.node h) (notes cl (Spawn a) h) ≡ birth_facts (newborn a.node h) (Some a) }
    ensures parent { (cl : Cluster) (a : Actor) (h : List Event) → IsTrue (is_born a h) → facts_by a (notes cl (Spawn a) h)
        ≡ (if cl.version == 2 then created (newborn a.node h) a ∷ [] else []) }
{}

/// The log of an actor follows the history: it is blank before the first event, each event adds what the actor notes, and a
/// flush of the actor blanks it and keeps the flags. It says whether the actor can be flushed, and the entry tells what the
/// flush moves to the queue.
pub fn a_log_follows_its_history()
    ensures begins { (cl : Cluster) (a : Actor) → IsLogAt cl [] (blank_log a) }
    ensures step { (cl : Cluster) (e : Event) (h : List Event) (l : Log) → is_flush_of l.actor e ≡ false → IsLogAt cl h l
        → IsLogAt cl (e ∷ h) (log_with (facts_by l.actor (notes cl e h)) l) }
    ensures flush { (cl : Cluster) (h : List Event) (l : Log) → IsLogAt cl (Flush l.actor ∷ h) (flushed_log l (flags_at l.actor h)) }
    ensures may { (cl : Cluster) (h : List Event) (l : Log) → IsLogAt cl h l → may_flush l (flags_at l.actor h) ≡ can_flush cl l.actor h }
    ensures tells { (cl : Cluster) (h : List Event) (l : Log) (e : Entry) → IsLogAt cl h l → IsEntryOf l (flags_at l.actor h) e
        → TellsEntry l.actor e (entry cl l.actor h) }
{}

//! The laws of the table of actors: what it stands for, event by event. Each function does nothing, and its contract is the law.
ghost use Rattle.std.specs.Prelude.{◌≡◌, ◌+◌, ◌*◌, ◌<◌, ◌^◌, ◌&&◌, ◌∷◌, [], ℕ, false, true, length, map, slice_get, List, Some};
ghost use Rattle.crgc_ids.specs.Actor.{Actor};
ghost use Rattle.crgc_ids.specs.Members.{IsAmong};
ghost use Rattle.history_model.specs.declared.events.Event.{Event};
ghost use Rattle.history_model.specs.declared.events.Event.TheVariants.{Seed, Tie, Wake, Take, Spawn, Send, Drop, Retire, Rest};
ghost use Rattle.history_model.specs.declared.events.Event.TheVariants.{Flush, Crash, Sweep};
ghost use Rattle.history_model.specs.declared.records.Stop.{Stop};
ghost use Rattle.history_model.specs.Cluster.{Cluster, is_born};
ghost use Rattle.history_model.specs.Legal.{IsLegal};
ghost use Rattle.history_model.specs.Live.{busy_count};
ghost use Rattle.history_model.specs.Messages.{Message, waiting};
ghost use Rattle.history_model.specs.State.{is_up};
ghost use Rattle.history_model.specs.Streams.{can_flush};
ghost use Rattle.history_model.specs.Sweeps.{stopped_by};
ghost use Rattle.actor_states.specs.State.{Drops, Flushes, HasRoom, Sends, Takes, has_news, unsent};
ghost use Rattle.node_actors.specs.Node.{blank_node};
ghost use Rattle.roster.specs.Standing.{IsRosterOf, SendsAreShort, StandsAfter, is_of_no_actor, stopped_at};
ghost use Rattle.roster.specs.Table.{Changes, Crashes, IsAsBefore, IsHere, Seeds, SpawnsFrom, Stops, Table, Ties};
ghost use Rattle.roster.specs.Table.{busy_total, may_be_flushed, node_in, state_at, stopped_in};

/// A new table stands for the beginning.
pub fn a_new_table_stands_for_the_beginning()
    ensures { (cl : Cluster) (r : Table) → r.version ≡ cl.version → length r.nodes ≡ cl.nodes → ((n : ℕ) → node_in r n ≡ blank_node n)
        → IsRosterOf cl [] r }
{}

/// A table on which nothing changed stands for the same, and an event of links, streams or collectors leaves it.
pub fn other_events_leave_the_table()
    ensures before { (cl : Cluster) (h : List Event) (old new : Table) → IsAsBefore old new → IsRosterOf cl h old → IsRosterOf cl h new }
    ensures other { (cl : Cluster) (e : Event) (p : List Event) (r : Table) → is_of_no_actor e ≡ true → StandsAfter cl e p r r }
{}

/// Births.
pub fn births_are_stood_for()
    ensures seeded { (cl : Cluster) (n : ℕ) (p : List Event) (old new : Table) → Seeds old new n → StandsAfter cl (Seed n) p old new }
    ensures spawned { (cl : Cluster) (a : Actor) (p : List Event) (old new : Table) → SpawnsFrom old new a → StandsAfter cl (Spawn a) p old new }
{}

/// An actor wakes, rests or retires.
pub fn flags_are_stood_for()
    ensures woken { (cl : Cluster) (a : Actor) (p : List Event) (old new : Table) → Changes old new a (λ s t. t ≡ record s { busy = true })
        → StandsAfter cl (Wake a) p old new }
    ensures rested { (cl : Cluster) (a : Actor) (p : List Event) (old new : Table) → Changes old new a (λ s t. t ≡ record s { busy = false })
        → StandsAfter cl (Rest a) p old new }
    ensures retired { (cl : Cluster) (a : Actor) (p : List Event) (old new : Table) → Changes old new a (λ s t. t ≡ record s { root = false })
        → StandsAfter cl (Retire a) p old new }
{}

/// An actor takes the references of the first message that waits, or sends.
pub fn messages_are_stood_for()
    ensures taken { (cl : Cluster) (a : Actor) (p : List Event) (old new : Table) (refs : List Actor)
        → slice_get (map (λ (m : Message). m.refs) (waiting a p)) 0 ≡ Some refs → Changes old new a (Takes refs) → StandsAfter cl (Take a) p old new }
    ensures sent { (cl : Cluster) (a : Actor) (p : List Event) (old new : Table) (to : Actor) (refs : List Actor)
        → Changes old new a (Sends to refs) → StandsAfter cl (Send a to refs) p old new }
{}

/// A send can be taken back, and the table is then as it was before it.
pub fn a_send_can_be_taken_back()
    ensures sent { (old mid : Table) (a to : Actor) (refs : List Actor) → Changes old mid a (Sends to refs)
        → 0 < length (state_at mid a).log.noted.sent }
    ensures before { (old mid new : Table) (a to : Actor) (refs : List Actor) → Changes old mid a (Sends to refs)
        → Changes mid new a (λ s t. t ≡ unsent (length refs) s) → IsAsBefore old new }
{}

/// References are tied and dropped.
pub fn references_are_stood_for()
    ensures tied { (cl : Cluster) (o t : Actor) (p : List Event) (old new : Table) → Ties old new o t → StandsAfter cl (Tie o t) p old new }
    ensures dropped { (cl : Cluster) (a : Actor) (p : List Event) (old new : Table) (t : Actor) → Changes old new a (Drops t)
        → StandsAfter cl (Drop a t) p old new }
{}

/// An actor is flushed, or a node crashes.
pub fn flushes_and_crashes_are_stood_for()
    ensures flushed { (cl : Cluster) (a : Actor) (p : List Event) (old new : Table) → Changes old new a Flushes → StandsAfter cl (Flush a) p old new }
    ensures crashed { (cl : Cluster) (n : ℕ) (p : List Event) (old new : Table) → Crashes old new n → StandsAfter cl (Crash n) p old new }
{}

/// A sweep stops actors that were born, on a node that is up.
pub fn stops_are_stood_for()
    ensures swept { (cl : Cluster) (m : ℕ) (p : List Event) (old new : Table) (stops : List Stop)
        → map (λ (s : Stop). s.actor) stops ≡ stopped_by cl m p → Stops old new stops → StandsAfter cl (Sweep m) p old new }
    ensures here { (cl : Cluster) (m : ℕ) (p : List Event) (r : Table) (a : Actor) → IsLegal cl (Sweep m ∷ p) → IsRosterOf cl p r
        → IsAmong a (stopped_by cl m p) → IsHere r a }
{}

/// What is counted of the states is counted of the actors, and an actor may be flushed where its flush is legal.
pub fn counts_are_stood_for()
    ensures busy { (cl : Cluster) (h : List Event) (r : Table) → IsRosterOf cl h r → busy_total r ≡ busy_count cl h }
    ensures stopped { (cl : Cluster) (h : List Event) (r : Table) → IsRosterOf cl h r → (n : ℕ) → stopped_in r n ≡ stopped_at cl n h }
    ensures flushed { (cl : Cluster) (h : List Event) (r : Table) → IsRosterOf cl h r → (a : Actor) → may_be_flushed r a
        ≡ (is_up a.node h && (is_born a h && can_flush cl a h)) }
    ensures news { (cl : Cluster) (h : List Event) (r : Table) → IsRosterOf cl h r → (a : Actor) → has_news (state_at r a) ≡ can_flush cl a h }
{}

/// Where each send has at most 16 references, and 20 for each event and k more fit 32 bits, k more fit each count of a state.
pub fn counts_have_room()
    ensures { (cl : Cluster) (h : List Event) (r : Table) (a : Actor) (k : ℕ) → SendsAreShort h → IsRosterOf cl h r
        → 20 * length h + k < 2 ^ 32 → HasRoom (state_at r a) k }
{}

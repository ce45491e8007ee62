//! The laws of what is live, busy and ready. Each function does nothing, and its contract is the law.
ghost use Rattle.std.specs.Prelude.{◌≡◌, ◌↔◌, ℕ, true, List, None};
ghost use Rattle.crgc_ids.specs.Actor.{Actor};
ghost use Rattle.history_model.specs.declared.events.Event.{Event};
ghost use Rattle.history_model.specs.declared.events.Event.TheVariants.{Take};
ghost use Rattle.history_model.specs.Cluster.{Cluster};
ghost use Rattle.history_model.specs.Legal.{IsLegal, refusal};
ghost use Rattle.history_model.specs.Live.{NobodyIsBusy, NothingIsLive, busy_count, is_ready, live_at, live_count};
ghost use Rattle.history_model.specs.Messages.{Message};
ghost use Rattle.history_model.specs.Quiescent.{IsDelivered, IsLive, LosesNothing};

/// The counts of live messages and of busy actors are 0 exactly where there are none; so is each node's count of the live
/// messages that go there.
pub fn what_is_live_is_counted()
    ensures messages { (cl : Cluster) (h : List Event) → IsLegal cl h → (live_count cl h ≡ 0) ↔ NothingIsLive h }
    ensures node { (cl : Cluster) (h : List Event) (n : ℕ) → IsLegal cl h
        → (live_at cl n h ≡ 0) ↔ ((m : Message) → m.to.node ≡ n → ¬ IsLive h m) }
    ensures busy { (cl : Cluster) (h : List Event) → IsLegal cl h → (busy_count cl h ≡ 0) ↔ NobodyIsBusy h }
{}

/// The ready actors are exactly those for which no rule refuses that they take a message.
pub fn who_is_ready_may_take()
    ensures { (cl : Cluster) (h : List Event) (a : Actor) → IsLegal cl h → (is_ready a h ≡ true) ↔ (refusal cl (Take a) h ≡ None) }
{}

/// Where no copy was lost on links between nodes that are up, each message between such nodes is admitted or under way.
pub fn what_is_not_lost_is_delivered()
    ensures { (h : List Event) → LosesNothing h → IsDelivered h }
{}

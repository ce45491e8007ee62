//! How the collectors of a cluster go with its history. The function does nothing, and its contract is the law.
ghost use Rattle.std.specs.Prelude.{◌≡◌, ◌∷◌, List, false};
ghost use Rattle.history_model.specs.declared.events.Event.{Event};
ghost use Rattle.history_model.specs.Cluster.{Cluster};
ghost use Rattle.collector.specs.Collected.{Collected};
ghost use Rattle.node_collectors.specs.Standing.{AreCollectorsAt, is_of_collector};

/// An event that is neither a hand nor a sweep leaves all collectors where they are.
pub fn collectors_follow_events()
    ensures { (cl : Cluster) (h : List Event) (e : Event) (cs : List Collected) → is_of_collector e ≡ false
        → AreCollectorsAt cl h cs → AreCollectorsAt cl (e ∷ h) cs }
{}

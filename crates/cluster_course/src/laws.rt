//! What holds of each legal history. The function does nothing, and its contract is the law.
ghost use Rattle.std.specs.Prelude.{List};
ghost use Rattle.history_model.specs.declared.events.Event.{Event};
ghost use Rattle.history_model.specs.Cluster.{Cluster};
ghost use Rattle.history_model.specs.Legal.{IsLegal};
ghost use Rattle.cluster_course.specs.Collected.{IsRightlyCollected};

/// A legal history is rightly collected: its sweeps stop only quiescent actors, which stay so and are used no more, in version 2 with
/// their children, and at a quiet point of its node a sweep leaves none.
pub fn a_legal_history_is_rightly_collected()
    ensures { (cl : Cluster) (h : List Event) → IsLegal cl h → IsRightlyCollected cl h }
{}

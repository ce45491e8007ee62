//! What the traffic stands for, where no call of its own says it. Each function does nothing, and its contract is the law.
ghost use Rattle.std.specs.Prelude.{◌≡◌, true, List};
ghost use Rattle.history_model.specs.declared.events.Event.{Event};
ghost use Rattle.history_model.specs.Cluster.{Cluster};
ghost use Rattle.history_model.specs.Legal.{IsLegal};
ghost use Rattle.traffic.specs.Changes.{IsAsBefore};
ghost use Rattle.traffic.specs.Fitting.{CopiesFit, GatesFit, IsSmall, LiveFits, SentFits};
ghost use Rattle.traffic.specs.Standing.{IsTrafficOf, Keeps, is_beside};
ghost use Rattle.traffic.specs.TrafficState.{TrafficState};

/// An event that is beside the traffic leaves it: a birth, a tie, a drop, a retirement, a flush, a publication, a hand or a
/// sweep.
pub fn other_events_leave_traffic()
    ensures { (cl : Cluster) (e : Event) (p : List Event) (t : TrafficState) → is_beside e ≡ true → Keeps cl e p t t }
{}

/// Traffic that is as before, but for reserved room, stands for what it stood for.
pub fn what_is_as_before_stands_as_before()
    ensures { (cl : Cluster) (h : List Event) (old new : TrafficState) → IsAsBefore old new → IsTrafficOf cl h old → IsTrafficOf cl h new }
{}

/// Where a legal history has at most 1,000,000 events and each of its messages carries at most 16 references, the conditions
/// of the calls on numbers hold: those of a send, of a repeat and of an admission.
pub fn small_histories_fit()
    ensures sent { (cl : Cluster) (h : List Event) (t : TrafficState) → IsSmall h → IsTrafficOf cl h t → SentFits t }
    ensures live { (cl : Cluster) (h : List Event) (t : TrafficState) → IsSmall h → IsLegal cl h → IsTrafficOf cl h t → LiveFits t }
    ensures copies { (cl : Cluster) (h : List Event) (t : TrafficState) → IsSmall h → IsTrafficOf cl h t → CopiesFit t }
    ensures gates { (cl : Cluster) (h : List Event) (t : TrafficState) → IsSmall h → IsTrafficOf cl h t → GatesFit t }
{}

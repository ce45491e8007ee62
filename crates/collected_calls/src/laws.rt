//! How a collector goes with the calls of the pass that claimed its node. Each function does nothing, and its contract is the law.
ghost use Rattle.std.specs.Prelude.{◌≡◌, ◌∷◌, ◌<◌, ℕ, List, None, Some, true, false};
ghost use Rattle.crgc_ids.specs.Actor.{Actor};
ghost use Rattle.turn_lock.specs.History.{calls_of, entry};
ghost use Rattle.history_model.specs.declared.records.Verdict.{Verdict};
ghost use Rattle.history_model.specs.Cluster.{Cluster};
ghost use Rattle.history_model.specs.Compaction.{AreStopped};
ghost use Rattle.history_model.specs.State.{is_up};
ghost use Rattle.node_collectors.specs.Standing.{IsRead};
ghost use Rattle.run_model.specs.Doing.{cluster_of};
ghost use Rattle.operation_model.specs.declared.operations.Op.{Op};
ghost use Rattle.operation_model.specs.declared.operations.Op.TheVariants as ops;
ghost use Rattle.operation_model.specs.declared.replies.Reply.{Reply};
ghost use Rattle.operation_model.specs.declared.replies.Reply.TheVariants as replies;
ghost use Rattle.operation_model.specs.Answers.{IsCourse};
ghost use Rattle.operation_model.specs.Courses.{world};
ghost use Rattle.operation_model.specs.Deeds.{deed_of};
ghost use Rattle.operation_model.specs.Hands.{IsOwnVerdict, given, has_claimed, own_stopped};
ghost use Rattle.operation_model.specs.Openings.{IsNew, Opening};
ghost use Rattle.operation_model.specs.Turns.{Calls};
ghost use Rattle.collector.specs.Collected.{Collected, IsCollectorAt, IsNew as IsNewCollector, cut_of, was_stopped};
ghost use Rattle.collector.specs.Sweeping.{Compacts, Sweeps};
ghost use Rattle.collector.specs.Taking.{IsTaken, Takes};
ghost use Rattle.shadow_graph.specs.Seen.{is_dropped};
ghost use Rattle.collected_calls.specs.Collecting.{HasCollected, IsCollectorOf, RemembersMore, WasToldDown, is_collecting};

/// A new collector goes with a pass that has claimed its node, and was given nothing for it and swept nothing there yet. It goes on
/// with each call: where the pass is given the next bulletin of an origin and the collector takes its bytes, where the pass tells
/// the verdict of the collector's sweep, and where a call is of neither kind; and compaction leaves it where it is. Where a
/// verdict could not be told, it remembers more than the pass's sweeps stopped, whatever it drops of them.
pub fn a_collector_follows_the_calls_of_its_pass()
    ensures start { (cl : Cluster) (own : Calls) (m : ℕ) (c : Collected) → IsNewCollector m cl.nodes c → has_claimed m own ≡ true
        → ((o k : ℕ) → given m o k own ≡ None) → ((a : Actor) → a.node ≡ m → own_stopped own a ≡ false) → IsCollectorOf cl own c }
    ensures others { (cl : Cluster) (own : Calls) (c : Collected) (op : Op) (r : Reply) (pass : ℕ) → is_collecting (deed_of op r) ≡ false
        → IsCollectorOf cl own c → IsCollectorOf cl (entry pass op r ∷ own) c }
    ensures hand { (cl : Cluster) (own : Calls) (old new : Collected) (o : ℕ) (bytes : List ℕ) (pass : ℕ)
        → Takes o (cut_of old o) bytes old new → IsTaken o (cut_of old o) new → IsCollectorOf cl own old
        → IsCollectorOf cl (entry pass (ops.Hand old.node o (cut_of old o)) (replies.Bytes bytes) ∷ own) new }
    ensures sweep { (cl : Cluster) (own : Calls) (old new : Collected) (v : Verdict) (pass : ℕ) → v.node ≡ old.node → Sweeps old new v
        → IsCollectorOf cl own old → IsCollectorOf cl (entry pass (ops.Sweep v) replies.Done ∷ own) new }
    ensures untold { (cl : Cluster) (own : Calls) (old new : Collected) (v : Verdict) (op : Op) (r : Reply) (pass : ℕ)
        → is_collecting (deed_of op r) ≡ false → Sweeps old new v → IsCollectorOf cl own old → RemembersMore cl (entry pass op r ∷ own) new }
    ensures compact { (cl : Cluster) (own : Calls) (old new : Collected) → Compacts old new
        → IsCollectorOf cl own old → IsCollectorOf cl own new }
    ensures more { (cl : Cluster) (own : Calls) (c : Collected) → IsCollectorOf cl own c → RemembersMore cl own c }
    ensures more_compact { (cl : Cluster) (own : Calls) (old new : Collected) → Compacts old new
        → RemembersMore cl own old → RemembersMore cl own new }
{}

/// A bulletin that a pass was given is none that a collector of the cluster refuses.
pub fn a_given_bulletin_is_read()
    ensures { (o : Opening) (h : Calls) (p n x k : ℕ) (bytes : List ℕ) → IsNew o → IsCourse o h → x < o.script.nodes
        → given n x k (calls_of p h) ≡ Some bytes → IsRead o.script.nodes x bytes }
{}

/// The verdict of a collector's sweep is one that its pass may tell: the sweep of what the pass was given for the node, less whom it
/// stopped there; whomever the collector dropped.
pub fn a_collectors_verdict_fits()
    ensures node { (o : Opening) (h : Calls) (p : ℕ) (old new : Collected) (v : Verdict) → IsNew o → IsCourse o h
        → HasCollected (cluster_of o.script) (calls_of p h) old → Sweeps old new v → v.node ≡ old.node }
    ensures own { (o : Opening) (h : Calls) (p : ℕ) (old new : Collected) (v : Verdict) → IsNew o → IsCourse o h
        → IsCollectorOf (cluster_of o.script) (calls_of p h) old → Sweeps old new v
        → IsOwnVerdict (cluster_of o.script) (calls_of p h) v }
{}

/// The collector of the pass that claimed its node stands at the world's history: of the bulletins it was given those that were handed
/// to its node, it has folded all of them, and it remembers as stopped whom the node's sweeps stopped. That whomever it dropped was
/// stopped is so of each collector. A node that a pass was told to be down is down in the world, whatever calls follow.
pub fn a_collector_stands_at_the_world()
    ensures stands { (o : Opening) (h : Calls) (p : ℕ) (c : Collected) → IsNew o → IsCourse o h
        → IsCollectorOf (cluster_of o.script) (calls_of p h) c → AreStopped (is_dropped c.graph) (was_stopped c)
        → IsCollectorAt (cluster_of o.script) (world o h) c.node c }
    ensures down { (o : Opening) (h : Calls) (p n : ℕ) → IsCourse o h → WasToldDown n (calls_of p h) → is_up n (world o h) ≡ false }
{}

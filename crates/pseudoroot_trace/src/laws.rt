//! Laws of the definitions. Each function does nothing, and its contract is the law.
ghost use Rattle.std.specs.Prelude.{◌≡◌, ◌↔◌, Bool, true, false};
ghost use Rattle.crgc_ids.specs.Actor.{Actor};
ghost use Rattle.crgc_ids.specs.Members.{IsAmong};
ghost use Rattle.crgc_ids.specs.Nodes.{has_node};
ghost use Rattle.history_model.specs.Cluster.{Cluster};
ghost use Rattle.history_model.specs.Compaction.{IsMarked, compacted_dead};
ghost use Rattle.history_model.specs.Folds.{Fold, is_lost};
ghost use Rattle.shadow_graph.specs.Graph.{Graph, lost_in};
ghost use Rattle.shadow_graph.specs.Places.{ArePlaced};
ghost use Rattle.shadow_graph.specs.Seen.{is_dropped, is_known};
ghost use Rattle.shadow_graph.specs.Stands.{IsGraphOf};
ghost use Rattle.pseudoroot_trace.specs.Marked.{IsReachedIn, IsSweepBy};

/// At each fold that the graph stands for, marks reach the places of the actors that a sweep marks which leaves out the dropped;
/// and its dead are the actors that are known, whose node is not lost, and whose place no mark reaches.
pub fn places_reached_are_marked()
    ensures marked { (cl : Cluster) (f : Fold) (g : Graph) → ArePlaced g → IsGraphOf cl f g → (a : Actor)
        → IsMarked cl (is_lost cl f) (is_dropped g) f a ↔ IsReachedIn g a }
    ensures dead { (cl : Cluster) (f : Fold) (g : Graph) → ArePlaced g → IsGraphOf cl f g → (a : Actor)
        → IsAmong a (compacted_dead cl (is_lost cl f) (is_dropped g) f)
        ↔ ((is_known g a ≡ true) × (has_node (lost_in g) a.node ≡ false) × ¬ IsReachedIn g a) }
{}

/// Marks depend on what is folded and on who was dropped, and on nothing else: over two graphs that stand for the same fold, from
/// which the same actors were dropped, sweeps mark the same actors, whatever the order in which each graph named them.
pub fn equal_folds_have_equal_marks()
    ensures { (cl : Cluster) (f : Fold) (g h : Graph) (marked_in_g marked_in_h : Actor → Bool) → IsGraphOf cl f g → IsGraphOf cl f h
        → ((a : Actor) → is_dropped g a ≡ is_dropped h a) → IsSweepBy g marked_in_g → IsSweepBy h marked_in_h
        → (a : Actor) → marked_in_g a ≡ marked_in_h a }
{}

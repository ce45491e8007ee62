//! Laws of the definitions. Each function does nothing, and its contract is the law.
ghost use Rattle.std.specs.Prelude.{◌≡◌, ◌≢◌, ◌<◌, ◌≤◌, ◌↔◌, ◌⊎◌, ◌∷◌, [], ℕ, List, count_by, length};
ghost use Rattle.history_model.specs.declared.records.Bulletin.{Bulletin};
ghost use Rattle.history_model.specs.Cluster.{Cluster};
ghost use Rattle.history_model.specs.Folds.{Fold, links_into, lost_of};
ghost use Rattle.crgc_ids.specs.Actor.{Actor};
ghost use Rattle.crgc_ids.specs.Members.{IsAmong};
ghost use Rattle.history_model.specs.MoreFolded.{with_notice};
ghost use Rattle.history_model.specs.Streams.{Notice};
ghost use Rattle.history_model.specs.Tells.{IsOrdered, Tells};
ghost use Rattle.shadow_graph.specs.Graph.{Graph, lost_in};
ghost use Rattle.shadow_rows.specs.Losing.{LosesNodes};
ghost use Rattle.shadow_graph.specs.Owners.{AreOwners};
ghost use Rattle.shadow_graph.specs.Places.{ArePlaced};
ghost use Rattle.shadow_graph.specs.Same.{AreSame};
ghost use Rattle.shadow_graph.specs.Seen.{is_dropped, is_known};
ghost use Rattle.shadow_graph.specs.Taken.{TakesIn};
ghost use Rattle.membership.specs.Noted.{links_of};
ghost use Rattle.shadow_graph.specs.Stands.{IsGraphOf};

/// A graph that stands for a fold and takes in a bulletin that is no Final stands for the fold with it. With a Final of
/// a link from another node it does once the link is noted and the newly lost nodes are settled.
pub fn a_graph_takes_in_a_bulletin()
    ensures more { (cl : Cluster) (f : Fold) (o : ℕ) (b : Bulletin) (n : Notice) (g h : Graph) → o < cl.nodes → o < length g.cut
        → Tells o b n → IsOrdered b → links_into o (n ∷ []) ≡ [] → TakesIn o b g h → h.finals ≡ g.finals → IsGraphOf cl f g
        → IsGraphOf cl (with_notice o n f) h }
    ensures closing { (cl : Cluster) (f : Fold) (o s : ℕ) (b : Bulletin) (n : Notice) (g m h : Graph) → cl.nodes ≤ 16 → o < cl.nodes
        → s < cl.nodes → s ≢ o → o < length g.cut → Tells o b n → IsOrdered b → links_into o (n ∷ []) ≡ (s, o) ∷ []
        → TakesIn o b g m → m.finals ≡ g.finals → h.finals.nodes ≡ g.finals.nodes
        → ((l : ℕ × ℕ) → IsAmong l (links_of h.finals) ↔ ((l ≡ (s, o)) ⊎ IsAmong l (links_of g.finals)))
        → h.cut ≡ m.cut → h.log ≡ m.log → h.shadows.names ≡ m.shadows.names
        → LosesNodes m.log (lost_in g) (lost_in h) m.shadows h.shadows m.edges h.edges → IsGraphOf cl f g
        → IsGraphOf cl (with_notice o n f) h }
{}

/// The lost nodes of a graph that stands for a fold are those of the fold.
pub fn a_graph_finds_the_lost_nodes()
    ensures { (cl : Cluster) (f : Fold) (g : Graph) → IsGraphOf cl f g → lost_in g ≡ lost_of cl f }
{}

/// Two graphs that stand for one fold and have the same dropped actors are the same to readers, whatever the order in which
/// their bulletins came.
pub fn graphs_of_one_fold_are_the_same()
    ensures { (cl : Cluster) (f : Fold) (g h : Graph) → IsGraphOf cl f g → IsGraphOf cl f h
        → ((a : Actor) → is_dropped g a ≡ is_dropped h a) → AreSame g h }
{}

/// In graphs that are the same to readers equally many actors are known, and the owners of each are the same.
pub fn graphs_that_are_the_same_have_the_same_owners()
    ensures known { (g h : Graph) → ArePlaced g → ArePlaced h → AreSame g h
        → count_by (is_known g) g.shadows.names ≡ count_by (is_known h) h.shadows.names }
    ensures owners { (g h : Graph) (a : Actor) (bs : List Actor) → AreSame g h → AreOwners g a bs → AreOwners h a bs }
{}

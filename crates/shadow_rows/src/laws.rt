//! Laws of the definitions. Each function does nothing, and its contract is the law.
ghost use Rattle.std.specs.Prelude.{◌≡◌, ◌<◌, ℕ, Bool, List, false, not};
ghost use Rattle.crgc_ids.specs.Actor.{Actor};
ghost use Rattle.history_model.specs.Ledgers.{Ledger};
ghost use Rattle.history_model.specs.declared.records.Bulletin.{Bulletin};
ghost use Rattle.history_model.specs.Cluster.{Cluster};
ghost use Rattle.history_model.specs.Folds.{Fold};
ghost use Rattle.history_model.specs.MoreFolded.{IsLostToo, link_rows, own_rows, with_notice};
ghost use Rattle.history_model.specs.Streams.{Notice};
ghost use Rattle.history_model.specs.Tells.{Tells};
ghost use Rattle.edge_table.specs.Table.{Edges};
ghost use Rattle.shadow_table.specs.Shadows.{Shadows};
ghost use Rattle.undo_log.specs.declared.corrections.Correction.{Correction};
ghost use Rattle.shadow_rows.specs.Rows.{AddsLog, AddsRows, Settles};
ghost use Rattle.shadow_rows.specs.Folded.{CountsFold, LogsFold};
ghost use Rattle.shadow_rows.specs.Touched.{LeavesActor, is_touched};

/// Counts that stand for a fold and take in the rows of a bulletin stand for the fold with the bulletin, for any nodes taken as
/// lost; and so does the log.
pub fn rows_add_a_bulletin()
    ensures counts { (cl : Cluster) (lost : ℕ → Bool) (f : Fold) (o : ℕ) (b : Bulletin) (n : Notice) (s t : Shadows) (d e : Edges)
        → o < cl.nodes → Tells o b n → CountsFold cl lost f s d → AddsRows o (not (lost o)) (own_rows b) (link_rows lost b) s t d e
        → CountsFold cl lost (with_notice o n f) t e }
    ensures log { (cl : Cluster) (f : Fold) (o : ℕ) (b : Bulletin) (n : Notice) (l m : List (List Correction)) → o < cl.nodes
        → Tells o b n → LogsFold cl f l → AddsLog o b l m → LogsFold cl (with_notice o n f) m }
{}

/// Where one node more is lost, counts from which what it told is taken back, and in which what others admitted from it is put
/// in, stand for the same fold.
pub fn corrections_lose_a_node()
    ensures { (cl : Cluster) (k : ℕ) (lost more : ℕ → Bool) (f : Fold) (l : List (List Correction)) (s t : Shadows) (d e : Edges)
        → k < cl.nodes → IsLostToo k lost more → LogsFold cl f l → CountsFold cl lost f s d → Settles k l s t d e
        → CountsFold cl more f t e }
{}

/// Rows leave as it was what is known of an actor that they do not touch, and all references to it.
pub fn rows_leave_others_as_they_were()
    ensures { (node : ℕ) (counts : Bool) (own link : Ledger) (s t : Shadows) (d e : Edges) (a : Actor) → is_touched own a ≡ false
        → is_touched link a ≡ false → AddsRows node counts own link s t d e → LeavesActor s t d e a }
{}

//! The laws of bulletins: how the records that are written, read and kept stand to the facts of a history, and what one more
//! bulletin or one more lost node changes. Each function does nothing, and its contract is the law.
ghost use Rattle.std.specs.Prelude.{◌≡◌, ◌≢◌, ◌<◌, ◌++◌, [], ◌∷◌, ℕ, Bool, List};
ghost use Rattle.crgc_ids.specs.Actor.{Actor};
ghost use Rattle.crgc_ids.specs.LostNodes.{lost_nodes};
ghost use Rattle.history_model.specs.declared.events.Event.{Event};
ghost use Rattle.history_model.specs.declared.records.Bulletin.{Bulletin};
ghost use Rattle.history_model.specs.declared.records.Delta.{Delta};
ghost use Rattle.history_model.specs.declared.records.Entry.{Entry};
ghost use Rattle.history_model.specs.declared.records.Window.{Window};
ghost use Rattle.history_model.specs.Cluster.{Cluster};
ghost use Rattle.history_model.specs.Compaction.{IsFoldOf, IsWithin};
ghost use Rattle.history_model.specs.Facts.{Fact, Flags, flagged};
ghost use Rattle.history_model.specs.Folds.{Fold, fold_to, lost_of};
ghost use Rattle.history_model.specs.Graph.{rising_actors};
ghost use Rattle.history_model.specs.Ledgers.{CountAlike, CountFromOne, IsInOrder, Ledger, ledger_counts, ledger_names, window_ledger};
ghost use Rattle.history_model.specs.Messages.{Message};
ghost use Rattle.history_model.specs.MoreFolded.{AreLinksOf, IsFoldWith, IsLostToo, IsNext};
ghost use Rattle.history_model.specs.MoreFolded.{CountsNotice, FoldsNext, KnowsNotice, KnowsRows, MovesCounts};
ghost use Rattle.history_model.specs.MoreFolded.{link_part, link_rows, own_part, own_rows, told_by, with_notice};
ghost use Rattle.history_model.specs.Streams.{Notice, log, window};
ghost use Rattle.history_model.specs.Tells.{AreNotedBy, CountsLog, CountsMessages, IsDeltaOf, IsLedgerOf, IsOrdered};
ghost use Rattle.history_model.specs.Tells.{TellEntries, Tells, TellsDelta, TellsEntry};
ghost use Rattle.history_model.specs.Tells.{admitted_since, bulletin_ledger, fact_names, facts_in, messages_facts, origin_of};

/// Rows that rise and of which none counts 0 are determined by what they count: so only one bulletin tells a notice.
pub fn a_notice_has_one_bulletin()
    ensures rows { (l m : Ledger) → IsInOrder l → IsInOrder m → CountAlike (ledger_counts l) (ledger_counts m) → l ≡ m }
    ensures bulletins { (o : ℕ) (b c : Bulletin) (n : Notice) → IsOrdered b → IsOrdered c → Tells o b n → Tells o c n → b ≡ c }
{}

/// Each bulletin tells some notice, which may be no notice of any history.
pub fn each_bulletin_tells_a_notice()
    ensures { (b : Bulletin) → (n : Notice) × Tells (origin_of b) b n }
{}

/// Rows that count what facts say, none of them 0, name the same actors.
pub fn rows_name_whom_facts_name()
    ensures { (xs : List Fact) (l : Ledger) → CountFromOne l → IsLedgerOf xs l → rising_actors (ledger_names l) ≡ rising_actors (fact_names xs) }
{}

/// What stands in an actor's log is what it took and gave up itself, so an entry that counts the log tells it.
pub fn an_entry_tells_a_log()
    ensures logs { (cl : Cluster) (a : Actor) (h : List Event) → AreNotedBy a (log cl a h) }
    ensures entry { (a : Actor) (e : Entry) (g : Flags) (xs : List Fact) → AreNotedBy a xs → CountsLog a e g xs → TellsEntry a e (flagged a g ∷ xs) }
{}

/// Entries one after another tell what their facts say one after another, and so does the Delta that is their sum.
pub fn entries_add_up()
    ensures none { TellEntries [] [] }
    ensures one { (a : Actor) (e : Entry) (xs : List Fact) → TellsEntry a e xs → TellEntries (e ∷ []) xs }
    ensures more { (es fs : List Entry) (xs ys : List Fact) → TellEntries es xs → TellEntries fs ys → TellEntries (es ++ fs) (xs ++ ys) }
    ensures sum { (o : ℕ) (es : List Entry) (d : Delta) (xs : List Fact) → TellEntries es xs → IsDeltaOf o es d → TellsDelta o d xs }
{}

/// A window that counts messages tells their facts; and the facts of a link's window in a history are those of the messages
/// that were admitted since the last one.
pub fn a_window_tells_what_was_admitted()
    ensures rows { (w : Window) (ms : List Message) → CountsMessages w ms → IsLedgerOf (messages_facts ms) (window_ledger w) }
    ensures facts { (s d : ℕ) (h : List Event) → window s d h ≡ messages_facts (admitted_since s d h) }
{}

/// The rows of a bulletin count what it tells, part by part, and the actors that they name become known.
pub fn rows_count_what_a_bulletin_tells()
    ensures all { (o : ℕ) (b : Bulletin) (n : Notice) → Tells o b n → IsLedgerOf (facts_in n) (bulletin_ledger b) }
    ensures own { (o : ℕ) (b : Bulletin) (n : Notice) → Tells o b n → IsLedgerOf (own_part n) (own_rows b) }
    ensures link { (lost : ℕ → Bool) (o : ℕ) (b : Bulletin) (n : Notice) → Tells o b n → IsLedgerOf (link_part lost n) (link_rows lost b) }
    ensures known { (cl : Cluster) (o : ℕ) (b : Bulletin) (n : Notice) (f : Fold) → o < cl.nodes → IsOrdered b → Tells o b n → KnowsRows cl o b n f }
{}

/// One bulletin more adds to a fold what it tells, and nothing else: to the counts for any nodes taken as lost, also for one
/// node alone, which is what others admitted from it; to what its node told; to the known actors, the own flags and the Finals.
/// What is folded of a history stays so with the next bulletin of a stream, which is the one that a raised cut folds.
pub fn one_more_bulletin_counts()
    ensures counts { (cl : Cluster) (lost : ℕ → Bool) (o : ℕ) (n : Notice) (f : Fold) → o < cl.nodes → CountsNotice cl lost o n f }
    ensures knows { (cl : Cluster) (o : ℕ) (n : Notice) (f : Fold) → o < cl.nodes → KnowsNotice cl o n f }
    ensures node { (o : ℕ) (n : Notice) (f : Fold) → told_by o (with_notice o n f) ≡ told_by o f ++ own_part n }
    ensures others { (o s : ℕ) (n : Notice) (f : Fold) → s ≢ o → told_by s (with_notice o n f) ≡ told_by s f }
    ensures within { (o : ℕ) (n : Notice) (f : Fold) → IsWithin f (with_notice o n f) }
    ensures more { (cl : Cluster) (h : List Event) (o : ℕ) (n : Notice) (f : Fold) → IsFoldOf cl h f → IsNext cl h o n f → IsFoldWith cl h o n f }
    ensures next { (cl : Cluster) (h : List Event) (c : ℕ → ℕ) (o : ℕ) (n : Notice) → IsNext cl h o n (fold_to cl c h) → FoldsNext cl h c o n }
{}

/// Where one node more is taken as lost, what it told no longer counts, and what others admitted from it counts. Nothing else
/// of a fold depends on which nodes are lost. Which these are depends on the links whose Final is folded, in whatever order.
pub fn one_more_lost_node_moves_counts()
    ensures counts { (cl : Cluster) (s : ℕ) (lost more : ℕ → Bool) (f : Fold) → s < cl.nodes → IsLostToo s lost more
        → MovesCounts cl s lost more f }
    ensures lost { (cl : Cluster) (f : Fold) (links : List (ℕ × ℕ)) → AreLinksOf cl f links → lost_nodes cl.nodes links ≡ lost_of cl f }
{}

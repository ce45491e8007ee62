//! The laws of replaying: what a journal tells, and that a report is a journal of the history that it reports. Each function does
//! nothing, and its contract is the law.
#![tactic(auto)]

ghost use Rattle.std.specs.Prelude.{◌≡◌, ◌≤◌, ℕ, Bool, false, List, Ok, length};
ghost use Rattle.crgc_ids.specs.Actor.{Actor};
ghost use Rattle.crgc_ids.specs.Members.{IsAmong};
ghost use Rattle.history_model.specs.declared.events.Event.{Event};
ghost use Rattle.history_model.specs.declared.events.Event.TheVariants.{Send};
ghost use Rattle.history_model.specs.Cluster.{Cluster};
ghost use Rattle.history_model.specs.Legal.{IsLegal};
ghost use Rattle.history_model.specs.Story.{Story};
ghost use Rattle.journal_model.specs.Journals.{journal_of};
ghost use Rattle.journal_model.specs.Lines.{AreWithinRanges};
ghost use Rattle.journal_model.specs.Verdicts.{report_text};
ghost use Rattle.run_model.specs.Schedule.{IsWithinLimits};
ghost use Rattle.replay_laws.specs.Tellable.{IsClusterInRange, IsTellable, IsWithinInput};

/// A journal tells only what may be told: of a cluster of 1 to 16 nodes in version 1 or 2, a legal history whose numbers are in
/// their ranges, and that passes no limit at any of its events.
pub fn what_a_journal_tells_is_legal()
    ensures { (text : List ℕ) (s : Story) → journal_of text ≡ Ok s → IsTellable s.cluster s.past }
{}

/// The numbers of a legal history that passes no limit are in their ranges, where each message carries at most 16 references.
pub fn numbers_within_the_limits_are_in_range()
    ensures { (cl : Cluster) (h : List Event) → IsClusterInRange cl → IsLegal cl h → IsWithinLimits cl h
        → ((f t : Actor) (refs : List Actor) → IsAmong (Send f t refs) h → length refs ≤ 16) → AreWithinRanges h }
{}

/// The report in full of each history that may be told is a journal, and tells that history, if it is no longer than an input
/// may be.
pub fn a_report_is_a_journal_of_its_history()
    ensures { (cl : Cluster) (h : List Event) → IsTellable cl h → IsWithinInput (report_text cl h false)
        → journal_of (report_text cl h false) ≡ Ok (record { cluster = cl; past = h }) }
{}

/// So the report of a journal tells what the journal tells. Whatever it tells, its report is itself, byte for byte, and its report
/// in brief is that of the journal.
pub fn a_report_replayed_gives_itself()
    ensures same { (text : List ℕ) (s : Story) → journal_of text ≡ Ok s → IsWithinInput (report_text s.cluster s.past false)
        → journal_of (report_text s.cluster s.past false) ≡ Ok s }
    ensures itself { (text : List ℕ) (s t : Story) (brief : Bool) → journal_of text ≡ Ok s
        → IsWithinInput (report_text s.cluster s.past false) → journal_of (report_text s.cluster s.past false) ≡ Ok t
        → report_text t.cluster t.past brief ≡ report_text s.cluster s.past brief }
{}

//! The laws of mail: what mailboxes stand for, event by event. Each function does nothing, and its contract is the law.
#![tactic(auto)]

ghost use Rattle.std.specs.Prelude.{[], List};
ghost use Rattle.crgc_ids.specs.Actor.{Actor};
ghost use Rattle.history_model.specs.declared.events.Event.{Event};
ghost use Rattle.history_model.specs.declared.events.Event.TheVariants.{Take};
ghost use Rattle.history_model.specs.Cluster.{Cluster};
ghost use Rattle.mail_laws.specs.Standing.{AdmitsNone, Boxes, KeepsMail, PutsAdmitted, StandsForMail, TakesFirst};

/// Empty mailboxes stand for the beginning.
pub fn empty_mailboxes_stand_for_the_beginning()
    ensures { StandsForMail [] [] }
{}

/// An event that admits no message, and by which nobody takes one, leaves the mailboxes.
pub fn other_events_leave_mailboxes()
    ensures { (cl : Cluster) (e : Event) (p : List Event) (boxes : Boxes) → AdmitsNone e p → KeepsMail cl e p boxes boxes }
{}

/// A message that is admitted waits last for its recipient.
pub fn admitted_messages_wait()
    ensures { (cl : Cluster) (e : Event) (p : List Event) (old new : Boxes) → PutsAdmitted e p old new → KeepsMail cl e p old new }
{}

/// Who takes a message takes the first one that waits.
pub fn the_first_message_is_taken()
    ensures { (cl : Cluster) (p : List Event) (a : Actor) (old new : Boxes) → TakesFirst old new a → KeepsMail cl (Take a) p old new }
{}

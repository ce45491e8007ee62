//! What a link stands for from event to event: what the calls make of a link is what the event makes of what is true of it.
//! Each function does nothing, and its contract is the law.
ghost use Rattle.std.specs.Prelude.{◌≡◌, [], ℕ, false, List};
ghost use Rattle.history_model.specs.declared.events.Event.{Event};
ghost use Rattle.history_model.specs.declared.events.Event.TheVariants.{Admit, Crash, Lose, Remove, Repeat, Window as WindowEvent};
ghost use Rattle.history_model.specs.declared.records.Window.{Window};
ghost use Rattle.history_model.specs.Cluster.{Cluster};
ghost use Rattle.ingress_gateway.specs.Gate.{IsWindowOf};
ghost use Rattle.link_table.specs.LinkState.{Admitted, IsNewLink, LinkState, Loses, Repeats, abandoned, closed, cut};
ghost use Rattle.link_table.specs.Standing.{CountsSince, SendsAreStoodFor, StandsAfter, StandsFor, is_of_link};

/// A new link stands for the beginning.
pub fn a_new_link_stands_for_the_beginning()
    ensures { (s d : ℕ) (l : LinkState) → IsNewLink l s d → StandsFor s d [] l }
{}

/// An event that is not of the link leaves it.
pub fn other_events_leave_a_link()
    ensures { (cl : Cluster) (s d : ℕ) (e : Event) (p : List Event) (l : LinkState) → is_of_link s d e ≡ false → StandsAfter cl s d e p l l }
{}

/// Who sends a message between two nodes sends it on their link.
pub fn a_send_is_stood_for()
    ensures { (cl : Cluster) → SendsAreStoodFor cl }
{}

/// A copy that is lost, repeated or admitted changes the pile of its number, and an admission the gate.
pub fn copies_are_stood_for()
    ensures lost { (cl : Cluster) (s d k : ℕ) (p : List Event) (l m : LinkState) → Loses l m k → StandsAfter cl s d (Lose s d k) p l m }
    ensures repeated { (cl : Cluster) (s d k : ℕ) (p : List Event) (l m : LinkState) → Repeats l m k → StandsAfter cl s d (Repeat s d k) p l m }
    ensures admitted { (cl : Cluster) (s d k : ℕ) (p : List Event) (l m : LinkState) → Admitted l m k → StandsAfter cl s d (Admit s d k) p l m }
{}

/// A window empties the gate. It counts the messages that were admitted since the last one.
pub fn windows_are_stood_for()
    ensures after { (cl : Cluster) (s d : ℕ) (p : List Event) (l : LinkState) → StandsAfter cl s d (WindowEvent d s) p l (cut l) }
    ensures counts { (s d : ℕ) (p : List Event) (l : LinkState) (w : Window) → StandsFor s d p l → IsWindowOf l.gate w → CountsSince s d p w }
{}

/// The node at the end of a link closes it where it removes the other, and leaves it where it crashes.
pub fn ends_are_stood_for()
    ensures removed { (cl : Cluster) (s d : ℕ) (p : List Event) (l : LinkState) → StandsAfter cl s d (Remove d s) p l (closed l) }
    ensures crashed { (cl : Cluster) (s d : ℕ) (p : List Event) (l : LinkState) → StandsAfter cl s d (Crash d) p l (abandoned l) }
{}

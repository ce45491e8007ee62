//! What a link's windows tell, in the words of histories. Each function does nothing, and its contract is the law.
ghost use Rattle.std.specs.Prelude.{◌++◌, [], ◌∷◌, ℕ, List};
ghost use Rattle.history_model.specs.declared.records.Window.{Window};
ghost use Rattle.history_model.specs.Messages.{Message};
ghost use Rattle.history_model.specs.Tells.{TellsWindow, messages_facts};
ghost use Rattle.ingress_gateway.specs.Admission.{Admits};
ghost use Rattle.ingress_gateway.specs.Gate.{Gate, IsWindowOf, emptied};
ghost use Rattle.ingress_gateway.specs.Told.{HasMessages, NamesAsMany};

/// The window of a link tells the facts of the messages that were admitted since the last one. Each admission adds its message,
/// and a window leaves none. The number of actors that the next window names is that of the actors that these facts name.
pub fn a_window_tells_its_messages()
    ensures window { (g : Gate) (w : Window) (ms : List Message) → HasMessages g ms → IsWindowOf g w → TellsWindow g.at g.from w (messages_facts ms) }
    ensures on { (g h : Gate) (k : ℕ) (ms : List Message) (m : Message) → HasMessages g ms → Admits g h k m.to m.refs → HasMessages h (ms ++ m ∷ []) }
    ensures none { (g : Gate) → HasMessages (emptied g) [] }
    ensures named { (g : Gate) (ms : List Message) → HasMessages g ms → NamesAsMany g (messages_facts ms) }
{}

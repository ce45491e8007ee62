//! What a lock guards, and what is said of its calls.

/// One call of a lock: the number of the pass that made it, what it asked, and what it was answered.
pub struct Entry<P, R> {
    pub pass: u32,
    pub op: P,
    pub reply: R,
}

/// What a lock guards: a state that changes in single steps. A state keeps the allocator that its steps use.
///
/// It says which operations fit, and what a state stands for: a history of calls from the state with which the lock
/// was made. The rest follows from two laws and the promise of `step`.
pub trait Object {
    ghost use Rattle.std.specs.Prelude.{◌≡◌, ℕ, List, [], ◌∷◌, ◌++◌};
    ghost use Rattle.turn_lock.specs.declared.object.Entry.{Entry};
    ghost use Rattle.turn_lock.specs.History.{calls_of};
    ghost use Rattle.turn_lock.specs.Steps.{MayAnswer, Answers};

    type State;

    type Op;

    type Reply;

    /// In a lock made with this state, the pass of this number may make this operation after this history.
    ghost fits: { Self.State → List (Entry Self.Op Self.Reply) → Self.Op → ℕ → Type 0 };

    /// From the first state, the second stands for this history.
    ghost stands: { Self.State → List (Entry Self.Op Self.Reply) → Self.State → Type 0 };

    /// Makes one operation, for the pass of this number. Where the operation fitted after a history that the state
    /// stood for, the state after it stands for that history with the new call.
    fn step(state: &mut Self::State, pass: u32, op: Self::Op) -> Self::Reply
        requires { MayAnswer fits stands pass op state.old }
        ensures { Answers fits stands pass op result state.old state.new };

    // What fits still fits after further calls of other passes.
    ghost still_fits: { (start : Self.State) (later history : List (Entry Self.Op Self.Reply)) (op : Self.Op) (pass : ℕ)
        → calls_of pass later ≡ [] → fits start history op pass → fits start (later ++ history) op pass };

    // A state stands for no calls from itself.
    ghost stands_first: { (start : Self.State) → stands start [] start };
}

//! What comes of a try to begin a turn.
ghost use Rattle.std.specs.Prelude.{◌≡◌, ◌<◌, length, IfOk};
ghost use Rattle.behaviour_lang.specs.Bound.{names_at_start};
ghost use Rattle.behaviour_lang.specs.TurnState.{at_start};
ghost use Rattle.actor_dispatch.specs.Begun.{tried_by};

use behaviour_lang::{Code, List, Locals, Turn};
use crgc_ids::{ActorId, NoMemory, RefList};
use operation_model::Reply;
use std::alloc::Global;

/// With what a turn begins.
#[derive(Drop)]
pub(crate) struct Beginning {
    pub(crate) actor: ActorId,
    pub(crate) behaviour: u32,
    pub(crate) list: List,
    pub(crate) locals: Locals,
    pub(crate) refs: RefList,
    pub(crate) root: bool,
}

/// A turn began; or none can begin any more; or this one does not.
#[derive(Drop)]
pub(crate) enum Tried {
    Begun(Beginning),
    Over,
    NotNow,
}

/// What the answer to a wake or a take says.
pub(crate) fn came_of(reply: Reply) -> Tried
    ensures { result ≡ tried_by reply }
{
    match reply {
        Reply::Turn {
            actor,
            behaviour,
            list,
            locals,
            refs,
            root,
        } => Tried::Begun(Beginning {
            actor,
            behaviour,
            list,
            locals,
            refs,
            root,
        }),
        Reply::Over => Tried::Over,
        _ => Tried::NotNow,
    }
}

// The most references that a message of a script carries.
const REFERENCES: usize = 16;

impl Beginning {
    /// The turn. A turn that the cluster of a script does not begin, of a behaviour that the code does not have or with more
    /// references than a message carries, is not run, as if there were no memory for it.
    pub(crate) fn turn(self, alloc: Global, code: &Code) -> Result<Turn, NoMemory>
        ensures in_code { IfOk result (λ t. t.behaviour < length code.now) }
        ensures start { IfOk result (λ t. t ≡ at_start self.behaviour self.list (names_at_start self.refs self.locals) self.root) }
    {
        if self.behaviour as usize >= code.behaviours.len() || self.refs.len() > REFERENCES {
            return Err(NoMemory);
        }
        Turn::begin(
            alloc,
            code,
            self.behaviour,
            self.list,
            self.locals,
            self.refs,
            self.root,
        )
    }
}

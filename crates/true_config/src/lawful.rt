//! What holds of every world.
ghost use Rattle.history_model.specs.Legal.{IsLegal};
ghost use Rattle.bulletin_streams.specs.Standing.{IsWithinLimits};
ghost use Rattle.true_config.specs.Promises.{ChildrenAreStopped, StoppedAreQuiescent};

use crate::World;

impl World {
    /// The history of a world is always legal, and within its limits. So each actor that was ever stopped is quiescent, and in
    /// version 2 each child of a stopped actor is stopped. It does nothing: its contract is the law.
    pub fn is_lawful(&self)
        ensures legal { IsLegal self.now.cluster self.now.past }
        ensures within { IsWithinLimits self.now.cluster self.now.past }
        ensures stable { StoppedAreQuiescent self.now }
        ensures supervised { ChildrenAreStopped self.now }
    {
        let _history = &self.history;
    }
}

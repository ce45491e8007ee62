//! The spellings of bulletins, while they are kept.
ghost use Rattle.std.specs.Prelude.{◌≡◌, ◌<◌, length, IfOk, IfSome};
ghost use Rattle.history_model.specs.Streams.{stream};
ghost use Rattle.true_config.specs.Readings.{IsSpelledAt};

use crate::World;
use bulletin_spelling::is_spellable;
use bulletin_streams::laws::bulletins_fit_the_wire;
use crgc_ids::{NoMemory, NodeId, Octets};

impl World {
    /// The spelling of the bulletin with this number, from 0, of the origin's stream, if it is kept. Constant time.
    pub fn spelling(&self, origin: NodeId, number: u32) -> Option<&Octets>
        ensures { IfSome result (λ bytes. IsSpelledAt self.now.cluster self.now.past origin number bytes.now) }
    {
        let _bulletin = self.streams.bulletin(origin, number)?;
        self.streams.spelling(origin, number)
    }

    /// The spelling of the bulletin with this number of the origin's stream: a copy of the one that is kept, or else written anew.
    /// Linear time where it is kept, else time in proportion to n log n for n rows of the bulletin.
    pub fn spell(&self, origin: NodeId, number: u32) -> Result<Octets, NoMemory>
        requires { number < length (stream self.now.cluster origin self.now.past) }
        ensures { IfOk result (IsSpelledAt self.now.cluster self.now.past origin number) }
    {
        match self.spelling(origin, number) {
            Some(bytes) => bytes.copy(),
            None => self.spell_anew(origin, number),
        }
    }

    /// The same, written anew.
    fn spell_anew(&self, origin: NodeId, number: u32) -> Result<Octets, NoMemory>
        requires { number < length (stream self.now.cluster origin self.now.past) }
        ensures { IfOk result (IsSpelledAt self.now.cluster self.now.past origin number) }
    {
        self.is_lawful();
        bulletins_fit_the_wire();
        let Some(bulletin) = self.bulletin(origin, number) else {
            unreachable!()
        };
        is_spellable(bulletin);
        graph_wire::write(self.streams.alloc(), bulletin)
    }

    /// The spelling of the bulletin with this number of the origin's stream is kept from now on, if there is memory: whoever
    /// hands the bulletin to many nodes writes it once. Constant time where it is kept, else time in proportion to n log n for n
    /// rows of the bulletin.
    pub fn keep_spelling(&mut self, origin: NodeId, number: u32)
        ensures { self.new ≡ self.old }
    {
        if self.spelling(origin, number).is_some() {
            return;
        }
        self.is_lawful();
        bulletins_fit_the_wire();
        let Some(bulletin) = self.streams.bulletin(origin, number) else {
            return;
        };
        is_spellable(bulletin);
        if let Ok(bytes) = graph_wire::write(self.streams.alloc(), bulletin) {
            self.streams.keep_spelling(origin, number, bytes);
        }
    }

    /// The spelling of the bulletin with this number of the origin's stream is kept no longer. Constant time.
    pub fn forget_spelling(&mut self, origin: NodeId, number: u32)
        ensures { self.new ≡ self.old }
    {
        self.streams.forget_spelling(origin, number);
    }
}

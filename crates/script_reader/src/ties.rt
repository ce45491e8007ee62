//! Ties of which no two bind one name of one seed.
ghost use Rattle.std.specs.Prelude.{◌≡◌, [], ◌∷◌, ◌++◌, not, IfOk, OnErr, if◌then◌else◌};
ghost use Rattle.std.specs.List.{list_any};
ghost use Rattle.script_reader.specs.Valid.{same_tie};

use crate::script::{Tie, TieList};
use crgc_ids::NoMemory;
use std::alloc::Global;
use std::collections::BTreeSet;
use std::marker::Model;

/// Ties in order, with an index of the names that their seeds have. Contracts see the list of the ties.
#[derive(Drop)]
pub struct Ties {
    alloc: Global,
    rows: Vec<Tie>,
    taken: BTreeSet<(u32, Vec<u8>)>,
}

impl Model for Ties {
    ghost use Rattle.std.specs.Prelude.{List};
    ghost use Rattle.script_reader.specs.declared.script.Tie.{Tie};
    ghost use Rattle.script_reader.specs.Taken.{AreTaken};

    ghost Value = { List Tie };

    ghost view = { λ t. t.rows.items };

    ghost invariant = { λ t. AreTaken t.taken.keys t.rows.items };
}

impl Ties {
    /// No tie.
    pub fn new(alloc: Global) -> Ties
        ensures { result ≡ [] }
    {
        Ties {
            alloc,
            rows: Vec::new(alloc),
            taken: BTreeSet::new(alloc),
        }
    }

    /// Puts the tie last and answers true, unless its seed has its name already. Logarithmic time in the number of ties.
    pub fn add(&mut self, tie: Tie) -> Result<bool, NoMemory>
        ensures { IfOk result (λ added. (added ≡ not (list_any (same_tie tie) self.old))
            × (self.new ≡ (if added then self.old ++ tie ∷ [] else self.old))) }
    {
        let Ok(name) = Vec::from_slice(self.alloc, tie.name.as_slice()) else {
            return Err(NoMemory);
        };
        if self.rows.reserve(1).is_err() {
            return Err(NoMemory);
        }
        match self.taken.insert((tie.from, name)) {
            Ok(true) => {
                self.rows.push_reserved(tie);
                Ok(true)
            }
            Ok(false) => Ok(false),
            Err(_) => Err(NoMemory),
        }
    }

    /// The list of the ties.
    pub fn into_list(self) -> TieList
        ensures { result ≡ self }
    {
        TieList::from_vec(self.rows)
    }
}

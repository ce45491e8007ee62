//! The numbers of behaviours by their names.
ghost use Rattle.std.specs.Prelude.{◌≡◌, ◌≤◌, length};
ghost use Rattle.script_reader.specs.Found.{GivesNumbering, finds};
ghost use Rattle.script_reader.specs.Gives.{Gives};
ghost use Rattle.script_reader.specs.Numbered.{known, names_of};

use crate::draft::DraftBehaviours;
use crate::fault::{Flaw, Halt};
use crate::words::Word;
use crgc_ids::Octets;
use std::alloc::Global;
use std::collections::BTreeMap;

/// The numbers of names.
pub type Numbering = BTreeMap<Vec<u8>, u32>;

/// The names of the behaviours, which differ, by their numbers. Time in proportion to n log n.
pub fn numbering(alloc: Global, behaviours: &DraftBehaviours) -> Result<Numbering, Halt>
    requires { length behaviours.now ≤ 256 }
    ensures { GivesNumbering result (names_of behaviours.now) }
{
    let mut numbers = Numbering::new(alloc);
    let rows = behaviours.as_slice();
    for (number, row) in rows.iter().enumerate() {
        let name = Vec::from_slice(alloc, row.name.as_slice())?;
        if find(&numbers, name.as_slice()).is_some() {
            return Err(Halt::At(Flaw::Range(Word::Name)));
        }
        numbers.insert(name, number as u32)?;
    }
    Ok(numbers)
}

/// The number of a name. Logarithmic time.
fn find(numbers: &Numbering, name: &[u8]) -> Option<u32>
    ensures { result ≡ finds numbers.now name.now }
{
    match numbers.get(name) {
        Some(number) => Some(*number),
        None => None,
    }
}

/// The number of a name that has to have one.
pub fn known(numbers: &Numbering, name: Octets) -> Result<u32, Halt>
    ensures { Gives result (known name (finds numbers.now name)) }
{
    match find(numbers, name.as_slice()) {
        Some(number) => Ok(number),
        None => Err(Halt::At(Flaw::Unknown(name))),
    }
}

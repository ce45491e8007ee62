//! Reading keys of JSON objects.
ghost use Rattle.std.specs.Prelude.{◌≡◌, ◌<◌, ◌≤◌, IfOk, length, map, option_map, Some, None, if◌then◌else◌, string_bytes};
ghost use Rattle.serde_json.specs.View.{view, items_view};
ghost use Rattle.serde_json.specs.Find.{as_array};
ghost use Rattle.behaviour_lang.specs.Names.{is_behaviour_name, is_local_name};
ghost use Rattle.script_reader.specs.Walk.{array_at, array_in, array_of, has_only, is_in_table, list_of, number_at, number_of, object_at, optional_at, text_at};
ghost use Rattle.std.specs.List.{list_all};
ghost use Rattle.std.specs.BTreeMap.{keys};
ghost use Rattle.script_reader.specs.Gives.{Gives, GivesAs};

use crate::fault::{Flaw, Halt};
use crate::words::Word;
use behaviour_lang::{LocalName, is_behaviour_name, is_local_name};
use crgc_ids::Octets;
use serde_json::Value;
use serde_json::value::Map;
use std::alloc::{AllocError, Global};

/// The bytes of a text.
pub fn octets(alloc: Global, text: &str) -> Result<Octets, AllocError>
    ensures { IfOk result (λ o. o ≡ text.now) }
{
    Ok(Octets::from_vec(Vec::from_slice(alloc, text.as_bytes())?))
}

/// A number below 2^64 that is written without sign, point and exponent.
pub fn number_of(value: &Value) -> Option<u64>
    ensures { result ≡ number_of (view value.now) }
{
    value.as_u64()
}

/// The members of an array.
pub fn members_of(value: &Value) -> Option<&[Value]>
    ensures { option_map (λ s. map view s.now) result ≡ array_of (view value.now) }
{
    match value.as_array() {
        Some(items) => Some(items.as_slice()),
        None => None,
    }
}

/// The number at a key, from `low` on and below `limit`.
pub fn number_at(value: &Value, key: Word, low: u64, limit: u64) -> Result<u64, Halt>
    ensures gives { Gives result (number_at key low limit (view value.now)) }
    ensures low { IfOk result (λ n. low ≤ n) }
    ensures limit { IfOk result (λ n. n < limit) }
{
    let Some(found) = value.get(key.text()) else {
        return Err(Halt::At(Flaw::Missing(key)));
    };
    let Some(number) = number_of(found) else {
        return Err(Halt::At(Flaw::Kind(key)));
    };
    if low <= number && number < limit {
        Ok(number)
    } else {
        Err(Halt::At(Flaw::Range(key)))
    }
}

/// The name of a behaviour at a key.
pub fn behaviour_name_at(alloc: Global, value: &Value, key: Word) -> Result<Octets, Halt>
    ensures { Gives result (text_at key is_behaviour_name (view value.now)) }
{
    let Some(found) = value.get(key.text()) else {
        return Err(Halt::At(Flaw::Missing(key)));
    };
    let Some(text) = found.as_str() else {
        return Err(Halt::At(Flaw::Kind(key)));
    };
    if !is_behaviour_name(text.as_bytes()) {
        return Err(Halt::At(Flaw::Range(key)));
    }
    Ok(octets(alloc, text)?)
}

/// The local name that is spelled so; None exactly where the text spells none.
#[tactic(auto, unfolding(behaviour_lang::specs::Names::is_local_name))]
pub fn local_name(text: &str) -> Option<LocalName>
    ensures { result ≡ (if is_local_name text.now then Some text.now else None) }
{
    if is_local_name(text.as_bytes()) {
        LocalName::new(text.as_bytes())
    } else {
        None
    }
}

/// A local name at a key.
pub fn local_name_at(value: &Value, key: Word) -> Result<LocalName, Halt>
    ensures { Gives result (text_at key is_local_name (view value.now)) }
{
    let Some(found) = value.get(key.text()) else {
        return Err(Halt::At(Flaw::Missing(key)));
    };
    let Some(text) = found.as_str() else {
        return Err(Halt::At(Flaw::Kind(key)));
    };
    match local_name(text) {
        Some(name) => Ok(name),
        None => Err(Halt::At(Flaw::Range(key))),
    }
}

/// The members of an array that has at most so many.
fn array_in(value: &Value, key: Word, most: usize) -> Result<&[Value], Halt>
    ensures gives { GivesAs (λ s. map view s.now) result (array_in key most (view value.now)) }
    ensures few { IfOk result (λ s. length s.now ≤ most) }
{
    let Some(items) = members_of(value) else {
        return Err(Halt::At(Flaw::Kind(key)));
    };
    if items.len() <= most {
        Ok(items)
    } else {
        Err(Halt::At(Flaw::Range(key)))
    }
}

/// The members of the array at a key.
pub fn array_at(value: &Value, key: Word, most: usize) -> Result<&[Value], Halt>
    ensures gives { GivesAs (λ s. map view s.now) result (array_at key most (view value.now)) }
    ensures few { IfOk result (λ s. length s.now ≤ most) }
{
    match value.get(key.text()) {
        Some(found) => array_in(found, key, most),
        None => Err(Halt::At(Flaw::Missing(key))),
    }
}

/// The members of the array at a key, none where the key is absent.
pub fn optional_at(value: &Value, key: Word, most: usize) -> Result<&[Value], Halt>
    ensures gives { GivesAs (λ s. map view s.now) result (optional_at key most (view value.now)) }
    ensures few { IfOk result (λ s. length s.now ≤ most) }
{
    match value.get(key.text()) {
        Some(found) => array_in(found, key, most),
        None => Ok(&[]),
    }
}

/// Whether the value is an object of this name, which has only the keys of its table.
pub fn object_at(value: &Value, name: Word, table: &[Word]) -> Result<(), Halt>
    ensures { GivesAs (λ _. tt) result (object_at name table.now (view value.now)) }
{
    let Some(members) = value.as_object() else {
        return Err(Halt::At(Flaw::Kind(name)));
    };
    if has_only(members, table) {
        Ok(())
    } else {
        Err(Halt::At(Flaw::Key(name)))
    }
}

/// Whether each key of the object is one of the table.
fn has_only(members: &Map<String, Value>, table: &[Word]) -> bool
    ensures { result ≡ list_all (λ k. is_in_table table.now (string_bytes k)) (keys members.now) }
{
    members.keys().all(|key| is_in_table(key.as_str(), table))
}

/// Whether a key is one of the table.
fn is_in_table(key: &str, table: &[Word]) -> bool
    ensures { result ≡ is_in_table table.now key.now }
{
    table.iter().any(|word| key == word.text())
}

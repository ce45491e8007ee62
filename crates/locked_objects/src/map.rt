//! A map from `u64` to `u64`: put a pair, get a value, and take back what one has put.

use std::collections::BTreeMap;
use turn_lock::Object;

pub struct Map;

pub enum MapOp {
    Put(u64, u64),
    Get(u64),
    /// Only by the pass that put the key and has not taken it back since.
    TakeBack(u64),
}

#[derive(Clone, Copy, PartialEq, Eq, Debug)]
pub enum MapReply {
    Done,
    /// The pair was not put.
    NoMemory,
    /// What stood at the key.
    Value(Option<u64>),
}

impl Object for Map {
    ghost use Rattle.locked_objects.specs.Map.{MayMake, IsMapOf, still_may_make, map_of_nothing};

    type State = BTreeMap<u64, u64>;

    type Op = MapOp;

    type Reply = MapReply;

    ghost fits = { λ start history op pass. MayMake history op pass };

    ghost stands = { IsMapOf };

    ghost still_fits = { λ start later history op pass none fitted. still_may_make later history op pass none fitted };

    ghost stands_first = { λ start. map_of_nothing start };

    fn step(state: &mut BTreeMap<u64, u64>, pass: u32, op: MapOp) -> MapReply {
        let _any = pass;
        match op {
            MapOp::Put(key, value) => match state.insert(key, value) {
                Ok(_) => MapReply::Done,
                Err(_) => MapReply::NoMemory,
            },
            MapOp::Get(key) => MapReply::Value(state.get(&key).copied()),
            MapOp::TakeBack(key) => MapReply::Value(state.remove(&key)),
        }
    }
}

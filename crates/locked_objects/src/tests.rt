ghost use Rattle.std.specs.Prelude.{◌≡◌};

use super::*;
use std::collections::BTreeMap;
use std::sync::Wait;
use std::test::Fail;
use turn_lock::{Pass, TurnLock};

// What the second pass finds at a key that the first one puts and takes back, and what the first one takes.
fn put_and_taken_back<R: Wait>(
    rt: &R,
    lock: &TurnLock<Map>,
    one: &mut Pass<Map>,
    other: &mut Pass<Map>,
) -> Option<[MapReply; 3]>
    requires { (one.old.origin ≡ lock.now.origin) × (other.old.origin ≡ lock.now.origin) }
    ensures { (one.new.origin ≡ one.old.origin) × (other.new.origin ≡ other.old.origin) }
{
    let MapReply::Done = lock.call(rt, one, MapOp::Put(7, 70)) else {
        return None;
    };
    let found = lock.call(rt, other, MapOp::Get(7));
    let taken = lock.call(rt, one, MapOp::TakeBack(7));
    let left = lock.call(rt, other, MapOp::Get(7));
    Some([found, taken, left])
}

#[test]
fn a_pass_takes_back_what_it_put(rt: HostRuntime) -> Result<(), Fail> {
    let map = BTreeMap::new(rt.alloc());
    let Ok((lock, mut one)) = TurnLock::<Map>::new(rt.alloc(), map) else {
        panic!(rt; "memory")
    };
    let mut other = lock.split(&mut one);
    let replies = put_and_taken_back(&rt, &lock, &mut one, &mut other);
    let there = MapReply::Value(Some(70));
    assert_eq!(rt; replies, Some([there, there, MapReply::Value(None)]));
    Ok(())
}

#[test]
fn two_threads_add_a_hundred_each(rt: HostRuntime) -> Result<(), Fail> {
    assert_eq!(rt; two_hundred(&rt, rt.alloc()), Ok(200));
    Ok(())
}

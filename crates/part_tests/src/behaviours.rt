//! How names are spelled, behaviours put together, and a turn run.
ghost use Rattle.std.specs.Prelude.{◌≡◌, length, IfOk};

use behaviour_lang::{
    Act, Behaviour, BehaviourList, Code, Instr, InstrList, List, LocalName, Locals, Name, NameList,
    Step, Turn, is_behaviour_name, is_local_name, message_number,
};
use crgc_ids::{ActorId, NoMemory, NodeId, Octets, RefList};
use std::alloc::Global;
use std::test::Fail;

#[test]
fn names_are_spelled_by_their_rules(rt: HostRuntime) -> Result<(), Fail> {
    assert!(rt; is_behaviour_name(b"_0_cell"));
    assert!(rt; !is_behaviour_name(b""));
    assert!(rt; !is_behaviour_name(b"Cell"));
    assert!(rt; is_behaviour_name(b"abcdefghijklmnopqrstuvwxyz_01234"));
    assert!(rt; !is_behaviour_name(b"abcdefghijklmnopqrstuvwxyz_012345"));
    assert!(rt; is_local_name(b"m") && is_local_name(b"m7x") && is_local_name(b"a_0"));
    assert!(rt; is_local_name(b"abcdefghijklmnop") && !is_local_name(b"abcdefghijklmnopq"));
    assert!(rt; !is_local_name(b"self") && !is_local_name(b"m16") && !is_local_name(b"0a"));
    assert!(rt; !is_local_name(b"") && !is_local_name(b"a-b"));
    assert_eq!(rt;
        (
            message_number(b"m0"),
            message_number(b"m9"),
            message_number(b"m15")
        ),
        (Some(0), Some(9), Some(15))
    );
    assert_eq!(rt;
        (
            message_number(b"m16"),
            message_number(b"m01"),
            message_number(b"x1")
        ),
        (None, None, None)
    );
    assert_eq!(rt;
        (
            message_number(b"m"),
            message_number(b"m1x"),
            message_number(b"m150")
        ),
        (None, None, None)
    );
    Ok(())
}

#[test]
fn behaviours_have_their_parts(rt: HostRuntime) -> Result<(), Fail> {
    let mut refs = NameList::new(rt.alloc());
    refs.push(Name::Message(3))?;
    let mut wake = InstrList::new(rt.alloc());
    wake.push(Instr::Send {
        to: Name::Own,
        refs,
    })?;
    let mut behaviours = BehaviourList::new(rt.alloc());
    behaviours.push(Behaviour {
        name: Octets::new(rt.alloc()),
        wake,
        message: InstrList::new(rt.alloc()),
    })?;
    let same = Code { behaviours }.copy(rt.alloc())?;
    let found = same.behaviours.get(0).ok_or("the behaviour")?;
    assert_eq!(rt; (found.wake.len(), found.message.len()), (1, 0));
    Ok(())
}

fn actor(node: u8, serial: u32) -> Option<ActorId> {
    ActorId::new(NodeId::new(node)?, serial)
}

#[test]
fn a_local_name_has_at_most_16_bytes(rt: HostRuntime) -> Result<(), Fail> {
    let longest = LocalName::new(b"abcdefghijklmnop").ok_or("sixteen bytes")?;
    assert_eq!(rt; longest.as_slice(), b"abcdefghijklmnop".as_slice());
    assert!(rt; LocalName::new(b"abcdefghijklmnopq").is_none());
    Ok(())
}

#[test]
fn a_local_name_is_bound(rt: HostRuntime) -> Result<(), Fail> {
    let own = actor(0, 0).ok_or("an actor")?;
    let name = LocalName::own();
    let mut locals = Locals::new(rt.alloc());
    locals.bind(name, own)?;
    let same = locals.copy()?;
    assert_eq!(rt; (same.len(), same.iter().count()), (1, 1));
    let first = same.get(0).ok_or("the first name")?;
    assert_eq!(rt; (first.0.as_slice(), first.1), (b"self".as_slice(), own));
    assert!(rt; same.get(1).is_none());
    Ok(())
}

/// Code whose one behaviour gives birth to a child when it is woken.
fn parents(alloc: Global) -> Result<Code, NoMemory>
    ensures { IfOk result (λ c. length c ≡ 1) }
{
    let mut wake = InstrList::new(alloc);
    wake.push(Instr::Spawn {
        name: LocalName::new(b"child").unwrap(),
        behaviour: 0,
    })?;
    let mut behaviours = BehaviourList::new(alloc);
    behaviours.push(Behaviour {
        name: Octets::new(alloc),
        wake,
        message: InstrList::new(alloc),
    })?;
    Ok(Code { behaviours })
}

#[test]
fn a_turn_gives_birth_and_ends(rt: HostRuntime) -> Result<(), Fail> {
    let child = actor(0, 1).ok_or("a child")?;
    let code = parents(rt.alloc())?;
    let locals = Locals::new(rt.alloc());
    let refs = RefList::new(rt.alloc());
    let mut turn = Turn::begin(rt.alloc(), &code, 0, List::Wake, locals, refs, false)?;
    match turn.next(&code)? {
        Step::Act(Act::Spawn { behaviour }) => {
            assert_eq!(rt; behaviour, 0);
            turn.born(child)?;
        }
        _ => return Err("no birth".into()),
    }
    match turn.next(&code)? {
        Step::End => {
            let kept = turn.finish();
            assert_eq!(rt; kept.get(0).ok_or("the child")?.1, child);
            Ok(())
        }
        _ => Err("no end".into()),
    }
}

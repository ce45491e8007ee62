//! Edges between actors of one node whose serials are their places.
ghost use Rattle.std.specs.Prelude.{◌≡◌, IfOk};
ghost use Rattle.crgc_ids.specs.Actor.{Actor};
ghost use Rattle.edge_table.specs.Table.{HasEnds};

use crgc_ids::{ActorId, NodeId};
use edge_table::EdgeTable;
use std::test::Fail;

fn actor(serial: u32) -> Result<ActorId, Fail>
    ensures node { IfOk result (λ a. a.node ≡ 0) }
    ensures serial { IfOk result (λ a. a.serial ≡ serial) }
{
    let node = NodeId::new(0).ok_or("node 0")?;
    Ok(ActorId::new(node, serial).ok_or("a serial too large")?)
}

/// Adds the edge between the two actors, and returns its number.
fn add(table: &mut EdgeTable, owner: u32, target: u32) -> Result<u32, Fail>
    requires { (a b : Actor) → a.node ≡ 0 → b.node ≡ 0 → HasEnds table.old a b a.serial b.serial }
    ensures { (a b : Actor) → a.node ≡ 0 → b.node ≡ 0 → HasEnds table.new a b a.serial b.serial }
{
    if owner >= table.place_count() || target >= table.place_count() {
        return Err(Fail::from("no such place"));
    }
    let (from, to) = (actor(owner)?, actor(target)?);
    if table.number_of(from, to, owner, target).is_some() {
        return Err(Fail::from("an edge that is there"));
    }
    let number = table.add(from, to, owner, target)?;
    let _edges = table.edge_count();
    Ok(number)
}

/// The number of the edge between the two actors.
fn number(table: &EdgeTable, owner: u32, target: u32) -> Result<Option<u32>, Fail>
    requires { (a b : Actor) → a.node ≡ 0 → b.node ≡ 0 → HasEnds table.now a b a.serial b.serial }
{
    if owner >= table.place_count() || target >= table.place_count() {
        return Err(Fail::from("no such place"));
    }
    Ok(table.number_of(actor(owner)?, actor(target)?, owner, target))
}

/// Ten places, and edges from each to each.
fn ten_by_ten(table: &mut EdgeTable) -> Result<(), Fail>
    requires { (a b : Actor) → a.node ≡ 0 → b.node ≡ 0 → HasEnds table.old a b a.serial b.serial }
    ensures { (a b : Actor) → a.node ≡ 0 → b.node ≡ 0 → HasEnds table.new a b a.serial b.serial }
{
    for _ in 0..10 {
        table.add_place()?;
    }
    for number in 0..100 {
        add(table, number / 10, number % 10)?;
    }
    Ok(())
}

#[test]
fn each_edge_is_found_near_or_in_the_map(rt: HostRuntime) -> Result<(), Fail> {
    let mut table = EdgeTable::new(rt.alloc());
    ten_by_ten(&mut table)?;
    for expected in 0..100 {
        assert_eq!(rt;
            number(&table, expected / 10, expected % 10)?,
            Some(expected)
        );
    }
    Ok(())
}

#[test]
fn edges_are_listed_by_place(rt: HostRuntime) -> Result<(), Fail> {
    let mut table = EdgeTable::new(rt.alloc());
    table.add_place()?;
    table.add_place()?;
    table.add_place()?;
    assert_eq!(rt; add(&mut table, 0, 1)?, 0);
    assert_eq!(rt; add(&mut table, 2, 1)?, 1);
    assert_eq!(rt; add(&mut table, 0, 0)?, 2);
    assert_eq!(rt; number(&table, 2, 1)?, Some(1));
    assert_eq!(rt; number(&table, 1, 2)?, None);
    if table.place_count() == 3 {
        assert_eq!(rt; table.edges_from(0), [(1, 0), (0, 2)].as_slice());
        assert_eq!(rt; table.edges_to(1), [(0, 0), (2, 1)].as_slice());
        assert_eq!(rt; table.edges_to(2), [].as_slice());
    }
    Ok(())
}

#[test]
fn counts_change_and_growth_is_cut_back(rt: HostRuntime) -> Result<(), Fail> {
    let mut table = EdgeTable::new(rt.alloc());
    table.add_place()?;
    table.remove_last_place();
    assert_eq!(rt; table.place_count(), 0);
    table.add_place()?;
    let number = add(&mut table, 0, 0)?;
    if number < table.edge_count() && table.edge(number).count == 0 {
        table.give(number, 3);
    }
    if number < table.edge_count() && table.edge(number).count == 3 {
        table.release(number, 1);
    }
    if number < table.edge_count() && table.edge(number).count == 2 {
        table.release(number, 4);
    }
    if number < table.edge_count() {
        assert_eq!(rt; table.edge(number).count, -2);
        table.remove_last_edge();
    }
    assert_eq!(rt; (table.edge_count(), table.place_count()), (0, 1));
    Ok(())
}

/// So many places, and edges from the first to each.
fn first_to_each(table: &mut EdgeTable, places: u32) -> Result<(), Fail>
    requires { (a b : Actor) → a.node ≡ 0 → b.node ≡ 0 → HasEnds table.old a b a.serial b.serial }
    ensures { (a b : Actor) → a.node ≡ 0 → b.node ≡ 0 → HasEnds table.new a b a.serial b.serial }
{
    for _ in 0..places {
        table.add_place()?;
    }
    for target in 0..places {
        add(table, 0, target)?;
    }
    Ok(())
}

/// One reference is given along the edge.
fn give_one(table: &mut EdgeTable, number: u32) {
    if number < table.edge_count() && table.edge(number).count == 0 {
        table.give(number, 1);
    }
}

/// One reference is released along the edge.
fn release_one(table: &mut EdgeTable, number: u32) {
    if number < table.edge_count() && table.edge(number).count == 1 {
        table.release(number, 1);
    }
}

/// How many positive edges are told of those from the place, and of those to it.
fn positive(table: &EdgeTable, place: u32) -> Result<(usize, usize), Fail> {
    if place >= table.place_count() {
        return Err(Fail::from("no such place"));
    }
    let from = table.positive_from(place).len();
    Ok((from, table.positive_to(place).len()))
}

#[test]
fn many_edges_that_are_not_positive_are_kept_apart(rt: HostRuntime) -> Result<(), Fail> {
    let mut table = EdgeTable::new(rt.alloc());
    first_to_each(&mut table, 200)?;
    assert_eq!(rt; positive(&table, 0)?, (0, 1));
    for number in 0..200 {
        give_one(&mut table, number);
    }
    assert_eq!(rt; positive(&table, 0)?, (200, 1));
    for number in 0..199 {
        release_one(&mut table, number);
    }
    assert_eq!(rt; positive(&table, 0)?, (1, 1));
    if table.place_count() == 200 {
        assert_eq!(rt; table.positive_from(0), [(199, 199)].as_slice());
        assert_eq!(rt; table.positive_to(199), [(0, 199)].as_slice());
    }
    Ok(())
}

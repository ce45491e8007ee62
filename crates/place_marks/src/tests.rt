//! A graph of three places, in which marks go as far as positive edges lead.
ghost use Rattle.std.specs.Prelude.{◌==◌, cond, false, None, Some};

use crate::{Marks, PlaceGraph, mark, mark_rounds};
use std::alloc::Global;
use std::test::Fail;
use std::thread::Threads;

/// An edge from place 0 to place 1 that is positive, and one from 1 to 2 that is not. The start is place 0, or none.
struct Row {
    starts: bool,
}

impl PlaceGraph for Row {
    ghost graph = { λ r. record {
      places = 3;
      is_start = λ p. cond (p == 0) r.starts false;
      step = λ n. cond (n == 0) (Some (0, 1)) None;
    } };

    fn place_count(&self) -> u32 {
        3
    }

    fn is_start(&self, place: u32) -> bool {
        place == 0 && self.starts
    }

    fn step(&self, number: u32) -> Option<(u32, u32)> {
        if number == 0 { Some((0, 1)) } else { None }
    }

    fn edges_from(&self, place: u32) -> &[(u32, u32)] {
        match place {
            0 => &[(1, 0)],
            1 => &[(2, 1)],
            _ => &[],
        }
    }

    fn edges_to(&self, place: u32) -> &[(u32, u32)] {
        match place {
            1 => &[(0, 0)],
            2 => &[(1, 1)],
            _ => &[],
        }
    }
}

#[test]
fn marks_go_along_positive_edges(rt: HostRuntime) -> Result<(), Fail> {
    let mut marks = Marks::new(rt.alloc());
    marks.reserve(&Row { starts: true })?;
    if marks.room() < 3 {
        return Err(Fail::from("no room"));
    }
    mark(&Row { starts: true }, &mut marks);
    let marked = (marks.is_marked(0), marks.is_marked(1), marks.is_marked(2));
    assert_eq!(rt; marked, (true, true, false));
    mark(&Row { starts: false }, &mut marks);
    assert_eq!(rt; (marks.is_marked(0), marks.is_marked(1)), (false, false));
    Ok(())
}

/// Which of the three places are marked in rounds over so many parts, after all were marked.
fn marked_in_rounds<R: Threads + Sync>(
    rt: &R,
    alloc: Global,
    row: &Row,
    parts: u32,
) -> Result<(bool, bool, bool), Fail> {
    let mut marks = Marks::new(alloc);
    marks.reserve(row)?;
    if marks.room() < 3 || parts < 1 {
        return Err(Fail::from("no room"));
    }
    mark(&Row { starts: true }, &mut marks);
    mark_rounds(rt, row, &mut marks, parts);
    Ok((marks.is_marked(0), marks.is_marked(1), marks.is_marked(2)))
}

#[test]
fn rounds_mark_the_same(rt: HostRuntime) -> Result<(), Fail> {
    for parts in [1, 2, 7] {
        let marked = marked_in_rounds(&rt, rt.alloc(), &Row { starts: true }, parts)?;
        assert_eq!(rt; marked, (true, true, false));
        let none = marked_in_rounds(&rt, rt.alloc(), &Row { starts: false }, parts)?;
        assert_eq!(rt; none, (false, false, false));
    }
    Ok(())
}

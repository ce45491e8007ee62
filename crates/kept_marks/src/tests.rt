//! A graph of two places, the first of which is a start and stops to be one.
ghost use Rattle.std.specs.Prelude.{◌==◌, cond, false, None, Some};

use crate::KeptMarks;
use place_marks::PlaceGraph;
use std::test::Fail;

/// A positive edge from place 0 to place 1. The start is place 0, or none.
#[derive(Drop)]
struct Pair {
    starts: bool,
}

impl PlaceGraph for Pair {
    ghost graph = { λ r. record {
      places = 2;
      is_start = λ p. cond (p == 0) r.starts false;
      step = λ n. cond (n == 0) (Some (0, 1)) None;
    } };

    fn place_count(&self) -> u32 {
        2
    }

    fn is_start(&self, place: u32) -> bool {
        place == 0 && self.starts
    }

    fn step(&self, number: u32) -> Option<(u32, u32)> {
        if number == 0 { Some((0, 1)) } else { None }
    }

    fn edges_from(&self, place: u32) -> &[(u32, u32)] {
        if place == 0 { &[(1, 0)] } else { &[] }
    }

    fn edges_to(&self, place: u32) -> &[(u32, u32)] {
        if place == 1 { &[(0, 0)] } else { &[] }
    }
}

#[test]
fn marks_fall_with_what_they_stand_on(rt: HostRuntime) -> Result<(), Fail> {
    let on = Pair { starts: true };
    let off = Pair { starts: false };
    let mut kept = KeptMarks::new(rt.alloc());
    kept.reserve(2)?;
    if kept.room() < 2 {
        return Err(Fail::from("no room"));
    }
    kept.restart(&on);
    kept.sweep(&on);
    assert_eq!(rt; (kept.support(0), kept.support(1)), (Some(0), Some(0)));
    kept.touch(0);
    kept.sweep(&on);
    assert_eq!(rt; (kept.is_marked(0), kept.is_marked(1)), (true, true));
    assert_eq!(rt; kept.pop_fallen(), None);
    kept.restart(&off);
    kept.sweep(&off);
    assert_eq!(rt; (kept.is_marked(0), kept.is_marked(1)), (false, false));
    assert_eq!(rt; (kept.pop_fallen(), kept.pop_fallen()), (Some(0), Some(1)));
    Ok(())
}

//! Pictures of objects: what their readers show, as text.
use crate::collector_pictures::{draw_folded, draw_taken};
use crate::world_pictures::{draw_course, draw_wanted, draw_world};
use cluster_course::Course;
use collector::Collector;
use std::alloc::{AllocError, Global};

/// What readers of an object show. A picture has much room from the start, and so takes memory twice.
#[derive(Drop)]
pub struct Picture {
    /// What is left as it was by each operation that is refused, or else changed as the operation does.
    shown: String,
    /// What such an operation may leave changed.
    kept: String,
}

const ROOM: usize = 32_768;

impl Picture {
    /// What the course and its world show, and apart from that what its collectors want: nothing where they are given up.
    pub fn of_course(alloc: Global, course: &Course) -> Result<Picture, AllocError> {
        let mut shown = String::with_capacity(alloc, ROOM)?;
        draw_course(&mut shown, course)?;
        draw_world(&mut shown, course.world())?;
        let mut kept = String::with_capacity(alloc, ROOM)?;
        draw_wanted(&mut kept, course)?;
        Ok(Picture { shown, kept })
    }

    /// What the collector has folded, and apart from that what it has taken and wants.
    pub fn of_collector(alloc: Global, collector: &Collector) -> Result<Picture, AllocError> {
        let mut shown = String::with_capacity(alloc, ROOM)?;
        draw_folded(&mut shown, collector)?;
        let mut kept = String::with_capacity(alloc, ROOM)?;
        draw_taken(&mut kept, collector)?;
        Ok(Picture { shown, kept })
    }

    /// Whether the pictures are the same.
    pub fn is_same(&self, other: &Picture) -> bool {
        self.shown.as_str() == other.shown.as_str() && self.kept.as_str() == other.kept.as_str()
    }

    /// Whether each of the two parts is that of one of these pictures.
    pub fn is_between(&self, before: &Picture, last: &Picture) -> bool {
        let shown = self.shown.as_str();
        let kept = self.kept.as_str();
        (shown == before.shown.as_str() || shown == last.shown.as_str())
            && (kept == before.kept.as_str() || kept == last.kept.as_str())
    }

    /// Whether a course shows what it showed before, but that its collectors are given up.
    pub fn is_given_up(&self, before: &Picture) -> bool {
        self.shown.as_str() == before.shown.as_str() && self.kept.as_str().is_empty()
    }

    /// The first lines in which the pictures differ.
    pub fn first_difference<'a>(&'a self, other: &'a Picture) -> (&'a str, &'a str) {
        if self.shown.as_str() == other.shown.as_str() {
            first_difference(self.kept.as_str(), other.kept.as_str())
        } else {
            first_difference(self.shown.as_str(), other.shown.as_str())
        }
    }
}

/// The first lines in which the texts differ; where one goes on after the other, all.
fn first_difference<'a>(one: &'a str, other: &'a str) -> (&'a str, &'a str) {
    for (a, b) in one.lines().zip(other.lines()) {
        if a != b {
            return (a, b);
        }
    }
    (one, other)
}

//! How often an answer of a row was want of memory, and what was found then.
use crate::pictures::Picture;
use std::alloc::Global;
use std::io;

/// How often an answer was want of memory, and what was found then. Nothing was wrong where the first count is the sum of the others.
/// It keeps the row's allocator.
#[derive(Drop)]
pub struct Trial {
    pub alloc: Global,
    /// Answers that were want of memory.
    refused: u32,
    /// Operations after which readers of the object showed what they showed before.
    as_before: u32,
    /// Operations that may leave a change, after which readers showed such a change.
    excepted: u32,
    /// Calls that make a value, and rows that were begun anew.
    made_anew: u32,
}

impl Trial {
    pub fn new(alloc: Global) -> Trial {
        Trial {
            alloc,
            refused: 0,
            as_before: 0,
            excepted: 0,
            made_anew: 0,
        }
    }

    /// A call was refused whose value is made anew.
    pub fn make_anew(&mut self) {
        self.refused = self.refused.saturating_add(1);
        self.made_anew = self.made_anew.saturating_add(1);
    }

    /// An operation was refused whose object is as before, or not.
    pub fn count(&mut self, is_as_before: bool) {
        self.refused = self.refused.saturating_add(1);
        if is_as_before {
            self.as_before = self.as_before.saturating_add(1);
        }
    }

    /// The operation of the line was refused, between these pictures of its object. Where they differ, and this is no change that
    /// the operation may leave, the first difference is told.
    pub fn judge(
        &mut self,
        rt: &impl Print,
        line: &str,
        before: &Picture,
        after: &Picture,
        is_excepted: bool,
    ) -> io::Result<()> {
        let is_as_before = after.is_same(before);
        self.count(is_as_before);
        if is_as_before {
            return Ok(());
        }
        if is_excepted {
            self.excepted = self.excepted.saturating_add(1);
            return Ok(());
        }
        let (was, is) = before.first_difference(after);
        println!(rt; "refused {line}: it was {was}; it is {is}")
    }

    /// The row's counts, and whether what came of it is what was expected.
    pub fn tell(&self, rt: &impl Print, title: &str, is_equal: bool) -> io::Result<()> {
        let refused = self.refused;
        let as_before = self.as_before;
        let excepted = self.excepted;
        let made_anew = self.made_anew;
        let report = if is_equal { "equal" } else { "other" };
        print!(rt; "{title}: refused {refused}, as before {as_before}, excepted {excepted}, ")?;
        println!(rt; "made anew {made_anew}, report {report}")
    }
}

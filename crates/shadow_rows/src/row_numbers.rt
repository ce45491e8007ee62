//! Numbers of edges whose room is used again.
ghost use Rattle.std.specs.Prelude.{◌≡◌, ◌≤◌, vec_capacity};

use std::alloc::Global;

/// A vector with room for more numbers than this is not kept.
const MOST_KEPT: usize = 1024;

/// The numbers of the edges of a bulletin's rows, in the order of the rows. Whoever folds keeps them for the next bulletin, so that
/// a fold takes memory for them only where a bulletin has more pairs than they have room for.
#[derive(Drop)]
pub struct RowNumbers {
    pub created: Vec<u32>,
    pub released: Vec<u32>,
}

impl RowNumbers {
    /// No numbers, and no room.
    pub fn new(alloc: Global) -> RowNumbers
        ensures created { vec_capacity result.created ≡ 0 }
        ensures released { vec_capacity result.released ≡ 0 }
    {
        RowNumbers {
            created: Vec::new(alloc),
            released: Vec::new(alloc),
        }
    }

    /// A vector with much room is given up, with what is in it. What stays is room for at most 1,024 numbers in each, 8 KB together.
    /// Constant time.
    pub(crate) fn give_up_much(&mut self)
        ensures created { vec_capacity self.new.created ≤ 1024 }
        ensures released { vec_capacity self.new.released ≤ 1024 }
    {
        give_up_much(&mut self.created);
        give_up_much(&mut self.released);
    }
}

/// The vector is given up if its room is much.
fn give_up_much(numbers: &mut Vec<u32>)
    ensures { vec_capacity numbers.new ≤ 1024 }
{
    if numbers.capacity() <= MOST_KEPT {
        return;
    }
    *numbers = Vec::new(*numbers.allocator());
}

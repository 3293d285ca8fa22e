// A walk over file offsets with a table of each selection: no division and no look at the families on the way.
ghost use Rattle.std.specs.Prelude.{◌≡◌, ◌^◌, ◌<◌};
ghost use Rattle.runs.specs.Walking.{Marks, next_side};

use families::{FileOffset, SubfileOffset};
use maps::Selection;

// Where the walk's offset stands in one selection: its place in a period, and its rank.
#[derive(Clone, Copy, Debug, PartialEq, Eq)]
pub struct Side {
    pub place: usize,
    pub rank: SubfileOffset,
}

// A file offset, and where it stands in each selection.
#[derive(Clone, Copy, Debug, PartialEq, Eq)]
pub struct Walk {
    pub x: FileOffset,
    pub one: Side,
    pub two: Side,
}

// A selection with a table of one period of it, which is lent: 1 at every place that is selected, and 0 elsewhere.
#[derive(Clone, Copy, Debug, PartialEq, Eq)]
pub struct Marked<'a> {
    pub selection: Selection,
    pub table: &'a [u8],
}

impl<'a> Marked<'a> {
    // One offset further.
    pub fn next(&self, side: Side) -> Side
        requires marked { Marks self.now.table.now side.place }
        requires near { side.rank.0 < 2 ^ 63 }
        ensures { result ≡ next_side self.now.table.now self.now.selection.period side }
    {
        let next = side.place + 1;
        Side {
            // a comparison, since a remainder is a division
            place: if next < self.selection.period as usize {
                next
            } else {
                0
            },
            rank: SubfileOffset(side.rank.0 + u64::from(self.table[side.place])),
        }
    }
}

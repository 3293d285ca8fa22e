// A walk over the selected runs of a window, from one to the next: no work for what lies between.
ghost use Rattle.std.specs.Prelude.{◌≡◌, ◌+◌, ◌-◌, ◌%◌, ◌^◌, ◌≤◌, ◌<◌, min, length};
ghost use Rattle.maps.specs.Lent.{bytes_in};
ghost use Rattle.moves.specs.Strides.{stride_at, OnwardOk, onwards, furthers};
ghost use Rattle.moves.specs.Walks.{Begun};

use crate::ahead::Stride;
use families::FileOffset;
use maps::{Selection, Subfile};

// A selected byte: its place in the file buffer, in its period, and in the packed buffer.
#[derive(Clone, Copy, Debug, PartialEq, Eq)]
pub struct Walk {
    pub at: usize,
    pub place: usize,
    pub packed: usize,
}

// At the first selected byte from `start` on.
pub fn begin(subfile: &Subfile, start: FileOffset) -> Walk
    requires after { subfile.now.selection.from ≤ start.0 }
    requires near { start.0 < 2 ^ 40 }
    ensures { Begun subfile.now.selection (bytes_in subfile.now) start.0 result }
{
    let s = subfile.selection;
    let from = u64::from(s.from);
    let period = u64::from(s.period);
    let byte = subfile.byte(subfile.rank(start));
    let past = byte.0 - from;
    Walk {
        at: (byte.0 - start.0) as usize,
        place: (past % period) as usize,
        packed: 0,
    }
}

// How many bytes follow without a gap, in a window of `bytes`. Strides and a selection, and no `Track`, here and below: read anew for each run, a lent
// track costs 7 instructions a piece (docs/PERFORMANCE.md), and a pair move would miss its aim.
pub fn run_here(strides: &[Stride], walk: Walk, bytes: usize) -> usize
    requires held { walk.place < length strides.now }
    requires inside { walk.at ≤ bytes }
    ensures { result ≡ min ((stride_at strides.now walk.place).run + 1) (bytes - walk.at) }
{
    let run = usize::from(strides[walk.place].run) + 1;
    run.min(bytes - walk.at)
}

// At the next run, where `run` bytes of this one are done.
pub fn onward(strides: &[Stride], s: Selection, walk: Walk, run: usize) -> Walk
    requires { OnwardOk s strides.now walk run }
    ensures { result ≡ onwards s strides.now walk run }
{
    let hop = usize::from(strides[walk.place].hop) + 1;
    Walk {
        at: walk.at + hop,
        place: around(walk.place + hop, s.period as usize),
        packed: walk.packed + run,
    }
}

// `len` bytes further on, where the `run` from here on is longer, and else at the next run.
pub fn further(strides: &[Stride], s: Selection, walk: Walk, run: usize, len: usize) -> Walk
    requires onward { OnwardOk s strides.now walk run }
    requires within { run ≤ (stride_at strides.now walk.place).hop + 1 }
    ensures { result ≡ furthers s strides.now walk run len }
{
    if run <= len {
        return onward(strides, s, walk, run);
    }
    Walk {
        at: walk.at + len,
        place: around(walk.place + len, s.period as usize),
        packed: walk.packed + len,
    }
}

// A place at most one period too far, back in the period: a remainder would be no plainer where it is used, and a division for every run.
fn around(place: usize, period: usize) -> usize
    requires { place < period + period }
    ensures { result ≡ place % period }
{
    if place < period {
        place
    } else {
        place - period
    }
}

// A table by place in a period: how long the run of its owner from there on is, and how far the owner's next run after it.
ghost use Rattle.std.specs.Prelude.{◌≤◌};
ghost use Rattle.maps.specs.Lent.{bytes_in};
ghost use Rattle.runs.specs.Walking.{FitsTable};
ghost use Rattle.moves.specs.Strides.{Room, Strides};
ghost use Rattle.moves.specs.Owning.{Nexts, AllFilled};

use families::SubfileOffset;
use maps::Subfile;

// What lies ahead of a place: the rest of its owner's run, and the way to the owner's next run. Each is less one, so that 16 bits hold the 65,536 of a
// period that is selected whole.
#[derive(Clone, Copy, Debug, PartialEq, Eq)]
pub struct Stride {
    pub run: u16,
    pub hop: u16,
}

// What stands in a table before it is filled.
pub const NO_STRIDE: Stride = Stride { run: 0, hop: 0 };

// One period for all tables, here and in trays: slices cut to it would be no plainer, for a clause would have to say that they are equally long.
//
// Fills the table from the last place back to the first. `nexts` has by owner where its next run starts, first that of the next period.
pub fn fill_strides(owners: &[u8], period: usize, nexts: &mut [usize], strides: &mut [Stride])
    requires nexts { Nexts owners.now period nexts.old }
    requires room { Room period strides.old }
    ensures { AllFilled owners.now period nexts.old strides.new }
{
    let mut last = usize::from(owners[period - 1]);
    let mut run: usize = 0;
    // how far after the run's end its owner's next run starts
    let mut gap = nexts[last] - period;
    for place in (0..period).rev() {
        let owner = usize::from(owners[place]);
        if owner != last {
            nexts[last] = place + 1;
            last = owner;
            run = 0;
            gap = nexts[owner] - place - 1;
        }
        strides[place] = Stride {
            run: run as u16,
            hop: (run + gap) as u16,
        };
        run += 1;
    }
}

// The table of a selection, by way of a table of N zeros that is marked with one period of it. A const parameter has no type that says N ≤ 65536, and `FitsTable`
// relates it with a subfile.
pub fn look_ahead<const N: usize>(subfile: &Subfile, strides: &mut [Stride])
    requires small { N ≤ 65536 }
    requires fits { FitsTable subfile.now.selection subfile.now.families.now N }
    requires room { Room subfile.now.selection.period strides.old }
    ensures { Strides subfile.now.selection (bytes_in subfile.now) strides.new }
{
    let s = subfile.selection;
    let from = u64::from(s.from);
    let period = s.period as usize;
    let mut marks = [0u8; N];
    runs::fill(subfile, &mut marks);
    let byte = subfile.byte(SubfileOffset(0));
    let first = (byte.0 - from) as usize;
    let mut nexts = [period; 2];
    nexts[1] = period + first;
    fill_strides(&marks, period, &mut nexts, strides);
}

// Gathering: the selected bytes of a file buffer, packed one after the other.
//
// `Carries` and `SideOk`, here and in the crates above, relate a subfile with a window and the lengths of what is lent, which no one value holds: so they are
// clauses. The loops of gathering and scattering differ in what is written, and one over a closure would call it for every run.
ghost use Rattle.std.specs.Prelude.{◌≡◌, ◌-◌, ◌≤◌, length};
ghost use Rattle.counting.specs.Gather.{in_file, gathered};
ghost use Rattle.maps.specs.Lent.{bytes_in};
ghost use Rattle.runs.specs.Walking.{FitsTable, SideOk};
ghost use Rattle.moves.specs.Walks.{Buffers, Carries};

use crate::ahead::NO_STRIDE;
use crate::track::Track;
use crate::{ahead, walks};
use maps::{Subfile, Window};

// Packs the selected bytes of a window, run by run.
pub fn gather_runs(track: &Track, window: Window, file: &[u8], packed: &mut [u8])
    requires { Carries track.now.subfile.selection track.now.subfile.families.now window (length file.now) (length packed.old) }
    ensures { let a = window.start.0 in
        packed.new ≡ gathered (bytes_in track.now.subfile) a (window.end.0 - a) (in_file a file.now) }
{
    let bytes = file.len();
    let mut walk = walks::begin(&track.subfile, window.start);
    // read once: the compiler cannot see that what is written to `packed` leaves the track as it is
    let strides = track.strides;
    let selection = track.subfile.selection;
    // a run says how far the next one is, so that this goes by no range
    while walk.at < bytes {
        let run = walks::run_here(strides, walk, bytes);
        copies::copy_run(file, walk.at, packed, walk.packed, run);
        walk = walks::onward(strides, selection, walk, run);
    }
}

// Packs the selected bytes of a window by a table of N places, which has one for each of a period.
// not inlined: the stack has room for the tables of one call, and a caller that makes several would hold those of each
#[inline(never)]
pub fn gather_by_table<const N: usize>(
    subfile: &Subfile,
    window: Window,
    file: &[u8],
    packed: &mut [u8],
)
    requires small { N ≤ 65536 }
    requires fits { FitsTable subfile.now.selection subfile.now.families.now N }
    requires carries { Carries subfile.now.selection subfile.now.families.now window (length file.now) (length packed.old) }
    ensures { let a = window.start.0 in
        packed.new ≡ gathered (bytes_in subfile.now) a (window.end.0 - a) (in_file a file.now) }
{
    let mut strides = [NO_STRIDE; N];
    ahead::look_ahead::<N>(subfile, &mut strides);
    let track = Track {
        subfile: *subfile,
        strides: &strides,
    };
    gather_runs(&track, window, file, packed);
}

// Packs the selected bytes of a window. An empty one has none.
pub fn gather(subfile: &Subfile, window: Window, file: &[u8], packed: &mut [u8])
    requires side { SideOk subfile.now.selection subfile.now.families.now 65536 window.start.0 }
    requires buffers { Buffers (bytes_in subfile.now) window (length file.now) (length packed.old) }
    ensures { let a = window.start.0 in
        packed.new ≡ gathered (bytes_in subfile.now) a (window.end.0 - a) (in_file a file.now) }
{
    if window.end.0 <= window.start.0 {
        return;
    }
    if runs::fits(subfile, 2048) {
        gather_by_table::<2048>(subfile, window, file, packed);
    } else {
        gather_by_table::<65536>(subfile, window, file, packed);
    }
}

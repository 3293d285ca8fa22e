// Scattering: packed bytes put back to where they are selected in a file buffer. Every other byte stays.
ghost use Rattle.std.specs.Prelude.{◌≡◌, ◌-◌, ◌≤◌, length};
ghost use Rattle.counting.specs.Gather.{scattered};
ghost use Rattle.maps.specs.Lent.{bytes_in};
ghost use Rattle.runs.specs.Walking.{FitsTable, SideOk};
ghost use Rattle.moves.specs.Walks.{Buffers, Carries};

use crate::ahead::NO_STRIDE;
use crate::track::Track;
use crate::{ahead, walks};
use maps::{Subfile, Window};

// Puts packed bytes back to a window, run by run: the walk of `gather_runs`. One function for gathering and scattering, here and below, is no plainer: the
// other buffer is lent to be written, and the promise is another.
pub fn scatter_runs(track: &Track, window: Window, packed: &[u8], file: &mut [u8])
    requires { Carries track.now.subfile.selection track.now.subfile.families.now window (length file.old) (length packed.now) }
    ensures { let a = window.start.0 in
        file.new ≡ scattered (bytes_in track.now.subfile) a (window.end.0 - a) packed.now file.old }
{
    let bytes = file.len();
    let mut walk = walks::begin(&track.subfile, window.start);
    // read once: the compiler cannot see that what is written to `file` leaves the track as it is
    let strides = track.strides;
    let selection = track.subfile.selection;
    // a run says how far the next one is, so that this goes by no range
    while walk.at < bytes {
        let run = walks::run_here(strides, walk, bytes);
        copies::copy_run(packed, walk.packed, file, walk.at, run);
        walk = walks::onward(strides, selection, walk, run);
    }
}

// Puts packed bytes back to a window by a table of N places, which has one for each of a period.
// not inlined: the stack has room for the tables of one call, and a caller that makes several would hold those of each
#[inline(never)]
pub fn scatter_by_table<const N: usize>(
    subfile: &Subfile,
    window: Window,
    packed: &[u8],
    file: &mut [u8],
)
    requires small { N ≤ 65536 }
    requires fits { FitsTable subfile.now.selection subfile.now.families.now N }
    requires carries { Carries subfile.now.selection subfile.now.families.now window (length file.old) (length packed.now) }
    ensures { let a = window.start.0 in
        file.new ≡ scattered (bytes_in subfile.now) a (window.end.0 - a) packed.now file.old }
{
    let mut strides = [NO_STRIDE; N];
    ahead::look_ahead::<N>(subfile, &mut strides);
    let track = Track {
        subfile: *subfile,
        strides: &strides,
    };
    scatter_runs(&track, window, packed, file);
}

// Puts packed bytes back to a window. An empty one has none.
pub fn scatter(subfile: &Subfile, window: Window, packed: &[u8], file: &mut [u8])
    requires side { SideOk subfile.now.selection subfile.now.families.now 65536 window.start.0 }
    requires buffers { Buffers (bytes_in subfile.now) window (length file.old) (length packed.now) }
    ensures { let a = window.start.0 in
        file.new ≡ scattered (bytes_in subfile.now) a (window.end.0 - a) packed.now file.old }
{
    if window.end.0 <= window.start.0 {
        return;
    }
    if runs::fits(subfile, 2048) {
        scatter_by_table::<2048>(subfile, window, packed, file);
    } else {
        scatter_by_table::<65536>(subfile, window, packed, file);
    }
}

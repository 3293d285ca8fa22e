// Filling: an element's part of the second tray, piece by piece from the first.
ghost use Rattle.std.specs.Prelude.{◌≡◌, length};
ghost use Rattle.counting.specs.Trays.{in_tray};
ghost use Rattle.maps.specs.Lent.{bytes_in};
ghost use Rattle.moves.specs.Walks.{Carries};
ghost use Rattle.parts.specs.Pieces.{bytes_of, elements_by, SourcesOk, takes, renewed};

use crate::choices;
use crate::pieces::Sources;
use families::FileOffset;
use maps::Window;
use moves::Track;

// Fills a subfile's part of the second tray from the first tray, with what `only` has. After a piece of `only` nothing is taken before its next run.
pub fn fill_part(
    track: &Track,
    window: Window,
    sources: &Sources,
    only: Option<usize>,
    tray: &[u8],
    part: &mut [u8],
)
    requires carries { Carries track.now.subfile.selection track.now.subfile.families.now window (length tray.now) (length part.old) }
    requires sources { SourcesOk sources.now window.start.0 (bytes_of window) }
    ensures { let L = elements_by sources.now.cycle sources.now.owners.now in let a = window.start.0 in let n = bytes_of window in
        part.new ≡ renewed (bytes_in track.now.subfile) a n (takes L only) (in_tray L a n tray.now) part.old }
{
    let bytes = tray.len();
    let mut walk = moves::begin(&track.subfile, window.start);
    // read once: the compiler cannot see that what is written to `part` leaves the track and the sources as they are
    let strides = track.strides;
    let selection = track.subfile.selection;
    let tables = *sources;
    // a piece says how far the next one is, so that this goes by no range
    while walk.at < bytes {
        let run = moves::run_here(strides, walk, bytes);
        let piece = tables.piece_at(FileOffset(window.start.0 + walk.at as u64), run);
        let taken = choices::takes(only, piece.owner);
        let mut step = piece.len;
        if taken {
            let source = tables.source_of(piece);
            copies::copy_run(tray, source.0 as usize, part, walk.packed, piece.len);
            if only.is_some() {
                step = tables.beyond(piece, run);
            }
        }
        walk = moves::further(strides, selection, walk, run, step);
    }
}

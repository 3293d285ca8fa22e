// Filling: the chosen parts of the second tray, from the first.
ghost use Rattle.std.specs.Prelude.{◌≡◌, length};
ghost use Rattle.maps.specs.Selected.{elements_of};
ghost use Rattle.parts.specs.Pieces.{bytes_of, elements_by, SourcesOk};
ghost use Rattle.trays.specs.Parts.{moved_where, ChosenOk, TargetsOk, TraysOk};

use crate::pattern::Pattern;
use maps::Window;
use moves::{Stride, Track};
use parts::{Chosen, Share, Sources};

// What is written down of the second layout: by place in its pattern what lies ahead there, and by element its share of a window.
#[derive(Clone, Copy)]
pub struct Targets<'a> {
    pub pattern: Pattern<'a>,
    pub strides: &'a [Stride],
    pub shares: &'a [Share],
}

// Fills the chosen parts of the second tray, each lent on where it starts.
pub fn fill_parts(
    targets: &Targets,
    sources: &Sources,
    window: Window,
    chosen: Chosen,
    tray1: &[u8],
    tray2: &mut [u8],
)
    requires targets { TargetsOk targets.now window }
    requires sources { SourcesOk sources.now window.start.0 (bytes_of window) }
    requires chosen { ChosenOk chosen sources.now.cycle.elements targets.now.pattern.layout.now.elements }
    requires trays { TraysOk window (length tray1.now) (length tray2.old) }
    ensures { let L = elements_by sources.now.cycle sources.now.owners.now in let M = elements_of targets.now.pattern.layout.now targets.now.pattern.size in
        tray2.new ≡ moved_where L M window.start.0 (bytes_of window) tray1.now chosen tray2.old }
{
    let only = chosen.only;
    let pattern = targets.pattern;
    for j in chosen.first..chosen.last {
        let subfile = maps::subfile_of(pattern.layout, pattern.size, j);
        let track = Track {
            subfile,
            strides: targets.strides,
        };
        let share = targets.shares[j];
        let from = share.start.0 as usize;
        let to = from + share.count as usize;
        parts::fill_part(&track, window, sources, only, tray1, &mut tray2[from..to]);
    }
}

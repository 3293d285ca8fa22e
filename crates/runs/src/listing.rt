// Listing: the runs that two selections share, by tables that have room for them.
//
// The list is lent, four slots a run: that is the form that the call's caller has it in. `SideOk` relates a subfile with the size of a table and the
// start of a window, which no one value holds: so it is a clause.
ghost use Rattle.std.specs.Prelude.{◌≡◌, [], ◌∷◌, ◌+◌, ◌^◌, ◌<◌};
ghost use Rattle.maps.specs.Lent.{bytes_in};
ghost use Rattle.runs.specs.Listing.{Listed, filled, with_run};
ghost use Rattle.runs.specs.Walking.{SideOk};

use crate::tables;
use crate::track::Track;
use crate::walks::{Marked, Walk};
use maps::{Subfile, Window};

// Counts a run of `len` offsets from where `walk` stands on, and writes its four slots behind those of `runs` others where the list holds it.
pub fn add(list: &mut [u64], runs: u64, walk: Walk, len: u64) -> u64
    requires { runs < 2 ^ 60 }
    ensures { let four = walk.x.0 ∷ len ∷ walk.one.rank.0 ∷ walk.two.rank.0 ∷ [] in
        filled list.new result ≡ filled (with_run list.old runs four) (runs + 1) }
{
    let next = runs as usize;
    if next < list.len() / 4 {
        let at = 4 * next;
        list[at..at + 4].copy_from_slice(&[walk.x.0, len, walk.one.rank.0, walk.two.rank.0]);
    }
    runs + 1
}

// Lists the runs by two tables of N places, which have room for a period of each selection.
// not inlined: its walks need the registers, and a large caller leaves them too few
#[inline(never)]
pub fn list_by_tables<const N: usize>(
    one: &Subfile,
    two: &Subfile,
    window: Window,
    list: &mut [u64],
) -> u64
    requires one { SideOk one.now.selection one.now.families.now N window.start.0 }
    requires two { SideOk two.now.selection two.now.families.now N window.start.0 }
    requires size { N < 2 ^ 62 }
    ensures { let p = bytes_in one.now in let q = bytes_in two.now in
        Listed p q window.start.0 window.end.0 list.old list.new result }
{
    let mut table1 = [0u8; N];
    let mut table2 = [0u8; N];
    tables::fill(one, &mut table1);
    tables::fill(two, &mut table2);
    let x = window.start;
    let start = Walk {
        x,
        one: tables::side_at(one, x),
        two: tables::side_at(two, x),
    };
    let track = Track {
        one: Marked {
            selection: one.selection,
            table: &table1,
        },
        two: Marked {
            selection: two.selection,
            table: &table2,
        },
        start,
        end: window.end,
    };
    track.list_if_held(list)
}

// Lists the runs that two selections share in a window, four slots a run, where the list holds them all; says how many there are.
// not inlined: what the selections are lent from would be copied once more, 6 KB each
#[inline(never)]
pub fn list_shared(one: &Subfile, two: &Subfile, window: Window, list: &mut [u64]) -> u64
    requires one { SideOk one.now.selection one.now.families.now 65536 window.start.0 }
    requires two { SideOk two.now.selection two.now.families.now 65536 window.start.0 }
    ensures { let p = bytes_in one.now in let q = bytes_in two.now in
        Listed p q window.start.0 window.end.0 list.old list.new result }
{
    if tables::fits(one, 2048) && tables::fits(two, 2048) {
        return list_by_tables::<2048>(one, two, window, list);
    }
    list_by_tables::<65536>(one, two, window, list)
}

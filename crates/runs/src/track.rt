// A track: what a walk goes over, and the runs on it one after the other, first only counted, and then written where the list holds them all.
ghost use Rattle.runs.specs.Walking.{WalksTo};

use crate::listing;
use crate::walks::{Marked, Walk};
use families::FileOffset;

// Two selections with their tables, from where `start` stands up to but not including `end`.
#[derive(Clone, Copy)]
pub struct Track<'a> {
    pub one: Marked<'a>,
    pub two: Marked<'a>,
    pub start: Walk,
    pub end: FileOffset,
    pub ghost walks: { WalksTo end.0 one.selection two.selection one.table.now two.table.now start },
}

impl<'a> Track<'a> {
    ghost use Rattle.std.specs.Prelude.{◌≡◌, ◌&&◌};
    ghost use Rattle.runs.specs.Listing.{shared_runs, Listed, handed, filled, added};
    ghost use Rattle.runs.specs.Walking.{Marks, marked};
    ghost use Rattle.runs.specs.Tracks.{first_on, second_on, WalksOn, PassedOn};

    // Whether both tables mark the place where the walk stands.
    pub fn both(&self, walk: Walk) -> bool
        requires one { Marks self.now.one.table.now walk.one.place }
        requires two { Marks self.now.two.table.now walk.two.place }
        ensures { result ≡ (marked self.now.one.table.now walk.one.place && marked self.now.two.table.now walk.two.place) }
    {
        // one sum, and so one branch an offset
        self.one.table[walk.one.place] + self.two.table[walk.two.place] == 2
    }

    // Goes on from where `from` stands while both selections have the offset, or while not both do, but not past the end. `wanted` is a bool: it is
    // compared with what both tables say, and a closure would be called for every offset.
    pub fn pass(&self, from: Walk, wanted: bool) -> Walk
        requires { WalksOn self.now from }
        ensures { PassedOn self.now wanted from.x.0 result }
    {
        let mut walk = from;
        // no count: the walk ends where it finds an offset that is not wanted
        while walk.x.0 < self.end.0 {
            let both = self.both(walk);
            if both != wanted {
                return walk;
            }
            walk = Walk {
                x: FileOffset(walk.x.0 + 1),
                one: self.one.next(walk.one),
                two: self.two.next(walk.two),
            };
        }
        walk
    }

    // Hands every run to the list, and says how many there are.
    // inlined, so that the walk which only counts keeps no ranks
    #[inline(always)]
    pub fn list_runs(&self, list: &mut [u64]) -> u64
        ensures { let p = first_on self.now in let q = second_on self.now in
            filled list.new result ≡ handed (added p q) (filled list.old 0) (shared_runs p q self.now.start.x.0 self.now.end.0) }
    {
        let mut runs: u64 = 0;
        let mut at = self.pass(self.start, false);
        // no count: the next run starts where the walk finds it
        while at.x.0 < self.end.0 {
            let past = self.pass(at, true);
            runs = listing::add(list, runs, at, past.x.0 - at.x.0);
            at = self.pass(past, false);
        }
        runs
    }

    // Counts the runs, and only then lists them, where the list holds them all.
    // inlined, so that what a walk asks of the track stays in registers, and is not read again for every offset
    #[inline(always)]
    pub fn list_if_held(&self, list: &mut [u64]) -> u64
        ensures { let p = first_on self.now in let q = second_on self.now in
            Listed p q self.now.start.x.0 self.now.end.0 list.old list.new result }
    {
        let runs = self.list_runs(&mut list[0..0]);
        if runs as usize <= list.len() / 4 {
            self.list_runs(list);
        }
        runs
    }
}

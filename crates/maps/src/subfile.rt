// The subfile of a selection: whole periods by division, and the place in one by the families.
ghost use Rattle.std.specs.Prelude.{◌≡◌, ◌+◌, ◌-◌, ◌*◌, ◌^◌, ◌≤◌, ◌<◌};
ghost use Rattle.counting.specs.Count.{count_below};
ghost use Rattle.families.specs.Lent.{forest_of};
ghost use Rattle.maps.specs.Selected.{families_of, Byte, SelectionOk};
ghost use Rattle.maps.specs.Facts.{selection_prop};

use crate::Selection;
use families::{Family, FileOffset, Siblings, SubfileOffset};

// A selection with the families that it is made of, which are lent.
// A type of its own, since `selection_of` answers for every layout that meets the sheet rules, also for one that no mapping takes.
#[derive(Clone, Copy, Debug, PartialEq, Eq)]
pub struct Subfile<'a> {
    pub selection: Selection,
    pub families: &'a [Family],
    pub ghost ok: { SelectionOk selection families.now } by { selection_prop _ _ },
}

impl<'a> Subfile<'a> {
    ghost use Rattle.families.specs.Lent.{LentAs};
    ghost use Rattle.maps.specs.Lent.{bytes_in};

    // What it selects of one period: these families with their children.
    pub fn siblings(&self) -> Siblings<'a>
        ensures tree { forest_of result ≡ families_of self.now.selection self.now.families.now }
        ensures lent { let s = self.now.selection in
            LentAs result self.now.families.now s.first s.tops s.levels }
    {
        let s = self.selection;
        Siblings {
            families: self.families,
            first: s.first,
            count: s.tops,
            levels: s.levels,
        }
    }

    // Whether it has file offset x.
    pub fn has(&self, x: FileOffset) -> bool
        ensures { result ≡ bytes_in self.now x.0 }
    {
        let s = self.selection;
        let from = u64::from(s.from);
        let period = u64::from(s.period);
        let at = x.0;
        if at < from {
            return false;
        }
        let past = at - from;
        self.siblings().selects((past % period) as u32)
    }

    // How many file offsets below x it has.
    pub fn rank(&self, x: FileOffset) -> SubfileOffset
        ensures { result.0 ≡ count_below (bytes_in self.now) x.0 }
    {
        let s = self.selection;
        let from = u64::from(s.from);
        let period = u64::from(s.period);
        let size = u64::from(s.size);
        // before the selection starts nothing is past it, and the rank comes to 0
        let past = x.0.saturating_sub(from);
        let whole = past / period;
        let part = self.siblings().rank((past % period) as u32);
        SubfileOffset(whole * size + part)
    }

    // The file offset of byte y of it.
    pub fn byte(&self, y: SubfileOffset) -> FileOffset
        requires { y.0 < 2 ^ 40 }
        ensures { Byte (bytes_in self.now) y.0 result.0 }
    {
        let s = self.selection;
        let size = u64::from(s.size);
        let place = self.siblings().inverse(y.0 % size);
        s.offset(y.0 / size, place)
    }

    // How many bytes it has from one file offset up to but not including another.
    pub fn count(&self, from: FileOffset, to: FileOffset) -> u64
        requires { from.0 ≤ to.0 }
        ensures { let p = bytes_in self.now in
            result ≡ count_below p to.0 - count_below p from.0 }
    {
        self.rank(to).0 - self.rank(from).0
    }
}

impl Selection {
    // The file offset of a place in a period that has `whole` periods of the selection before it.
    fn offset(self, whole: u64, place: u32) -> FileOffset
        requires { whole * self.period < 2 ^ 63 }
        ensures { result.0 ≡ self.from + (whole * self.period + place) }
    {
        FileOffset(u64::from(self.from) + (whole * u64::from(self.period) + u64::from(place)))
    }
}

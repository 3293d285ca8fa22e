// A list of sibling families with their children: membership, size, end, rank, inverse and painting, by recursion on the levels.
ghost use Rattle.families.specs.Forest.{RulesKept};
ghost use Rattle.families.specs.Decoded.{family_in, forest_at};
ghost use Rattle.families.specs.Props.{WF-prop};

use crate::nested::Nested;
use crate::painting::paint_all;
use crate::{Family, Layout};

// Sibling families, each followed by its descendants: `count` of them from index `first` on, `levels` levels deep at most.
// `ruled` has the bound of a table and not that of 32 bits, which `inverse` alone asks for: `owners` takes a table of any length.
// `first` is of the layout's whole array, whose spans tell where a sibling stands. The loops go over it by `split_first`: an `Iterator` of its own would say
// by `next_gives` no more than `Split` says, and the loops' invariants are of what is left.
#[derive(Clone, Copy)]
pub struct Siblings<'a> {
    pub families: &'a [Family],
    pub first: usize,
    pub count: u32,
    pub levels: u32,
    ghost ruled: { RulesKept (forest_at levels (family_in families.now) first count) } by { WF-prop _ _ _ },
}

impl<'a> Siblings<'a> {
    ghost use Rattle.std.specs.Prelude.{◌≡◌, ◌+◌, ◌-◌, ◌<◌, ◌≤◌, length};
    ghost use Rattle.counting.specs.Count.{count_below, nth};
    ghost use Rattle.families.specs.Forest.{has, inner, end_of, size_of, Sound, WF};
    ghost use Rattle.families.specs.Lent.{forest_of, Split};
    ghost use Rattle.families.specs.Owners.{painted};

    // The eldest with its children, and its younger siblings.
    pub(crate) fn split_first(&self) -> (Nested<'a>, Siblings<'a>)
        requires { 1 ≤ self.now.count }
        ensures { Split self.now result.0 result.1 }
    {
        let family = self.families[self.first];
        let children = Siblings {
            families: self.families,
            first: self.first + 1,
            count: family.children,
            levels: self.levels - 1,
        };
        let younger = Siblings {
            families: self.families,
            first: self.first + family.span as usize,
            count: self.count - 1,
            levels: self.levels,
        };
        (Nested { family, children }, younger)
    }

    // Whether the families select x.
    pub fn selects(&self, x: u32) -> bool
        ensures { result ≡ has (forest_of self.now) x }
    {
        let mut rest = *self;
        for _ in 0..self.count {
            let (eldest, younger) = rest.split_first();
            if eldest.family.covers(x) {
                // no younger sibling has x: each starts after this family's last byte
                return eldest.children.count == 0
                    || eldest.children.selects(eldest.family.place(x));
            }
            rest = younger;
        }
        false
    }

    // How many offsets the families select.
    #[cycle(size)]
    pub fn size(&self) -> u64
        ensures { result ≡ size_of (forest_of self.now) }
    {
        let mut sum: u64 = 0;
        let mut rest = *self;
        for _ in 0..self.count {
            let (eldest, younger) = rest.split_first();
            sum += u64::from(eldest.family.n) * eldest.segment_size();
            rest = younger;
        }
        sum
    }

    // The first offset past every family. The children do not matter: each ends in its parent's segment.
    pub fn end(&self) -> u64
        ensures { result ≡ end_of (forest_of self.now) }
    {
        let mut farthest: u64 = 0;
        let mut rest = *self;
        for _ in 0..self.count {
            let (eldest, younger) = rest.split_first();
            farthest = farthest.max(eldest.family.end());
            rest = younger;
        }
        farthest
    }

    // How many offsets below x the families select.
    #[cycle(rank)]
    pub fn rank(&self, x: u32) -> u64
        ensures { result ≡ count_below (has (forest_of self.now)) x }
    {
        let mut sum: u64 = 0;
        let mut rest = *self;
        for _ in 0..self.count {
            let (eldest, younger) = rest.split_first();
            sum += eldest.rank(x);
            rest = younger;
        }
        sum
    }

    // The y-th offset that the families select, counted from 0.
    #[cycle(inverse)]
    pub fn inverse(&self, y: u64) -> u32
        requires sound { Sound (forest_of self.now) }
        requires below { y < size_of (forest_of self.now) }
        ensures { result ≡ nth (has (forest_of self.now)) (end_of (forest_of self.now)) y }
    {
        let mut skip = y;
        let mut rest = *self;
        for _ in 0..self.count {
            let (eldest, younger) = rest.split_first();
            let each = eldest.segment_size();
            let here = u64::from(eldest.family.n) * each;
            if skip < here {
                let inside = eldest.inverse(skip % each);
                return eldest.family.l + (skip / each) as u32 * eldest.family.s + inside;
            }
            skip -= here;
            rest = younger;
        }
        // never reached: y is below the size
        0
    }

    // Marks what the families select, or the whole table where there is none.
    #[cycle(paint)]
    pub fn paint(&self, table: &mut [u8], me: u8)
        requires some { 0 < length table.old }
        requires ruled { WF 0 (length table.old - 1) (forest_of self.now) }
        ensures { table.new ≡ painted (inner (forest_of self.now)) me table.old }
    {
        if self.count == 0 {
            paint_all(table, me);
            return;
        }
        let mut rest = *self;
        for _ in 0..self.count {
            let (eldest, younger) = rest.split_first();
            eldest.paint(table, me);
            rest = younger;
        }
    }
}

impl Layout {
    ghost use Rattle.std.specs.Prelude.{◌≡◌, ◌<◌};
    ghost use Rattle.families.specs.Decoded.{element_of, tree_of};
    ghost use Rattle.families.specs.Lent.{forest_of, LentAs};

    // The families of element e.
    pub fn siblings(&self, e: usize, levels: u32) -> Siblings<'_>
        requires room { e < 16 }
        requires ruled { RulesKept (tree_of levels self.now e) }
        ensures tree { forest_of result ≡ tree_of levels self.now e }
        ensures lent { LentAs result self.now.family (element_of self.now e).first (element_of self.now e).tops levels }
    {
        let element = self.element[e];
        Siblings {
            families: &self.family,
            first: element.first,
            count: element.tops,
            levels,
        }
    }
}

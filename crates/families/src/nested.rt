// A family with its children: what is selected in each of its segments.
ghost use Rattle.std.specs.Prelude.{◌-◌};
ghost use Rattle.families.specs.Forest.{WF, FARTHEST};
ghost use Rattle.families.specs.Decoded.{FitsIn, family_in, forest_at};
ghost use Rattle.families.specs.Props.{Fits-prop, WF-prop};

use crate::{Family, Siblings};

// A family and its children, which end within one segment of it.
#[derive(Clone, Copy)]
pub struct Nested<'a> {
    pub family: Family,
    pub children: Siblings<'a>,
    ghost fits: { FitsIn FARTHEST family } by { Fits-prop _ _ _ _ _ _ },
    ghost inside: { WF 0 (family.r - family.l) (forest_at children.levels (family_in children.families.now) children.first children.count) } by { WF-prop _ _ _ },
}

impl<'a> Nested<'a> {
    ghost use Rattle.std.specs.Prelude.{◌≡◌, ◌+◌, ◌^◌, ◌<◌, length};
    ghost use Rattle.counting.specs.Count.{count_below, nth};
    ghost use Rattle.families.specs.Forest.{inner};
    ghost use Rattle.families.specs.Decoded.{segments_of};
    ghost use Rattle.families.specs.Lent.{forest_of};
    ghost use Rattle.families.specs.Owners.{painted};

    // How many offsets one segment selects: all of them, or what the children select.
    #[cycle(size)]
    pub(crate) fn segment_size(&self) -> u64
        ensures { result ≡ count_below (inner (forest_of self.now.children)) (self.now.family.r - self.now.family.l + 1) }
    {
        if self.children.count == 0 {
            return self.family.segment_len();
        }
        self.children.size()
    }

    // How many offsets below x the family selects.
    #[cycle(rank)]
    pub(crate) fn rank(&self, x: u32) -> u64
        ensures { result ≡ count_below (segments_of self.now.family (inner (forest_of self.now.children))) x }
    {
        if self.children.count == 0 {
            return self.family.leaf_rank(x);
        }
        let whole = u64::from(self.family.whole_before(x)) * self.children.size();
        whole + self.children.rank(self.family.part_before(x))
    }

    // The y-th offset that one segment selects, from the segment's start: y itself, or the y-th of the children.
    #[cycle(inverse)]
    pub(crate) fn inverse(&self, y: u64) -> u32
        requires fits { FitsIn (2 ^ 32 - 1) self.now.family }
        requires below { y < count_below (inner (forest_of self.now.children)) (self.now.family.r - self.now.family.l + 1) }
        ensures { result ≡ nth (inner (forest_of self.now.children)) (self.now.family.r - self.now.family.l + 1) y }
    {
        if self.children.count == 0 {
            return y as u32;
        }
        self.children.inverse(y)
    }

    // Paints each segment of the family: it is lent on as a part of the table.
    #[cycle(paint)]
    pub(crate) fn paint(&self, table: &mut [u8], me: u8)
        requires some { 0 < length table.old }
        requires fits { FitsIn (length table.old - 1) self.now.family }
        ensures { table.new ≡ painted (segments_of self.now.family (inner (forest_of self.now.children))) me table.old }
    {
        let stride = self.family.s as usize;
        // not `step_by` or `chunks_mut`, which take no 0: one segment has the stride 0
        let mut from = self.family.l as usize;
        let mut to = self.family.r as usize + 1;
        for _ in 0..self.family.n {
            self.children.paint(&mut table[from..to], me);
            from += stride;
            to += stride;
        }
    }
}

// One family by itself: its segments, by division.
ghost use Rattle.std.specs.Prelude.{◌≡◌, cond, ◌+◌, ◌-◌, ◌*◌, ◌/◌, ◌%◌, min, ltb};
ghost use Rattle.counting.specs.Count.{count_below};
ghost use Rattle.families.specs.Forest.{last_byte, Stride, FARTHEST};
ghost use Rattle.families.specs.Decoded.{leaf_of, FitsIn};

use crate::Family;

impl Family {
    // How many bytes a segment has.
    pub(crate) fn segment_len(self) -> u64
        ensures { result ≡ self.r - self.l + 1 }
    {
        u64::from(self.r.saturating_sub(self.l)) + 1
    }

    // The first offset past the last byte.
    pub(crate) fn end(self) -> u64
        requires { FitsIn FARTHEST self }
        ensures { result ≡ last_byte self.l self.r self.s self.n + 1 }
    {
        let strides = u64::from(self.n - 1) * u64::from(self.s);
        u64::from(self.l) + strides + self.segment_len()
    }

    // The number of the segment in which x lies, or after which. One segment has the stride 0, and the number 0.
    pub(crate) fn segment_of(self, x: u32) -> u32
        ensures { result ≡ (x - self.l) / self.s }
    {
        x.saturating_sub(self.l).checked_div(self.s).unwrap_or(0)
    }

    // How far behind that segment's start x lies.
    pub(crate) fn place(self, x: u32) -> u32
        ensures { result ≡ (x - self.l) % self.s }
    {
        let past = x.saturating_sub(self.l);
        past.checked_rem(self.s).unwrap_or(past)
    }

    // Whether x lies in a segment, whatever the children select there.
    pub(crate) fn covers(self, x: u32) -> bool
        requires { Stride self.l self.r self.s self.n }
        ensures { result ≡ leaf_of self x }
    {
        self.l <= x && self.segment_of(x) < self.n && self.place(x) <= self.r.saturating_sub(self.l)
    }

    // How many whole segments lie before x.
    pub(crate) fn whole_before(self, x: u32) -> u32
        ensures { result ≡ min ((x - self.l) / self.s) self.n }
    {
        self.segment_of(x).min(self.n)
    }

    // How many bytes of the segment after those lie before x.
    pub(crate) fn part_before(self, x: u32) -> u32
        ensures { result ≡ cond (ltb ((x - self.l) / self.s) self.n) (min ((x - self.l) % self.s) (self.r - self.l + 1)) 0 }
    {
        if self.n <= self.segment_of(x) {
            return 0;
        }
        u64::from(self.place(x)).min(self.segment_len()) as u32
    }

    // How many bytes below x a family without children selects. Document 000, section 6.1, MAP-AUX_f, line 2, is
    // (x div s_f)(r_f - l_f + 1) + x mod s_f; a comment says where the page is mended. In the page's steps, so it calls none of `segment_len`, `segment_of`
    // and `place`.
    pub(crate) fn leaf_rank(self, x: u32) -> u64
        requires { Stride self.l self.r self.s self.n }
        ensures { result ≡ count_below (leaf_of self) x }
    {
        // x - l_f, which MAP-AUX_S hands on. Mended: where l_f is past x it is 0, and the rank comes to 0
        let past = x.saturating_sub(self.l);
        // r_f - l_f + 1, in section 6.2 LEN_f; no sheet has l_f past r_f
        let len = u64::from(self.r.saturating_sub(self.l)) + 1;
        // the segment number, x div s_f. Mended: with n_f = 1, s_f is 0 and not divided by, and the number is 0
        let segment = u64::from(past.checked_div(self.s).unwrap_or(0));
        // the place in the segment, x mod s_f. Mended: with n_f = 1 it is x
        let place = u64::from(past.checked_rem(self.s).unwrap_or(past));
        // the cap at the segment's length. Mended: the page counts the gap after a segment too
        let place = place.min(len);
        // line 2: the segments before this one, and the place in it
        let rank = segment * len + place;
        // the cap at n segments, SIZE_f of section 4.6. Mended: the page counts on behind the last segment
        let size = u64::from(self.n) * len;
        rank.min(size)
    }
}

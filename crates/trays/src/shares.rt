// Shares: what each element has of a window.
ghost use Rattle.std.specs.Prelude.{◌≡◌, ◌-◌, ◌≤◌, length};
ghost use Rattle.counting.specs.Count.{count_below};
ghost use Rattle.maps.specs.Lent.{bytes_in};
ghost use Rattle.maps.specs.Selected.{elements_of};
ghost use Rattle.parts.specs.Pieces.{bytes_of, SharesOf};

use crate::pattern::Pattern;
use families::TrayPlace;
use maps::{Subfile, Window};
use parts::Share;

// The share of a selection whose part starts at `start`.
pub fn share_of(subfile: &Subfile, window: Window, start: TrayPlace) -> Share
    ensures start { result.start ≡ start }
    ensures count { let p = bytes_in subfile.now in
        result.count ≡ count_below p window.end.0 - count_below p window.start.0 }
    ensures before { let p = bytes_in subfile.now in
        result.before.0 ≡ count_below p window.start.0 }
    ensures size { result.size ≡ subfile.now.selection.size }
{
    let before = subfile.rank(window.start);
    let last = subfile.rank(window.end);
    Share {
        start,
        count: last.0 - before.0,
        before,
        size: u64::from(subfile.selection.size),
    }
}

// Writes down the share of every element of a layout.
pub fn share_out(pattern: &Pattern, window: Window, shares: &mut [Share])
    requires after { pattern.now.layout.now.displacement ≤ window.start.0 }
    requires room { pattern.now.layout.now.elements ≤ length shares.old }
    ensures { let t = pattern.now.layout.now in let size = pattern.now.size in
        SharesOf (elements_of t size) t.displacement size window.start.0 (bytes_of window) shares.new }
{
    let mut at: u64 = 0;
    for e in 0..pattern.layout.elements {
        let subfile = maps::subfile_of(pattern.layout, pattern.size, e);
        let share = share_of(&subfile, window, TrayPlace(at));
        shares[e] = share;
        at += share.count;
    }
}

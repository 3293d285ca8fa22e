// The pattern that the elements share: its size, and number 11, the first offset that is not in exactly one element.
ghost use Rattle.std.specs.Prelude.{◌≡◌, ◌==◌, ◌||◌, ◌-◌, ◌^◌, ◌≤◌, ◌<◌};
ghost use Rattle.std.specs.List.{position};
ghost use Rattle.families.specs.Decoded.{trees_of, LayoutOk};
ghost use Rattle.sheets.specs.Pattern.{sizes};
ghost use Rattle.sheets.specs.Uneven.{uneven_of};

use crate::refusals::{Fault, Refused};
use families::Layout;

// How many offsets the pattern has: what the elements select together.
pub fn pattern_size(layout: Layout) -> u32
    requires { LayoutOk 4 65535 layout }
    ensures { result ≡ sizes (trees_of 4 layout) }
{
    let mut sum: u64 = 0;
    for e in 0..layout.elements {
        sum += layout.siblings(e, 4).size();
    }
    sum as u32
}

// The first place that holds 0, nobody's, or 255, several's: bytes, since an enum of three cases would take two a place, and tables are fixed memory.
pub fn scan(table: &[u8]) -> Option<usize>
    ensures { result ≡ position (λ v. v == 0 || v == 255) table.now }
{
    table.iter().position(|&v| v == 0 || v == 255)
}

// The first uneven offset of a pattern, by a table of N places for their owners, one for each offset that an element can have.
pub fn first_uneven<const N: usize>(layout: Layout, size: u32) -> Result<(), Refused>
    requires table { N < 2 ^ 62 }
    requires some { 0 < N }
    requires ok { LayoutOk 4 (N - 1) layout }
    requires whole { size ≡ sizes (trees_of 4 layout) }
    ensures { result ≡ uneven_of (trees_of 4 layout) }
{
    let mut table = [0u8; N];
    families::owners(layout, 4, &mut table);
    let end = N.min(size as usize);
    let Some(place) = scan(&table[..end]) else {
        return Ok(());
    };
    let fault = if table[place] == 0 {
        Fault::Hole
    } else {
        Fault::Overlap
    };
    Err(Refused {
        fault,
        place: place as u64,
    })
}

// The first uneven offset of a pattern whose elements end at `end`. A small table is used where it does, so that no large one is cleared.
pub fn judge_pattern(layout: Layout, size: u32, end: u32) -> Result<(), Refused>
    requires least { 1 ≤ end }
    requires most { end ≤ 65536 }
    requires ok { LayoutOk 4 (end - 1) layout }
    requires whole { size ≡ sizes (trees_of 4 layout) }
    ensures { result ≡ uneven_of (trees_of 4 layout) }
{
    if end <= 2048 {
        first_uneven::<2048>(layout, size)
    } else {
        first_uneven::<65536>(layout, size)
    }
}

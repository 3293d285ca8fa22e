// The tables of a whole layout, by place in its pattern.
ghost use Rattle.std.specs.Prelude.{◌≡◌, true, replicate};
ghost use Rattle.parts.specs.Tabled.{Ranked};
ghost use Rattle.trays.specs.Tables.{NextsOf, FitsAll, RoomFor, Tables, CountedOk};

use crate::pattern::Pattern;
use families::SubfileOffset;
use moves::Stride;

// Writes down, by owner, the first place that it has in the second of two periods. Before it the numbers are those of owners without a place.
pub fn put_nexts(pattern: &Pattern, nexts: &mut [usize])
    requires unused { nexts.old ≡ replicate 17 pattern.now.size }
    ensures { NextsOf pattern.now.layout.now pattern.now.size nexts.new }
{
    let from = u64::from(pattern.layout.displacement);
    for e in 0..pattern.layout.elements {
        let subfile = maps::subfile_of(pattern.layout, pattern.size, e);
        let byte = subfile.byte(SubfileOffset(0));
        nexts[e + 1] = pattern.size as usize + (byte.0 - from) as usize;
    }
}

// Who has each place, how many places from there on it keeps, and how far its next run is.
pub fn fill_tables(pattern: &Pattern, owners: &mut [u8], strides: &mut [Stride])
    requires room { RoomFor pattern.now.layout.now pattern.now.size owners.old strides.old }
    ensures { Tables pattern.now.layout.now pattern.now.size owners.new strides.new }
{
    families::owners(*pattern.layout, 4, owners);
    let mut nexts = [pattern.size as usize; 17];
    put_nexts(pattern, &mut nexts);
    moves::fill_strides(owners, pattern.size as usize, &mut nexts, strides);
}

// How many places before each are its owner's.
pub fn fill_ranks(owners: &[u8], period: usize, ranks: &mut [u16])
    requires { CountedOk owners.now period ranks.old }
    ensures { Ranked owners.now period ranks.new }
{
    let mut counts = [0u32; 17];
    for (place, rank) in ranks[..period].iter_mut().enumerate() {
        let owner = usize::from(owners[place]);
        let count = counts[owner];
        *rank = count as u16;
        counts[owner] = count + 1;
    }
}

// Whether a table of `room` places has one for every offset of the layout's families and every place of its pattern.
pub fn fits_all(pattern: &Pattern, room: u64) -> bool
    ensures { result ≡ true → FitsAll pattern.now.layout.now pattern.now.size room }
{
    (0..pattern.layout.elements).all(|e| runs::fits(
        &maps::subfile_of(pattern.layout, pattern.size, e),
        room,
    ))
}

// Moving: from a tray of one layout to a tray of another.
ghost use Rattle.std.specs.Prelude.{◌≡◌, ◌≤◌, ◌<◌, length};
ghost use Rattle.counting.specs.Trays.{moved, pair_moved};
ghost use Rattle.maps.specs.Selected.{elements_of};
ghost use Rattle.parts.specs.Pieces.{bytes_of, elements_by, Written};
ghost use Rattle.trays.specs.Tables.{FitsAll, RoomFor};
ghost use Rattle.trays.specs.Parts.{cycle_of, Prepared, moved_where, ChosenOk, Lengths, TraysOk, Starts};

use crate::filling::Targets;
use crate::pattern::Pattern;
use crate::{filling, shares, tables};
use families::Layout;
use maps::Window;
use moves::{NO_STRIDE, Stride};
use parts::{Chosen, Cycle, NO_SHARE, Share, Sources};

// Writes down what of the first layout a piece is found by: in four tables that are lent to be written, where `Sources` lends them to be read.
pub fn put_sources(
    pattern: &Pattern,
    window: Window,
    owners: &mut [u8],
    strides: &mut [Stride],
    ranks: &mut [u16],
    shares: &mut [Share],
)
    requires after { pattern.now.layout.now.displacement ≤ window.start.0 }
    requires room { RoomFor pattern.now.layout.now pattern.now.size owners.old strides.old }
    requires ranks { pattern.now.size ≤ length ranks.old }
    requires shares { length shares.old ≡ 16 }
    ensures written { let c = cycle_of pattern.now.layout.now pattern.now.size in
        Written c window.start.0 (bytes_of window) owners.new strides.new ranks.new shares.new }
    ensures elements { let t = pattern.now.layout.now in let size = pattern.now.size in
        elements_by (cycle_of t size) owners.new ≡ elements_of t size }
{
    tables::fill_tables(pattern, owners, strides);
    tables::fill_ranks(owners, pattern.size as usize, ranks);
    shares::share_out(pattern, window, shares);
}

// Writes down what of the second layout its parts are filled by, by way of a table of N places for its owners.
pub fn put_targets<const N: usize>(
    pattern: &Pattern,
    window: Window,
    strides: &mut [Stride],
    shares: &mut [Share],
)
    requires small { (1 ≤ N) × (N ≤ 65536) }
    requires after { pattern.now.layout.now.displacement ≤ window.start.0 }
    requires fits { FitsAll pattern.now.layout.now pattern.now.size N }
    requires strides { length strides.old ≡ N }
    requires shares { length shares.old ≡ 16 }
    ensures { Prepared pattern.now.layout.now pattern.now.size window strides.new shares.new }
{
    let mut owners = [0u8; N];
    tables::fill_tables(pattern, &mut owners, strides);
    shares::share_out(pattern, window, shares);
}

// Moves what is chosen, by tables of N places, which have one for each of a pattern of each layout.
pub fn move_by_tables<const N: usize>(
    first: &Pattern,
    second: &Pattern,
    window: Window,
    chosen: Chosen,
    tray1: &[u8],
    tray2: &mut [u8],
)
    requires small { (1 ≤ N) × (N ≤ 65536) }
    requires first_after { first.now.layout.now.displacement ≤ window.start.0 }
    requires second_after { second.now.layout.now.displacement ≤ window.start.0 }
    requires first_fits { FitsAll first.now.layout.now first.now.size N }
    requires second_fits { FitsAll second.now.layout.now second.now.size N }
    requires chosen { ChosenOk chosen first.now.layout.now.elements second.now.layout.now.elements }
    requires trays { TraysOk window (length tray1.now) (length tray2.old) }
    ensures { let L = elements_of first.now.layout.now first.now.size in let M = elements_of second.now.layout.now second.now.size in
        tray2.new ≡ moved_where L M window.start.0 (bytes_of window) tray1.now chosen tray2.old }
{
    let mut owners = [0u8; N];
    let mut steps = [NO_STRIDE; N];
    let mut ranks = [0u16; N];
    let mut shares = [NO_SHARE; 16];
    put_sources(
        first,
        window,
        &mut owners,
        &mut steps,
        &mut ranks,
        &mut shares,
    );
    let mut strides = [NO_STRIDE; N];
    let mut parts = [NO_SHARE; 16];
    put_targets::<N>(second, window, &mut strides, &mut parts);
    let sources = Sources {
        cycle: Cycle {
            from: first.layout.displacement,
            period: first.size,
            elements: first.layout.elements,
        },
        owners: &owners,
        strides: &steps,
        ranks: &ranks,
        shares: &shares,
    };
    let targets = Targets {
        pattern: *second,
        strides: &strides,
        shares: &parts,
    };
    filling::fill_parts(&targets, &sources, window, chosen, tray1, tray2);
}

// Moves what is chosen. An empty window has nothing. `ChosenOk` relates what is chosen with both layouts, and `Lengths`, here and
// below, a window with two lent trays: so they are clauses.
pub fn move_chosen(
    first: &Pattern,
    second: &Pattern,
    window: Window,
    chosen: Chosen,
    tray1: &[u8],
    tray2: &mut [u8],
)
    requires first_after { first.now.layout.now.displacement ≤ window.start.0 }
    requires second_after { second.now.layout.now.displacement ≤ window.start.0 }
    requires chosen { ChosenOk chosen first.now.layout.now.elements second.now.layout.now.elements }
    requires lengths { Lengths window (length tray1.now) (length tray2.old) }
    ensures { let L = elements_of first.now.layout.now first.now.size in let M = elements_of second.now.layout.now second.now.size in
        tray2.new ≡ moved_where L M window.start.0 (bytes_of window) tray1.now chosen tray2.old }
{
    if window.end.0 <= window.start.0 {
        return;
    }
    if tables::fits_all(first, 2048) && tables::fits_all(second, 2048) {
        move_by_tables::<2048>(first, second, window, chosen, tray1, tray2);
    } else {
        move_by_tables::<65536>(first, second, window, chosen, tray1, tray2);
    }
}

// Moves every byte of the window from its place in the first tray to its place in the second. The layouts come by value, here and below, as 01 names them;
// `Pattern`, which lends one, is made here.
pub fn move_tray(
    layout1: Layout,
    size1: u32,
    layout2: Layout,
    size2: u32,
    window: Window,
    tray1: &[u8],
    tray2: &mut [u8],
)
    requires first { Starts layout1 size1 window }
    requires second { Starts layout2 size2 window }
    requires lengths { Lengths window (length tray1.now) (length tray2.old) }
    ensures { let L = elements_of layout1 size1 in let M = elements_of layout2 size2 in
        tray2.new ≡ moved L M window.start.0 (bytes_of window) tray1.now }
{
    let chosen = parts::every_pair(layout2.elements);
    let first = Pattern {
        layout: &layout1,
        size: size1,
    };
    let second = Pattern {
        layout: &layout2,
        size: size2,
    };
    move_chosen(&first, &second, window, chosen, tray1, tray2);
}

// Moves the bytes that element i of the first layout and element j of the second share. Every other place of the second tray stays.
pub fn move_pair(
    layout1: Layout,
    size1: u32,
    layout2: Layout,
    size2: u32,
    i: usize,
    j: usize,
    window: Window,
    tray1: &[u8],
    tray2: &mut [u8],
)
    requires first { Starts layout1 size1 window }
    requires second { Starts layout2 size2 window }
    requires element { i < layout1.elements }
    requires other { j < layout2.elements }
    requires lengths { Lengths window (length tray1.now) (length tray2.old) }
    ensures { let L = elements_of layout1 size1 in let M = elements_of layout2 size2 in
        tray2.new ≡ pair_moved L M window.start.0 (bytes_of window) tray1.now i j tray2.old }
{
    let chosen = parts::one_pair(i, j);
    let first = Pattern {
        layout: &layout1,
        size: size1,
    };
    let second = Pattern {
        layout: &layout2,
        size: size2,
    };
    move_chosen(&first, &second, window, chosen, tray1, tray2);
}

// Painting: which element owns each offset of a pattern, written into a lent table, one byte an offset.
ghost use Rattle.std.specs.Prelude.{◌≡◌, true, ◌-◌, ◌<◌, length, replicate};
ghost use Rattle.counting.specs.Gather.{tabulated};
ghost use Rattle.families.specs.Decoded.{selections, LayoutOk};
ghost use Rattle.families.specs.Owners.{mark, painted, owner};

use crate::Layout;

// What a place that holds v holds once the element with the number me has it too. 0 is nobody's and 255 is several's: an enum of three would take
// two bytes a place, and the tables are fixed memory.
pub(crate) fn marked(v: u8, me: u8) -> u8
    ensures { result ≡ mark me true v }
{
    if v == 0 || v == me { me } else { 255 }
}

// Paints every place.
pub(crate) fn paint_all(table: &mut [u8], me: u8)
    ensures { table.new ≡ painted (λ _. true) me table.old }
{
    for v in table.iter_mut() {
        *v = marked(*v, me);
    }
}

// Paints the owner of every offset that a table of zeros has room for.
pub fn owners(layout: Layout, levels: u32, table: &mut [u8])
    requires zeros { table.old ≡ replicate (length table.old) 0 }
    requires some { 0 < length table.old }
    requires ruled { LayoutOk levels (length table.old - 1) layout }
    ensures { table.new ≡ tabulated 0 (length table.old) (owner (selections levels layout)) }
{
    for e in 0..layout.elements {
        layout.siblings(e, levels).paint(table, e as u8 + 1);
    }
}

// Mapping: the selection of an element of a layout, and the place of a subfile's byte in a tray.
ghost use Rattle.std.specs.Prelude.{◌≡◌, ◌+◌, ◌-◌, ◌^◌, ◌≤◌, ◌<◌};
ghost use Rattle.families.specs.Decoded.{LayoutOk};
ghost use Rattle.maps.specs.Selected.{PatternOk, selection_of};

use crate::{Selection, Subfile};
use families::{Layout, SubfileOffset, TrayPlace};

// The place in a tray of byte y of a subfile. The subfile's part of the tray starts at `part`, with byte `first`: the window may start late.
pub fn tray_place(part: TrayPlace, first: SubfileOffset, y: SubfileOffset) -> TrayPlace
    requires { (first.0 ≤ y.0) × (part.0 + y.0 < 2 ^ 64) }
    ensures { result.0 ≡ part.0 + (y.0 - first.0) }
{
    TrayPlace(part.0 + (y.0 - first.0))
}

// What element `element` of a layout selects of the file, where the layout's pattern has `size` offsets. Layout and size are two parameters, here and below:
// an accepted sheet has them in a `Sheet`, a move in its `Pattern`.
pub fn selection_of(layout: &Layout, size: u32, element: usize) -> Selection
    requires ruled { LayoutOk 4 65535 layout.now }
    requires there { element < layout.now.elements }
    ensures { result ≡ selection_of layout.now size element }
{
    let chosen = layout.element[element];
    let selected = layout.siblings(element, 4).size() as u32;
    Selection {
        from: layout.displacement,
        period: size,
        levels: 4,
        first: chosen.first,
        tops: chosen.tops,
        size: selected,
    }
}

// The subfile of element `element` of a layout whose pattern is shared out.
pub fn subfile_of(layout: &Layout, size: u32, element: usize) -> Subfile<'_>
    requires shared { PatternOk layout.now size }
    requires there { element < layout.now.elements }
    ensures selection { result.selection ≡ selection_of layout.now size element }
    ensures families { result.families.now ≡ layout.now.family }
{
    Subfile {
        selection: selection_of(layout, size, element),
        families: &layout.family,
    }
}

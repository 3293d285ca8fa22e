// The listing of a sheet: its layout's line and a line for each element, or the one line of its refusal.
ghost use Rattle.std.specs.Prelude.{◌≡◌, ◌≤◌, ◌<◌, length, take};
ghost use Rattle.families.specs.Forest.{size_of, Sound};
ghost use Rattle.families.specs.Flat.{total};
ghost use Rattle.families.specs.Lent.{forest_of};
ghost use Rattle.sheets.specs.Sheet.{read_sheet};
ghost use Rattle.words.specs.Written.{HasRoom, Put};
ghost use Rattle.lines.specs.Listable.{Listable};
ghost use Rattle.lines.specs.Listing.{tree_line, element_lines, accepted_lines, listing, LONGEST_LISTING};

use crate::line;
use families::{Element, Layout, Siblings};
use sheets::Sheet;
use words::Text;

// Puts the line of an element, the e-th, whose families are lent.
fn put_tree(element: Element, e: usize, siblings: &Siblings, text: &mut Text<'_>)
    requires sound { Sound (forest_of siblings.now) }
    requires some { 0 < size_of (forest_of siblings.now) }
    requires spans { element.span ≡ total (forest_of siblings.now) }
    requires room { HasRoom 104 text.old }
    ensures { Put (tree_line e (forest_of siblings.now)) 104 text.old text.new }
{
    let size = siblings.size();
    let first = siblings.inverse(0);
    line::put_element(e, size, element.span, first, text);
}

// Puts the lines of all elements.
fn put_trees(layout: Layout, text: &mut Text<'_>)
    requires listable { Listable layout }
    requires room { HasRoom 1664 text.old }
    ensures { Put (element_lines layout layout.elements) 1664 text.old text.new }
{
    for e in 0..layout.elements {
        let siblings = layout.siblings(e, 4);
        put_tree(layout.element[e], e, &siblings, text);
    }
}

// Puts the lines of an accepted sheet.
fn put_accepted(sheet: Sheet, text: &mut Text<'_>)
    requires listable { Listable sheet.layout }
    requires room { HasRoom LONGEST_LISTING text.old }
    ensures { Put (accepted_lines sheet.size sheet.layout) LONGEST_LISTING text.old text.new }
{
    let layout = sheet.layout;
    line::put_layout(layout.displacement, sheet.size, layout.elements, text);
    put_trees(layout, text);
}

// Puts the listing of a sheet, accepted or refused.
fn put_sheet(sheet: &[u8], text: &mut Text<'_>)
    requires { HasRoom LONGEST_LISTING text.old }
    ensures { Put (listing (read_sheet sheet.now)) LONGEST_LISTING text.old text.new }
{
    match sheets::read(sheet) {
        Err(refused) => line::put_refusal(refused, text),
        Ok(accepted) => put_accepted(accepted, text),
    }
}

// Puts a sheet's listing at the front of the text, and answers how long it is.
pub fn put_listing(sheet: &[u8], text: &mut [u8]) -> usize
    requires { LONGEST_LISTING ≤ length text.old }
    ensures listed { take result text.new ≡ listing (read_sheet sheet.now) }
    ensures short { result ≤ LONGEST_LISTING }
    ensures kept { length text.new ≡ length text.old }
{
    let mut listed = Text::new(text);
    put_sheet(sheet, &mut listed);
    listed.len
}

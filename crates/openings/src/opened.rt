// Opening an element of a sheet, also for an offset, a window, or a window and two buffers. Each of these opens as the one before it does, and checks more.
// A sheet and an index come apart, as docs/CALLS.md has the calls.
ghost use Rattle.std.specs.Prelude.{◌≡◌, ◌-◌, ◌≤◌, ◌<◌};
ghost use Rattle.counting.specs.Count.{count_below};
ghost use Rattle.sheets.specs.Sheet.{read_sheet};
ghost use Rattle.maps.specs.Selected.{belongs, PatternOk};
ghost use Rattle.openings.specs.Offsets.{unless_element, unless_offset, unless_window};
ghost use Rattle.openings.specs.Buffers.{unless_buffers};
ghost use Rattle.openings.specs.Openings.{accepted_as, Chosen, Opens};

use crate::{Opening, Refusal, Which, ranges, reading};
use families::FileOffset;
use maps::Subfile;
use sheets::Sheet;

// What an element of an accepted sheet selects.
pub fn choose(sheet: Sheet, element: usize) -> Opening
    requires shared { PatternOk sheet.layout sheet.size }
    requires there { element < sheet.layout.elements }
    ensures { Chosen (accepted_as sheet) element result }
{
    let selection = maps::selection_of(&sheet.layout, sheet.size, element);
    Opening {
        layout: sheet.layout,
        selection,
    }
}

// Opens an element of a sheet.
pub fn open_element(sheet: &[u8], element: u64) -> Result<Opening, Refusal>
    ensures { let reading = read_sheet sheet.now in Opens (unless_element reading element) reading element result }
{
    let accepted = reading::read(Which::First, sheet)?;
    ranges::check_element(accepted.layout.elements as u64, element)?;
    Ok(choose(accepted, element as usize))
}

// Opens an element of a sheet for a file offset.
pub fn open_offset(sheet: &[u8], element: u64, x: FileOffset) -> Result<Opening, Refusal>
    ensures { let reading = read_sheet sheet.now in Opens (unless_offset reading element x.0) reading element result }
{
    let opening = open_element(sheet, element)?;
    ranges::check_offset(opening.selection.from, x)?;
    Ok(opening)
}

// Opens an element of a sheet for a window, from a up to but not including b.
pub fn open_window(
    sheet: &[u8],
    element: u64,
    a: FileOffset,
    b: FileOffset,
) -> Result<Opening, Refusal>
    ensures { let reading = read_sheet sheet.now in
        Opens (unless_window reading element a.0 b.0) reading element result }
{
    let opening = open_element(sheet, element)?;
    ranges::check_range(crate::LIMIT, opening.selection.from, a, b)?;
    Ok(opening)
}

// Opens an element for a window and two buffers, by their lengths: one of the window, and one of the element's bytes in it.
// It checks the window itself, and hands on what was opened as it is, inlined: an opening is 6 KB, and each Result that it is put into is cleared and copied.
#[inline(always)]
pub fn open_buffers(
    sheet: &[u8],
    element: u64,
    a: FileOffset,
    b: FileOffset,
    file: usize,
    packed: usize,
) -> Result<Opening, Refusal>
    ensures { let reading = read_sheet sheet.now in
        Opens (unless_buffers reading element a.0 b.0 file packed) reading element result }
{
    let opened = open_element(sheet, element);
    if let Ok(opening) = &opened {
        ranges::check_range(crate::LIMIT, opening.selection.from, a, b)?;
        let selected = opening.count(a, b);
        ranges::check_buffers(file as u64, b.0 - a.0, packed as u64, selected)?;
    }
    opened
}

impl Opening {
    // The element's subfile.
    pub fn subfile(&self) -> Subfile<'_>
        ensures selection { result.selection ≡ self.now.selection }
        ensures families { result.families.now ≡ self.now.layout.family }
    {
        Subfile {
            selection: self.selection,
            families: &self.layout.family,
        }
    }

    // How many bytes of a window are selected.
    pub fn count(&self, a: FileOffset, b: FileOffset) -> u64
        requires forward { a.0 ≤ b.0 }
        ensures { let p = belongs self.now.selection self.now.layout.family in result ≡ count_below p b.0 - count_below p a.0 }
    {
        self.subfile().count(a, b)
    }
}

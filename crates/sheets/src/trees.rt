// Trees: the families of an element, read in sheet order, each followed by its children, into a lent part of the layout's array.
ghost use Rattle.std.specs.Prelude.{◌≡◌, ◌*◌, ◌≤◌, length};
ghost use Rattle.sheets.specs.Sheet.{within, forest_from};
ghost use Rattle.sheets.specs.Steps.{Stepped, Written};

use crate::records;
use crate::records::Limits;
use crate::refusals::Refused;
use families::Family;

// What reading siblings gives: where the next record starts, and the first offset past them.
#[derive(Clone, Copy)]
pub struct Step {
    pub place: usize,
    pub end: u64,
}

// Reads `count` siblings, the first at `at`. It calls itself for those after the first: each has taken room for a family, so no more than 257 calls
// are open at once. A loop is no plainer: this is the definition, case by case, and needs no invariant.
#[cycle(read_family_read_siblings)]
pub fn read_siblings(
    sheet: &[u8],
    at: usize,
    count: u32,
    levels: u32,
    limits: Limits,
    families: &mut [Family],
) -> Result<Step, Refused>
    requires inside { at ≤ length sheet.now }
    requires few { count ≤ 65535 * levels }
    requires room { limits.room ≤ 256 }
    requires long { length families.old ≡ limits.room }
    ensures step { Stepped at limits.from (forest_from sheet.now levels limits count at) result }
    ensures written { Written (forest_from sheet.now levels limits count at) families.old families.new }
{
    if count == 0 {
        return Ok(Step {
            place: at,
            end: limits.from,
        });
    }
    let first = read_family(sheet, at, levels, limits, families)?;
    // a family record takes 22 bytes
    let span = (first.place - at) / 22;
    let others = Limits {
        bound: limits.bound,
        from: first.end,
        room: limits.room - span as u32,
    };
    read_siblings(
        sheet,
        first.place,
        count - 1,
        levels,
        others,
        &mut families[span..],
    )
}

// Reads one family with its descendants.
#[cycle(read_family_read_siblings)]
pub fn read_family(
    sheet: &[u8],
    at: usize,
    levels: u32,
    limits: Limits,
    families: &mut [Family],
) -> Result<Step, Refused>
    requires inside { at ≤ length sheet.now }
    requires some { 1 ≤ levels }
    requires room { limits.room ≤ 256 }
    requires long { length families.old ≡ limits.room }
    ensures step { Stepped at limits.from (forest_from sheet.now levels limits 1 at) result }
    ensures written { Written (forest_from sheet.now levels limits 1 at) families.old families.new }
{
    records::check_record(sheet, records::FAMILY, at, levels, limits)?;
    let mut f = records::family_record(sheet, at);
    let kids = read_siblings(
        sheet,
        at + 22,
        f.children,
        levels - 1,
        inner_limits(limits, f),
        &mut families[1..],
    )?;
    let span = (kids.place - at) / 22;
    f.span = span as u32;
    families[0] = f;
    Ok(Step {
        place: kids.place,
        end: records::last_byte(f) + 1,
    })
}

// The limits of a family's children.
pub fn inner_limits(limits: Limits, f: Family) -> Limits
    requires forward { f.l ≤ f.r }
    requires room { 1 ≤ limits.room }
    ensures { result ≡ within limits f }
{
    Limits {
        bound: f.r - f.l,
        from: 0,
        room: limits.room - 1,
    }
}

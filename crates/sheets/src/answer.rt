// The answer to a sheet: the reader itself, from its bytes to a layout or a refusal.
ghost use Rattle.std.specs.Prelude.{◌≡◌, ◌-◌, ◌≤◌};
ghost use Rattle.families.specs.Decoded.{LayoutOk};
ghost use Rattle.sheets.specs.Sheet.{read_sheet};
ghost use Rattle.sheets.specs.Answered.{reading_of};
ghost use Rattle.sheets.specs.Steps.{judged_layout};

use crate::refusals::Refused;
use crate::{Sheet, digits, elements, pattern};
use families::{Family, Layout};

// What unused room of a layout holds.
const NO_FAMILY: Family = Family {
    l: 0,
    r: 0,
    s: 0,
    n: 0,
    children: 0,
    span: 0,
};

/// Reads a sheet.
pub fn read(sheet: &[u8]) -> Result<Sheet, Refused>
    ensures { reading_of result ≡ read_sheet sheet.now }
{
    let mut family = [NO_FAMILY; 256];
    let all = elements::read_records(sheet, &mut family)?;
    let displacement = digits::le32_at(sheet, 4);
    let element = all.element;
    let layout = Layout {
        displacement,
        elements: all.elements,
        families: all.families as usize,
        element,
        family,
    };
    judge(layout, all.end as u32)
}

// Accepts a layout whose elements end at `end`, unless its pattern has a hole or an overlap.
#[tactic(auto, using(crate::proofs::Answers::judged_even, crate::proofs::Answers::judged_uneven))]
pub fn judge(layout: Layout, end: u32) -> Result<Sheet, Refused>
    requires least { 1 ≤ end }
    requires most { end ≤ 65536 }
    requires ok { LayoutOk 4 (end - 1) layout }
    ensures { reading_of result ≡ judged_layout layout }
{
    let size = pattern::pattern_size(layout);
    pattern::judge_pattern(layout, size, end)?;
    Ok(Sheet { layout, size })
}

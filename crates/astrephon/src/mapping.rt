// Mapping offsets between the file and the subfile of one element. Each is a call of its own, with theorems of its own.
ghost use Rattle.std.specs.Prelude.{◌≡◌};
ghost use Rattle.astrephon.specs.Says.{says, subfile_value, file_value, interval_values};
ghost use Rattle.astrephon.specs.Maps.{exact_call, next_call, inverse_call, span_call};

use crate::{FileOffset, Interval, Refusal, SubfileOffset};

// Exact mapping: the subfile offset of a file offset of the element.
#[tactic(auto, unfolding(crate::specs::Maps::exact_of))]
pub fn exact(sheet: &[u8], element: u64, x: FileOffset) -> Result<SubfileOffset, Refusal>
    ensures { says subfile_value result ≡ exact_call sheet.now element x.0 }
{
    let opening = openings::open_offset(sheet, element, x)?;
    let subfile = opening.subfile();
    if !subfile.has(x) {
        return Err(Refusal::Foreign);
    }
    Ok(subfile.rank(x))
}

// Next mapping: the rank of any file offset from the displacement on, which is the subfile offset of the element's next byte.
#[tactic(auto, unfolding(crate::specs::Maps::next_of))]
pub fn next(sheet: &[u8], element: u64, x: FileOffset) -> Result<SubfileOffset, Refusal>
    ensures { says subfile_value result ≡ next_call sheet.now element x.0 }
{
    let opening = openings::open_offset(sheet, element, x)?;
    Ok(opening.subfile().rank(x))
}

// Inverse mapping: the file offset of byte y of the element's subfile. Byte y has y bytes before it, so a y past the limit is told at once, and nothing wraps.
#[tactic(auto, unfolding(crate::specs::Maps::inverse_of))]
pub fn inverse(sheet: &[u8], element: u64, y: SubfileOffset) -> Result<FileOffset, Refusal>
    ensures { says file_value result ≡ inverse_call sheet.now element y.0 }
{
    let opening = openings::open_element(sheet, element)?;
    let byte = y.0;
    if crate::LIMIT <= byte {
        return Err(Refusal::Far);
    }
    let place = opening.subfile().byte(SubfileOffset(byte));
    if crate::LIMIT <= place.0 {
        return Err(Refusal::Far);
    }
    Ok(place)
}

// The span of an interval, both ends a and z meant: the subfile offsets from the rank of a to the rank of z, both included.
#[tactic(auto, unfolding(crate::specs::Maps::span_of))]
pub fn span(sheet: &[u8], element: u64, a: FileOffset, z: FileOffset) -> Result<Interval, Refusal>
    ensures { says interval_values result ≡ span_call sheet.now element a.0 z.0 }
{
    let opening = openings::open_element(sheet, element)?;
    openings::check_range(crate::LAST, opening.selection.from, a, z)?;
    let subfile = opening.subfile();
    let first = subfile.rank(a);
    let last = subfile.rank(z);
    Ok(Interval { first, last })
}

// Elements: the records of a sheet from its header to its last byte.
ghost use Rattle.std.specs.Prelude.{◌≡◌, ◌+◌, ◌-◌, ◌≤◌, ◌<◌, length};
ghost use Rattle.sheets.specs.Sheet.{top, elements_from, elements_of};
ghost use Rattle.sheets.specs.Steps.{Progressed, WrittenAll, with_element, start};

use crate::records::Limits;
use crate::refusals::{Fault, Refused};
use crate::trees::Step;
use crate::{digits, records, trees};
use families::{Element, Family};

// How far a sheet was read: where the next record starts, the first offset past all families, how many elements and families there are, and the
// elements: an array with its count, as the layout has it, the form that 01 names.
#[derive(Clone, Copy)]
pub struct Progress {
    pub place: usize,
    pub end: u64,
    pub elements: usize,
    pub families: u32,
    pub element: [Element; 16],
}

// Reads the header and all elements; no byte may follow them.
pub fn read_records(sheet: &[u8], families: &mut [Family]) -> Result<Progress, Refused>
    requires { length families.old ≡ 256 }
    ensures progress { Progressed (elements_of sheet.now) start result }
    ensures written { WrittenAll (elements_of sheet.now) families.old families.new }
{
    records::check_record(sheet, records::HEADER, 0, 4, top_limits(256))?;
    let count = digits::le16_at(sheet, 8);
    let all = read_elements(sheet, count, at_the_start(), families)?;
    if all.place < sheet.len() {
        return Err(Refused {
            fault: Fault::Trailing,
            place: all.place as u64,
        });
    }
    Ok(all)
}

// Reads `count` elements more. It calls itself for those after the first, so no more than 17 calls are open at once. A loop is no plainer:
// this is the definition, case by case, and needs no invariant.
pub fn read_elements(
    sheet: &[u8],
    count: u32,
    done: Progress,
    families: &mut [Family],
) -> Result<Progress, Refused>
    requires inside { done.place ≤ length sheet.now }
    requires elements { done.elements + count ≤ 16 }
    requires families { done.families ≤ 256 }
    requires long { length families.old ≡ 256 - done.families }
    ensures progress { Progressed (elements_from sheet.now (256 - done.families) count done.place) done result }
    ensures written { WrittenAll (elements_from sheet.now (256 - done.families) count done.place) families.old families.new }
{
    if count == 0 {
        return Ok(done);
    }
    let at = done.place;
    let limits = top_limits(256 - done.families);
    records::check_record(sheet, records::ELEMENT, at, 4, limits)?;
    let tops = digits::le16_at(sheet, at + 4);
    let step = trees::read_siblings(sheet, at + 6, tops, 4, limits, families)?;
    // an element record takes 6 bytes, a family record 22
    let span = (step.place - at - 6) / 22;
    read_elements(
        sheet,
        count - 1,
        add_element(done, tops, span as u32, step),
        &mut families[span..],
    )
}

// One element more, with its count of top families and of families of all levels.
pub fn add_element(done: Progress, tops: u32, span: u32, step: Step) -> Progress
    requires elements { done.elements < 16 }
    requires families { done.families + span ≤ 256 }
    ensures { result ≡ with_element done tops span step }
{
    let e = done.elements;
    let mut next = done;
    next.element[e] = Element {
        first: done.families as usize,
        tops,
        span,
    };
    next.elements = e + 1;
    next.families = done.families + span;
    next.place = step.place;
    next.end = done.end.max(step.end);
    next
}

// Behind the header, with nothing read.
#[tactic(auto, unfolding(crate::specs::Steps::start))]
pub fn at_the_start() -> Progress
    ensures { result ≡ start }
{
    let none = Element {
        first: 0,
        tops: 0,
        span: 0,
    };
    Progress {
        place: 10,
        end: 0,
        elements: 0,
        families: 0,
        element: [none; 16],
    }
}

// The limits of an element's top families.
pub fn top_limits(room: u32) -> Limits
    ensures { result ≡ top room }
{
    Limits {
        bound: 65535,
        from: 0,
        room,
    }
}

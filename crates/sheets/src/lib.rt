// Sheets: the reader of layout sheets. It answers every list of bytes with the layout that they are the sheet of, or with 01's refusal.
//
// `refusals` names the faults, `digits` reads numbers, `records` finds a record's first fault, `trees` reads families and `elements` all records, in
// sheet order; `pattern` looks for holes and overlaps; `answer` has the reader itself.
#![tactic(auto)]

use families::Layout;

mod answer;
mod digits;
mod elements;
mod pattern;
mod records;
mod refusals;
mod trees;

pub use answer::read;
pub use digits::le32_at;
pub use refusals::{Fault, Refused};

/// An accepted sheet: its layout, and how many offsets its pattern has.
#[derive(Clone, Copy)]
pub struct Sheet {
    pub layout: Layout,
    pub size: u32,
}

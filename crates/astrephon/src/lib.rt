// Astrephon: THE CALLS. Each takes every input, and does its work or gives one refusal of 01's table; none asks anything of its caller.
//
// `checking` answers for one sheet, `mapping` maps offsets between the file and one element's subfile, `sharing` lists what two elements share,
// `carrying` moves one element's bytes and `moving` bytes between trays, `listing` writes a sheet's listing. How each begins is in the crate `openings`.
#![tactic(auto)]

mod carrying;
mod checking;
mod listing;
mod mapping;
mod moving;
mod sharing;

pub use carrying::{gather, packed_len, scatter};
pub use checking::check;
pub use families::{FileOffset, SubfileOffset, TrayPlace};
pub use lines::LONGEST_LISTING;
pub use listing::list_sheet;
pub use mapping::{exact, inverse, next, span};
pub use moving::{move_pair, move_tray};
pub use openings::{LAST, LIMIT, Refusal, Which};
pub use sharing::shared_runs;
pub use sheets::{Fault, Refused};

// What is known of an accepted sheet: the displacement, the pattern's size, and how many elements share it.
#[derive(Clone, Copy, Debug, PartialEq, Eq)]
pub struct Facts {
    pub displacement: u32,
    pub size: u32,
    pub elements: u32,
}

// An interval of a subfile: its first and its last offset, both included.
#[derive(Clone, Copy, Debug, PartialEq, Eq)]
pub struct Interval {
    pub first: SubfileOffset,
    pub last: SubfileOffset,
}

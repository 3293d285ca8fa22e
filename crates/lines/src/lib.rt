// Lines: the listing of a sheet, as 01 prints it.
//
// `line` puts one line into a text, `listing` all lines of a sheet.
#![tactic(auto)]

mod line;
mod listing;

pub use listing::put_listing;

// No listing is longer: a line for the layout and 16 for elements, with 20 digits for every number.
pub const LONGEST_LISTING: usize = 1761;

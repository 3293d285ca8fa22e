// Openings: how the calls begin. A sheet is read, an element or two sheets are opened, and indexes, offsets, windows and the lengths of buffers are checked:
// what is opened, or the first refusal in 01's order.
//
// `refusals` has the numbers that a refusal tells; `reading` reads a sheet; `opened` opens an element, `paired` one of each of two sheets, or both sheets;
// `ranges` checks an index, an offset, a window or a length.
#![tactic(auto)]

ghost use Rattle.maps.specs.Selected.{SelectionOk};
ghost use Rattle.maps.specs.Facts.{selection_prop};

use families::Layout;
use maps::Selection;
use sheets::{Refused, Sheet};

mod opened;
mod paired;
mod ranges;
mod reading;
mod refusals;

pub use opened::{open_buffers, open_element, open_offset, open_window};
pub use paired::{open_pair, open_sheets};
pub use ranges::{
    check_buffers, check_element, check_offset, check_pair, check_range, check_trays,
};
pub use reading::read;

// File offsets are below the limit. A window may end there; an offset is the last one at most.
pub const LIMIT: u64 = 1 << 40;

pub const LAST: u64 = LIMIT - 1;

// Which of a call's sheets is at fault. A call on one sheet has the first alone.
#[derive(Clone, Copy, Debug, PartialEq, Eq)]
pub enum Which {
    First,
    Second,
}

// Why a call is refused: by 01's table a sheet, or what else it was given. `Room` tells how many runs there are.
#[derive(Clone, Copy, Debug, PartialEq, Eq)]
pub enum Refusal {
    Sheet(Which, Refused),
    Element,
    Before,
    Far,
    Window,
    Foreign,
    Buffer,
    Room(u64),
}

// What an element selects of the file: its selection, of the families of its sheet's layout. It owns the layout, of which a `Subfile` lends the families.
#[derive(Clone, Copy)]
pub struct Opening {
    pub layout: Layout,
    pub selection: Selection,
    pub ghost ok: { SelectionOk selection layout.family } by { selection_prop _ _ },
}

// What an element of each of two sheets selects.
#[derive(Clone, Copy)]
pub struct Pair {
    pub one: Opening,
    pub two: Opening,
}

// Two sheets, both accepted. No plainer as one generic type with `Pair`: the methods are of sheets alone.
#[derive(Clone, Copy)]
pub struct Sheets {
    pub one: Sheet,
    pub two: Sheet,
}

// Two sheets that are not both accepted, by the first that is refused, with what the other was read as. No struct of two answers: it would be twice as
// large, and a `?` on it clears as much, also where both are accepted.
#[derive(Clone, Copy)]
pub enum RefusedSheets {
    First {
        refused: Refused,
        two: Result<Sheet, Refused>,
    },
    Second {
        one: Sheet,
        refused: Refused,
    },
}

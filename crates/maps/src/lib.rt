// Maps: offsets between the file, the subfile of one selection of it, and a tray. It knows nothing of refusals: what it asks, an accepted sheet gives.
//
// `subfile` says whether a selection has a file offset, what rank it has, which file offset has a rank, and how many bytes a window has; `mapping` makes
// selections and subfiles, and says where a byte of a subfile stands in a tray; `window` is a window of the file.
#![tactic(auto)]

mod mapping;
mod subfile;
mod window;

pub use mapping::{selection_of, subfile_of, tray_place};
pub use subfile::Subfile;
pub use window::Window;

// A periodic selection: from `from` on, again every `period`, what the `tops` families at index `first` of a list select, `levels` levels deep at
// most; `size` offsets of every period.
#[derive(Clone, Copy, Debug, PartialEq, Eq)]
pub struct Selection {
    pub from: u32,
    pub period: u32,
    pub levels: u32,
    pub first: usize,
    pub tops: u32,
    pub size: u32,
}

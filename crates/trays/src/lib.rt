// Trays: bytes moved from a tray of one layout to a tray of another. It knows nothing of refusals: what it asks, two accepted sheets give.
//
// `moving` moves all, or what one pair of elements shares, between two layouts whose `pattern` is shared out: by the `tables` of each layout and the
// `shares` of its elements, `filling` has each chosen part of the second tray filled from the first.
#![tactic(auto)]

mod filling;
mod moving;
mod pattern;
mod shares;
mod tables;

pub use moving::{move_pair, move_tray};

// Runs: the maximal runs of file offsets of a window that two periodic selections share. It knows nothing of refusals: what it asks, an
// accepted sheet gives.
//
// `tables` marks one period of a selection in a table, `walks` is a step with one table, `track` goes over two of them offset by offset, and `listing`
// writes the runs down.
#![tactic(auto)]

mod listing;
mod tables;
mod track;
mod walks;

pub use listing::list_shared;
pub use tables::{fill, fits};

// Parts: an element's part of a tray, filled piece by piece from a tray of another layout. It knows nothing of refusals: what it asks, tables of both
// layouts give.
//
// `pieces` finds what of a run stands in one place of the first tray, by the `shares` of its elements, and `filling` copies it to the part; `choices` are
// what of the parts is moved.
#![tactic(auto)]

mod choices;
mod filling;
mod pieces;
mod shares;

pub use choices::{Chosen, every_pair, one_pair};
pub use filling::fill_part;
pub use pieces::{Cycle, Sources};
pub use shares::{NO_SHARE, Share};

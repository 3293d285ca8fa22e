// Moves: the bytes of one periodic selection between a window of the file and a packed buffer, and how to walk over its runs. It knows nothing of
// refusals: what it asks, an accepted sheet gives.
//
// `ahead` looks from every place of a period to its owner's next run, a `track` is a subfile with this table, `walks` goes on it from run to run, and
// `gathering` and `scattering` copy the runs of one selection.
#![tactic(auto)]

mod ahead;
mod gathering;
mod scattering;
mod track;
mod walks;

pub use ahead::{NO_STRIDE, Stride, fill_strides};
pub use gathering::gather;
pub use scattering::scatter;
pub use track::Track;
pub use walks::{Walk, begin, further, run_here};

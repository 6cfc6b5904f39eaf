//! A file that is made in the place that was found for it, below a level more of the index of its
//! directory, in a plan while that is made.
//!
//! The contract: what is put are the blocks that the level and the directory's nodes with the name
//! of the file take, with the level, as a step counts them; the times of the directory; and the
//! file with nodes that are planned behind these. It is refused where the directory's record would
//! be too full by that count, and where the index has sixteen levels, and what the draft has put is
//! as it was then; and where the index isn't quiet, which no clause says more of. The layouts are
//! those of the Linux-NTFS documentation, "FILE Record", "$INDEX_ROOT", "Index Record" and
//! "$Bitmap".
#![tactic(auto)]

mod behind;
mod fault;
mod height;
mod level;
mod making;
mod planning;
mod raising;

pub use fault::RaiseFault;
pub use making::raise_in_place;
pub use place_makes::{Draft, FileRec, FreeBits, NewFile, View, VolumeStreams};

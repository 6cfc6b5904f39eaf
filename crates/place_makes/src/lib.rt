//! A file that is made in the place that was found for it, in a plan while that is made.
//!
//! The contract: what is put are the blocks that a plan of the directory's nodes with the name of the
//! file takes, as a step counts them, the times of the directory, and the file with these nodes. It
//! is refused where the directory's record would be too full by that count, and what the draft has
//! put is as it was then; and where the index isn't quiet or has to grow in another way, which no
//! clause says more of. The layouts are those of the Linux-NTFS documentation, "FILE Record",
//! "$INDEX_ROOT", "Index Record" and "$Bitmap".
#![tactic(auto)]

mod fault;
mod making;
mod planning;
mod roots;
mod steady;
mod times;
mod vcns;

pub use fault::PlaceFault;
pub use file_makes::{Draft, FileRec, NewFile, View, VolumeStreams};
pub use found_places::{places_are_there, places_take_steps};
pub use index_grows::{FreeBits, count, index_blocks, may_count, may_grow_blocks};
pub use made_trees::{found_is_there, makings_are_steps, new_file_reads, times_are_set};
pub use making::{make_in_place, put_made, with_used};
pub use planning::planned;
pub use steady::is_quiet;
pub use times::put_times;
pub use vcns::vcns_from;

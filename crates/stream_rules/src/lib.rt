//! What the streams of a volume's files keep: each has every VCN, lies in the volume and has lawful
//! sizes; those of the volume itself and of indexes have no sparse run and no torn block; the
//! bitmaps are long enough; and who owns their clusters: the least cluster that lies in two runs or
//! twice in one stream, and the least that a run has though the bitmap says that it is free.
//!
//! The contract: the answers are those of the definitions over a view's content, exactly: the least
//! number at which a rule is broken, or None where it is kept; runs may be any, also such as end past
//! the volume. The layouts are those of the Linux-NTFS documentation, "Attribute Header", "$MFT",
//! "$Bitmap", "$INDEX_ALLOCATION" and "Data runs".
#![tactic(auto)]

mod fault;
mod fitting;
mod gathering;
mod joins;
mod kept;
mod marking;
mod places;
mod sharing;
mod streams;
mod torn;
mod volume;
mod whole;

pub use bit_set::BitSet;
pub use block_view::{Body, View};
pub use fault::SizesFault;
pub use file_record::FileRec;
pub use gathering::volume_runs;
pub use host_base::Memory;
pub use marking::first_unmarked;
pub use sharing::first_shared;
pub use state_model::{Run, Runs};
pub use stream_map::block_at;
pub use streams::keeps_streams;
pub use volume::first_broken;

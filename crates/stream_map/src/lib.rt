//! The streams of a file record: where their blocks lie, and their bytes; and the entries of an
//! attribute list, one after the other, wherever its bytes stand.
//!
//! A stream is the join of its attributes by rising first VCN; a block of it lies in the first run
//! that holds all its clusters; its bytes are those of its value or of its clusters, and zeros from
//! the initialised size on, in sparse runs and where no run is.
//!
//! The layouts are those of the Linux-NTFS documentation, "Attribute Header", "Data runs" and
//! "$ATTRIBUTE_LIST".
#![tactic(auto)]

mod attributes;
mod filling;
mod list_cursor;
mod list_front;
mod list_step;
mod places;
mod stream;

pub use attributes::{attributes_of, first_vcn, is_attribute_of};
pub use block_view::{Block, BlockKind, Body, Change, Overlay, View, ViewFault};
pub use disk_model::u16_at;
pub use filling::{fill, front};
pub use list_cursor::next_entry;
pub use list_front::{FRONT_BYTES, FirstEntry, first_entry};
pub use list_step::Step;
pub use mapping_pairs::{read, write};
pub use places::{block_at, has_cut_block, is_hole};
pub use record_model::{ListEntry, Run, Runs};
pub use state_model::{ClusterSize, Extents, Memory, Stream, is_same_link};
pub use stream::{no_extents, push_runs, real_size, runs_or, stream_of};

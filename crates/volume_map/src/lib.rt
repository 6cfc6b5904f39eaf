//! The files of a volume by its file table, each with the attributes that its list names, with the
//! heads of all records and the bits of the bitmaps; or what refuses them.
//!
//! The contract: `load` answers the files that a view's content stands for, or the first refusal
//! that applies, and `load_volume` the heads and the bits beside them. The layouts are those of the
//! Linux-NTFS documentation, "$MFT", "FILE Record", "$ATTRIBUTE_LIST" and "$Bitmap". The calls
//! beside these, on one record or one table, are those that a pass over the same table makes which
//! keeps less, and those that ask a volume's heads and bits for records.
#![tactic(auto)]

mod bits;
mod extras;
mod fault;
mod flags;
mod head;
mod holding;
mod joining;
mod judging;
mod list_read;
mod lists;
mod loading;
mod map;
mod mapping;
mod record;
mod slot;
mod spare;
mod streams;
mod table;
mod walk;

pub use fault::MapFault;
pub use file_record::{FileRec, FixedValue, file_at, is_base_record, reference};
pub use flags::stream_flags;
pub use head::Head;
pub use judging::{cuts_index, or_rule};
pub use loading::{files_in, load};
pub use map::VolumeMap;
pub use mapping::load_volume;
pub use record::{pairs_fit, whole_record};
pub use record_model::{
    ATTRIBUTE_LIST, Attr, BITMAP_TYPE, DATA, JournalMax, OBJECT_ID, OwnForm, REPARSE_POINT, Run,
    VOLUME_INFORMATION, VolumeInfo,
};
pub use slot::{Slot, is_used};
pub use spare::{first_unmarked, spare_numbers};
pub use state_model::{ClusterSize, Extents, Geometry, Link, MapRefusal, Stream};
pub use stream_map::{
    Overlay, View, ViewFault, attributes_of, block_at, fill, first_vcn, front, has_cut_block,
    is_hole, real_size, stream_of,
};
pub use streams::{file_stream, stream_or_empty};
pub use table::{boot_block, boot_record, has_type, table_of};
pub use volume_model::Upcase;
pub use walk::{Found, table_found};

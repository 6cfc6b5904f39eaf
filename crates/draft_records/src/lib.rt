//! File records of a plan while it is made: read as they are now, and written into their blocks and
//! those of the mirror.
#![tactic(auto)]

mod fault;
mod laws;
mod putting;
mod reading;
mod records;

pub use fault::DraftFault;
pub use laws::{reads_the_table, spelled_fits_but_room, spelled_fits_by_room};
pub use plan_draft::{Draft, View, ViewFault};
pub use putting::put_file;
pub use reading::{data_extents, file, is_past};
pub use record_model::{Attr, DATA, OwnForm, Runs};
pub use records::{record_of, written_body, written_file};
pub use resized_streams::{
    FileRec, FreeBits, Resized, RoomFault, SpaceFault, block_at, cut, grow, sized, stream_of,
};
pub use state_model::{ClusterSize, Extents, Stream};

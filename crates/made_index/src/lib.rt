//! The record of a directory whose names all stand in the root of its index, with blocks and their
//! bitmap, both without bytes, as it is written; and what comes of a directory's index that gets more
//! blocks, whether it has some or none.
//!
//! The contract: what a step says of the directory is what it says of that record. The layouts are
//! those of the Linux-NTFS documentation, "FILE Record", "Attribute Header", "$INDEX_ALLOCATION" and
//! "$BITMAP".
#![tactic(auto)]

mod growing;
mod laws;
mod making;

pub use directory_growth::{BitsChange, DataFault, FreeBits, IndexChange};
pub use file_record::FileRec;
pub use growing::index_after_any;
pub use laws::{any_index_has_room, index_is_counted};
pub use making::{has_bits, has_blocks, make_index, with_empty_index};
pub use state_model::ClusterSize;

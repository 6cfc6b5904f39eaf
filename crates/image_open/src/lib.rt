//! Opens a volume on a device: its boot sector, its log, the recovered view, or the first refusal.
//!
//! The contract: `open_volume` answers where the file table lies, how many clusters there are, and
//! the blocks that recovery by the log makes and shadows, or the refusal of the definition.
//! `with_volume` is the ladder that all readings of an image climb: a device that has sectors, a
//! view of them, the opened volume, and a view of its recovered content, which it hands to what is
//! to be read; it answers what is meant of that content, or the first refusal, and the device is
//! only read, so that what a crash may leave stays too. `with_view` and `in_volume` are its two
//! halves, for a reading that has something to test between them. `clusters_in` refuses a volume
//! whose clusters haven't eight sectors, which a mount asks before all else; `open_to_write` opens
//! one for a mount that writes, and answers where its log lies, what recovery finds by it, and
//! which of these blocks the mount writes out. The layouts are those of the Linux-NTFS
//! documentation, "$Boot", "$LogFile" and "$MFT".
#![tactic(auto)]

mod boot;
mod clusters;
mod log;
mod opening;
mod place;
mod reader;
mod refusal;
mod volume;
mod writing;

pub use clusters::clusters_in;
pub use log_recovery::{DeviceView, Extent, LogPlace, PIECE_BYTES, piece_room};
pub use opening::{Opening, open_volume};
pub use reader::{ViewReader, VolumeReader};
pub use refusal::{MountFault, Refusal};
pub use state_model::{ClusterSize, Extents, Geometry};
pub use volume::{in_volume, with_view, with_volume};
pub use volume_map::{VolumeMap, boot_block, file_stream, has_type, load_volume};
pub use writing::{OpeningToWrite, open_to_write};

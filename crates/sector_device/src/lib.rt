//! A device: a list of 512-byte sectors that is read, written and synced, in memory and over a
//! file.
//!
//! The contract of a device: a read gives the sectors that stand there; a write that answers `Ok`
//! puts its sectors, and one that fails puts any of them and nothing else; a sync leaves what
//! reads give. Each call begins a moment and its return another, and a call fails only where the
//! device's count of faults rose or its last moment has come.
//!
//! A device tells besides, as data, what a crash may leave, now and since any moment: of each sector
//! by itself the durable value, or one written since the last sync that succeeded. The device in
//! memory keeps its calls, and makes out of them the images that a crash may leave.
#![tactic(auto)]

mod choosing;
mod device;
mod file;
mod laws;
mod memory;

pub use device::{Device, LAST_MOMENT, SECTOR_BYTES};
pub use file::FileDevice;
pub use laws::{
    image_is_disk, none_is_forgotten, one_call_more, present_is_now, raw_of_sectors,
    sectors_of_written, seen_is_left, settled_is_one, settled_is_seen, torn_is_inside,
    written_or_before,
};
pub use memory::{KeptCall, MemoryDevice};

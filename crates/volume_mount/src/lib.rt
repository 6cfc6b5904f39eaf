//! A volume on a device that is mounted: opened as a mount that writes opens it, loaded, tried by the
//! rules of a volume, and then asked by the operations of a script that only look.
//!
//! The contract: `mount` answers the volume of the definition, or the first refusal that applies, and
//! the device is only read. A `MountedTree` replies to each operation what the tree says that the
//! recovered content of the device stands for, without going over the volume; a reply `fault` comes
//! only where the device failed in that call, and no other reply passes over a failure. The layouts
//! are those of the Linux-NTFS documentation, "$Boot", "$LogFile", "$MFT", "$INDEX_ROOT" and
//! "$UsnJrnl".
#![tactic(auto)]

mod asking;
mod boot;
mod holding;
mod journal;
mod laws;
mod lent;
mod loading;
mod mounted;
mod mounting;
mod pages;

pub use asking::MountedTree;
pub use image_read::{
    MountFault, OpeningToWrite, ReadJournal, Refusal, VolumeMap, boot_block, check_image,
    file_stream, has_type, open_to_write, read_journal, scan_image,
};
pub use laws::boot_is_tried;
pub use mounted::Mounted;
pub use mounting::mount;
pub use volume_lookup::{Names, VolumeTree};
pub use volume_shadows::owned_once;

//! What is read of an image: its long names, its tree, and the records of its change journal, or
//! the first refusal of the image.
//!
//! The contract: `scan_image` answers the long names of the files that the device's content stands
//! for; `check_image` answers the tree of the definition, without the bytes of its files and the
//! records of its journal; `read_journal` answers these records, and where they begin and end. Each
//! answers the first refusal of its definition else, and the device is only read, so that what a
//! crash may leave stays too. All open the volume alike (`with_volume`). A check and a journal then
//! judge its version; a journal has its streams in shape; and both have the nine rules hold under
//! which a volume stands for a tree. That the answered tree is the one that the image stands for is
//! a law, as a function with no body. The steps that other commands take too, `volume_on`,
//! `check_version` and `tree_on`, have their definitions. The layouts are those of the Linux-NTFS
//! documentation, "$Boot", "$LogFile", "$MFT", "$VOLUME_INFORMATION", "$FILE_NAME", "$INDEX_ROOT",
//! "Data runs", "$Bitmap" and "$UsnJrnl", and of Microsoft's reference, "USN_RECORD_V2".
#![tactic(auto)]

mod checking;
mod laws;
mod loading;
mod reading;
mod records;
mod scanning;

pub use checking::{check_image, check_version, tree_on, volume_on};
pub use image_open::{
    DeviceView, Extent, LogPlace, MountFault, OpeningToWrite, PIECE_BYTES, Refusal, VolumeMap,
    boot_block, file_stream, has_type, open_to_write, piece_room,
};
pub use laws::check_of_image;
pub use reading::{ReadJournal, read_journal};
pub use scanning::scan_image;
pub use volume_check::upper_table;

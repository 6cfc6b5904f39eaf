//! The start of a volume that takes changes: it is mounted, all that operations need of it is kept
//! in memory, and a store is mounted where it lies.
//!
//! The contract: on a disk that is known the store shows the state that was mounted, and the volume
//! rests over it with the map, the names, the table of upper-case units and the streams from which
//! operations are planned; whatever was unsynced before is synced first. A refusal is the mount's.
//! An image that a crash leaves inside the start could be left before, or mounts as the same tree,
//! where the volume's log is sound. The layouts are those of the Linux-NTFS documentation,
//! "$LogFile" and "$Bitmap".
#![tactic(auto)]

mod fault;
mod fitting;
mod plan;
mod starting;
mod streams;

pub use fault::StartFault;
pub use mounted_states::Refusal;
pub use starting::{Started, start};

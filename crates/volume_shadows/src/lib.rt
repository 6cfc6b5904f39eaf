//! The live blocks of a volume that the updates of a log shadow.
//!
//! A block is live where it is one of a stream's kind in that stream's clusters, and isn't wholly
//! past the stream's initialised size: a file record in the unnamed data of `$MFT` and `$MFTMirr`,
//! an index block in an index allocation, and a sector elsewhere. The contract: `least_live` answers
//! the least LSN that is said of a live block, exactly; and laws say
//! that the definition's list has exactly the live blocks. The layouts are those of the Linux-NTFS
//! documentation, "Attribute Header" and "Data runs".
#![tactic(auto)]

mod finding;
mod laws;
mod numbers;
mod searching;

pub use file_record::{FileRec, file_at};
pub use finding::least_live;
pub use laws::{least_is_said, live_by_list};
pub use log_recovery::{Places, RecoveredView, Shadow, places_of};
pub use stream_laws::owned_once;
pub use stream_map::{is_attribute_of, stream_of};

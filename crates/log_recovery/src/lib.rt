//! Recovery of a disk by the entries of its log.
//!
//! Of a block with an update, all updates are undone backwards, and then those of ended
//! transactions are redone forwards. A block is shadowed where an update of a rival, another kind
//! of block that shares a sector with it, stands after its own last ended update, or anywhere where
//! it has none: such a block stays as it is. It may have no update of its own; which blocks are
//! shadowed is told of all that an entry may update: sectors, file records that begin in an even
//! sector, and index blocks that begin in the first of eight.
#![tactic(auto)]

mod barring;
mod covering;
mod ended;
mod found;
mod groups;
mod judging;
mod making;
mod own;
mod places;
mod recovering;
mod shadowing;
mod updates;
mod view;
mod walks;
mod whole;
mod writing;

pub use device_view::{DeviceView, PIECE_BYTES, piece_room};
pub use found::{RecoveredBlock, RecoveredBlocks, RecoveredBody, Shadow};
pub use log_reading::{Extent, LogPlace, LogRefusal, LogRuns, RecoveryFault};
pub use places::{Places, places_of};
pub use recovering::recover_entries;
pub use view::RecoveredView;
pub use whole::{Recovered, is_lap, recover, recover_view};
pub use writing::{ToWrite, recover_to_write};

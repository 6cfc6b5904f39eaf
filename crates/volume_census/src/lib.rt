//! A loaded volume that is asked, beside its nodes, names and bytes, for what a change of it needs:
//! free clusters and records, the least spare number, and what is of the volume itself.
//!
//! The contract: where a view's content is that of a volume that breaks no rule, each call answers
//! of the tree that it stands for; no call goes over the volume. The layouts are those of the
//! Linux-NTFS documentation, "FILE Record", "$Bitmap" and "$FILE_NAME".
#![tactic(auto)]

mod lent;
mod spare;
mod system;
mod volume;

pub use block_view::View;
pub use change_lookup::{Census, Lookup, LookupFault};
pub use lent::LentView;
pub use upcase_order::Upcase;
pub use volume::VolumeCensus;
pub use volume_lookup::{NamedVolume, Names};

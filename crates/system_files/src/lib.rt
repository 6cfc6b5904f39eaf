//! The table of upper-case units and the version of a volume.
//!
//! The contract: each call answers what the definition gives for the view's content. The layouts
//! are those of the Linux-NTFS documentation, "$UpCase" and "$VOLUME_INFORMATION".
#![tactic(auto)]

mod upper;
mod version;

pub use upper::upper_table;
pub use version::volume_info;

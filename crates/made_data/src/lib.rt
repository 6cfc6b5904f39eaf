//! The record of a file that has no unnamed data, with data without bytes, as it is written; and
//! records that get any attribute, in its place there and with a new id.
//!
//! The contract: what a step says of the file is what it says of that record, and a call that writes
//! or cuts a file may be given it. The layouts are those of the Linux-NTFS documentation, "FILE
//! Record", "Attribute Header" and "$DATA".
#![tactic(auto)]

mod laws;
mod making;
mod putting;

pub use data_plan::FileRec;
pub use laws::made_is_counted;
pub use making::{has_data, make_data};
pub use putting::{with_attr, written};

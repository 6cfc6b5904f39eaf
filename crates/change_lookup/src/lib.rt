//! What refuses an operation that makes, writes or cuts a file, and what it is done to, by
//! questions to a tree that may fail.
//!
//! The contract: under a known tree, `change_found` answers the first row that refuses the
//! operation, exactly where there is one, else the file or the place that it finds; it asks as
//! often as the path is long, and never goes over the tree. Failures come by their causes. Names
//! are those of the Linux-NTFS documentation, "$FILE_NAME".
#![tactic(auto)]

mod census;
mod counting;
mod files;
mod finding;
mod found;
mod places;
mod plain;

pub use census::Census;
pub use finding::change_found;
pub use found::Found;
pub use tree_lookup::{Lookup, LookupFault, Plain};

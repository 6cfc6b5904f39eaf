//! The serial file tree: its types, the order of names, and how a name is found.
//!
//! The contract: each call is a function of its arguments that its definition names; two names are
//! compared by a table of upper-case units. Names, namespaces and file references are those of the
//! Linux-NTFS documentation, "$FILE_NAME" and "File reference"; records of changes are those of
//! Microsoft's reference, "USN_RECORD_V2".
#![tactic(auto)]

mod choosing;
mod journal;
mod link;
mod node;
mod ordering;
mod tree;

pub use choosing::{chosen, chosen_link, sort_links};
pub use journal::{Journal, Usn, UsnList};
pub use link::{FileRefList, Link, LinkList, SHORT, WIN32};
pub use node::{Kind, Node, NodeList, Why};
pub use ordering::{compare_names, is_same_name};
pub use tree::{FIRST_USER_RECORD, ROOT, Tree};
pub use utf16_name::{Bytes, FileRef, Memory, Name, NameFault, Units, check};

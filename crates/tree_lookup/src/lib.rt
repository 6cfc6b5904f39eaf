//! A file tree that is asked by calls that may fail, and what an operation that only looks is
//! answered by them.
//!
//! The contract: each call answers of the tree, where it is known, or fails by a cause; a failure
//! of what is behind the tree is counted, and no other answer counts one. What `answer` replies is a
//! step of the tree. Names and namespaces are those of the Linux-NTFS documentation, "$FILE_NAME".
#![tactic(auto)]

mod answering;
mod fault;
mod looking;
mod plain;
mod walking;

pub use answering::{answer, has_bad_part, looked};
pub use fault::LookupFault;
pub use file_tree::{FIRST_USER_RECORD, FileRefList, LinkList, NameFault, NodeList};
pub use looking::Lookup;
pub use plain::Plain;
pub use tree_model::{
    FileRef, Kind, Link, Name, NameList, Node, Op, Path, Reply, Tree, Units, change_refusal,
    changes_file, fixed_names, is_bad_new_path, is_in_system, least_ref, needed_to_create,
    new_name, no_space, parent_path, table_full,
};
pub use walking::{reached, reached_directory};

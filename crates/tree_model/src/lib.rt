//! Operations on the serial file tree: paths, scripts, replies, and what each operation answers.
//!
//! The contract: `step` answers an operation on a tree as its definition says, by the first refusal
//! that applies, else as done. The tree itself is that of `file_tree`.
#![tactic(auto)]

mod file_bytes;
mod file_effects;
mod file_rows;
mod filing;
mod laws;
mod making;
mod needs;
mod path;
mod plain;
mod reading;
mod reply;
mod script;
mod stepping;

pub use file_bytes::valid_after;
pub use file_effects::least_ref;
pub use file_rows::{
    MORE_RECORDS, change_refusal, fixed_names, is_bad_new_path, is_in_system, new_name, no_space,
    parent_path, table_full,
};
pub use file_tree::{
    Bytes, FileRef, FileRefList, Journal, Kind, Link, LinkList, Name, Node, NodeList, SHORT, Tree,
    Units, Usn, UsnList, WIN32, Why, chosen, compare_names, is_same_name, sort_links,
};
pub use filing::clusters_after;
pub use laws::{worked_bytes, worked_changes, worked_names, worked_reads};
pub use needs::{
    changes_file, clusters_for, needed_to_change, needed_to_create, reserve_of_change, shrinks,
    size_after,
};
pub use path::Path;
pub use plain::names_of;
pub use reading::{count_read, front_into, read_refusal};
pub use reply::{Hit, HitList, NameList, Reply};
pub use script::{Command, Op, Script, What};
pub use stepping::step;

//! What the file records of a volume stand for: the tree, and the rules under which they do.
//!
//! These are definitions, cited by the crates above. Records, names and indexes are those of the
//! Linux-NTFS documentation, "FILE Record", "$FILE_NAME" and "$INDEX_ROOT".
#![tactic(auto)]

mod broken;
mod cluster_size;
mod geometry;
mod linking;
mod stream;

pub use broken::Broken;
pub use cluster_size::ClusterSize;
pub use file_tree::{
    Bytes, FIRST_USER_RECORD, FileRef, FileRefList, Journal, Kind, Link, LinkList, Name, Node,
    NodeList, ROOT, SHORT, Tree, WIN32, Why, compare_names, is_same_name,
};
pub use geometry::{Geometry, MapRefusal};
pub use linking::is_same_link;
pub use record_model::{
    ATTRIBUTE_LIST, Attr, AttributeFlags, BITMAP_TYPE, DATA, FILE_NAME, FileNameValue,
    INDEX_ALLOCATION, INDEX_ROOT, Memory, NAMES_INDEX, OwnForm, RecordFlags, Run, Runs,
    STANDARD_INFORMATION, StdInfo, ValueFault, is_same_reference,
};
pub use stream::{Extents, Stream};

//! The nodes of a directory's index: their entries are read from an index block or from an index
//! root, are put in, taken out and cut in two, and are written as a block; and the value of an
//! index root as it is written.
//!
//! The contract: a node is read exactly where its bytes spell it, and is refused by the least rule
//! that they break; what is written is the one spelling of the entries, which is read again. The
//! layouts are those of the Linux-NTFS documentation, "$INDEX_ROOT", "Index Record" and "Index
//! Entry".
#![tactic(auto)]

mod entries;
mod fault;
mod header;
mod laws;
mod node;
mod room;
mod root_laws;
mod root_spelling;
mod root_writing;
mod walk;
mod writing;

pub use disk_model::{u8_at, u64_at};
pub use fault::NodeFault;
pub use laws::edits_fit;
pub use node::{Node, read_root};
pub use record_model::{Entry, EntryList, FileNameValue, Run, ValueFault};
pub use root_laws::{root_read_again, spelled_in_each_block};
pub use root_spelling::have_spelling;
pub use root_writing::write_root;
pub use std_values::{FixedValue, NamedValue, is_file_name};

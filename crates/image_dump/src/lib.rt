//! The printed texts of an image: its long names, its whole tree, what a check says of it, and the
//! records of its journal.
//!
//! The contract: each text is a function of the tree or of the records, and each call appends
//! exactly that text, or leaves what it appends to as it was for want of memory. Nodes are printed
//! by number, and links by child number, parent number and the raw units of the name.
#![tactic(auto)]

mod check;
mod dump;
mod journal;
mod laws;
mod line;
mod order;
mod scan;

pub use check::check_text;
pub use dump::dump_text;
pub use journal::journal_text;
pub use laws::{links_have_one_order, nodes_have_one_order};
pub use scan::scan_text;

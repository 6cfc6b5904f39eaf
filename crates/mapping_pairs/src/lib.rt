//! Mapping pairs: the runs of a stream as a volume spells them, read and written.
#![tactic(auto)]

mod reader;
mod writer;

pub use reader::read;
pub use writer::write;

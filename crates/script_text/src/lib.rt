//! Scripts: what the clients of a volume ask for, a command a line.
//!
//! The contract: `Script::read` answers the commands exactly where the bytes spell a script, else
//! what refuses it: its size, or the first line at fault. Names in paths are those of the
//! Linux-NTFS documentation, "Attribute - $FILE_NAME".
#![tactic(auto)]

mod change;
mod command;
mod fault;
mod line;
mod path;
mod pieces;
mod reading;
mod word;

pub use fault::ScriptFault;
pub use reading::ScriptText;
pub use tree_model::{Command, Op, Path, Script, What};

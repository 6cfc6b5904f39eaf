//! The words of a command line: an image, a command and its options.
//!
//! The contract: `read_line` answers the command exactly where the words are a line of the grammar
//! that `specs/Grammar.antt` states, with numbers and an image as `specs/Commands.antt` asks. The
//! words are read by `clap`, and the grammar is proved to be what `clap` accepts.
#![tactic(auto)]

mod command;
mod fault;
mod matching;
mod reading;

pub use command::Command;
pub use fault::LineFault;
pub use reading::read_line;

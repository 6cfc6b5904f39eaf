//! The printed text of a run of a script.
//!
//! The contract: the text has one line for each command, by client and then by number, and each
//! line says the command's client, number, turn, journal position and reply.
#![tactic(auto)]

mod laws;
mod line;
mod reply;
mod run;

pub use laws::run_text_is_one;
pub use run::text;

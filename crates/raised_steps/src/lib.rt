//! A file that is made behind a level more of its directory's index, as the step of its content.
//!
//! The contract: the laws of these definitions, as functions with no body.
#![tactic(auto)]

mod laws;

pub use laws::{
    never_needs_level, raised_are_steps, rises_where_full, roots_are_loose, takes_alike,
};

//! What a state says of a stream in clusters, to one who lets it take clusters or gives some back.
//!
//! The contract: the laws of these definitions, as functions with no body. The layouts are those of
//! the Linux-NTFS documentation, "Data runs".
#![tactic(auto)]

mod laws;

pub use laws::streams_of_states;

//! What a state says of a file's unnamed data, to one who writes or cuts it.
//!
//! The contract: the law of these definitions, as a function with no body. The layouts are those of
//! the Linux-NTFS documentation, "Attribute Header" and "$DATA".
#![tactic(auto)]

mod laws;

pub use laws::files_have_data;
pub use state_streams::streams_of_states;

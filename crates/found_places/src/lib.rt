//! Places of new files that an operation was found to make, as the call that makes one asks for
//! them.
//!
//! The contract: the laws of these definitions, as functions with no body: all that is asked of a
//! state is there, and a file that is put without a block more for its directory's index is the
//! operation's step. The layouts are those of the Linux-NTFS documentation, "FILE Record",
//! "$INDEX_ROOT", "$INDEX_ALLOCATION" and "$Bitmap".
#![tactic(auto)]

mod laws;

pub use laws::{places_are_there, places_take_steps};

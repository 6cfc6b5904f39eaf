//! What a file that is made leaves of the blocks from which a state is read: a volume may take the
//! changes.
//!
//! The contract: the laws of these definitions, as functions with no body of their own.
#![tactic(auto)]

mod laws;

pub use laws::{
    index_grows_well, made_stays_welcome, makes_keep, makes_keep_names, none_grows_well,
};

//! A draft that has let the index of a directory grow, as what a file may be made behind.
//!
//! The contract: the laws of these definitions, as functions with no body. The layouts are those of
//! the Linux-NTFS documentation, "$INDEX_ALLOCATION", "$BITMAP" and "Data runs".
#![tactic(auto)]

mod laws;

pub use laws::{
    counts_among_all, counts_growths, index_grows_first, index_grows_next, index_raises_next,
    put_grows_first, put_grows_next, put_raises, puts_among, puts_as_counted,
};

//! What an index of a directory becomes by a plan of its nodes, in the words of a step, before the
//! plan is laid out.
//!
//! The contract: the laws of these definitions, as functions with no body. The layouts are those of
//! the Linux-NTFS documentation, "$INDEX_ROOT" and "$INDEX_ALLOCATION".
#![tactic(auto)]

mod laws;

pub use laws::{
    blocks_are_counted, levels_are_needed, levels_lift, nodes_are_spread, plans_fit, roots_grow,
    roots_stay, spreads_widen,
};

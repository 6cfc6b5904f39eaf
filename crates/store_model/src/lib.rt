//! The store as a pure machine: the window of contents that a layer above sees, its events, and
//! what a crash at any moment brings back.
//!
//! A store keeps a list of entries of the log and a disk. A transaction changes bodies of blocks
//! and appends updates; a commit appends its entry. Pages of entries are written and synced, blocks
//! are written out once their entries are durable, and a checkpoint moves the place from which
//! recovery reads. The definitions say each of these events, failing ones too, as a step from one
//! machine to the next, and what a crash may leave of a machine: the sectors that its disk may
//! leave, and any beginning of the list that has its durable entries. The laws say that what is
//! left recovers to the content after some number of commits.
#![tactic(auto)]

mod laws;

pub use laws::{
    crash_refinement, device_calls, never_waits, no_partial_block, rest_tells, restart_is_chosen,
    ring_is_prefix, sound_events, stopped_recovery, store_vector, windows_move, words_agree,
};

//! The ring of the log's pages and its two restart pages, as bytes, and a store whose log they are.
//!
//! What a crash leaves of them in the sectors of a device is what the store's ring says of pages by
//! their numbers: each place of the ring holds the page with its number, whole, or none; recovery
//! reads the entries of a front of the pages, which has all durable ones; and it begins by the last
//! restart page that is durable, or by the next one, once that was begun. So whatever a crash
//! leaves of a device that holds a store and its log recovers, sector by sector.
//!
//! The contract: the laws of these definitions, as functions with no body. The layouts are those of
//! the Linux-NTFS documentation, "$LogFile", "Restart page" and "Record page".
#![tactic(auto)]

mod laws;

pub use laws::{
    images_recover, images_recover_since, logs_are_left, logs_follow, pages_are_bytes,
    pages_are_numbered, restarts_stand, ring_is_read, ring_stands, stores_see_disks,
};
pub use log_reading::{View, ViewFault, lap_of, page_lsn};

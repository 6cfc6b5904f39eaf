//! Builders of the pages of a volume's log for worked rows: its restart pages and its record pages,
//! and updates of file records.
#![tactic(auto)]

mod pages;

pub use pages::{EntryPage, FIRST, changed_body, own, record_update, restart_page};

//! The steps of a store, and what it tells of itself.

use disk_model::Block;

/// A step of a store.
#[derive(Clone, Copy, Debug, PartialEq, Eq)]
pub enum StoreStep {
    /// Freezes the page of the log that is filled.
    SealPage,
    /// Writes the oldest sealed page that wasn't written.
    WritePage,
    /// Syncs the device: what was written is durable.
    SyncDevice,
    /// Writes the body of a dirty block.
    WriteOut(Block),
    /// Seals, and notes the next place of the log and the blocks that are dirty.
    BeginCheckpoint,
    /// Writes the restart page that names the noted place; the next sync frees the ring up to it.
    WriteRestart,
}

/// What a store tells of itself.
#[derive(Clone, Copy, Debug, PartialEq, Eq)]
pub struct Facts {
    /// A page of the log is filled.
    pub filling: bool,
    /// The sealed pages that weren't written.
    pub sealed: u64,
    /// Something was written since the last sync that answered `Ok`.
    pub unsynced: bool,
    /// The lowest block that changed since its last write-out and may be written out.
    pub ready: Option<Block>,
    /// A checkpoint has begun, and its restart page wasn't written.
    pub begun: bool,
    /// A page of the log was used since the last checkpoint began.
    pub fresh: bool,
    /// The noted blocks that weren't yet written out and synced, or dropped.
    pub noted_left: u64,
    /// The pages of the ring that aren't free.
    pub pages_used: u64,
    /// The pages of the ring.
    pub pages: u64,
    /// The LSN that a commit would have as the next entry.
    pub next: u64,
}

//! What a check finds of a volume, and where its file table lies.
use crate::volume::{CLUSTERS, geometry};
use block_view::{Block, BlockKind, Body, View};
use image_read::{check_version, tree_on, volume_on};
use record_model::Run;
use std::alloc::Global;
use std::test::Fail;

/// What is found of a volume that breaks no rule.
#[derive(Clone, Copy, Debug, PartialEq)]
pub struct Found {
    /// How many files there are, and how many names of them.
    pub nodes: usize,
    pub links: usize,
    /// How many numbers new files may get.
    pub spare: usize,
    /// How many records the file table has.
    pub count: u64,
    pub has_journal: bool,
    /// How many clusters are clear.
    pub room: u64,
    /// The last run of the file table: its VCN, its cluster and its length.
    pub last: (u64, u64, u64),
    /// The mirror's record 0 is that of the file table.
    pub is_mirrored: bool,
}

// The last run, zeros where there is none.
fn last_of(runs: &[Run]) -> (u64, u64, u64) {
    match runs.last() {
        Some(run) => (run.vcn, run.lcn.unwrap_or(0), run.len),
        None => (0, 0, 0),
    }
}

// The bytes of the record at a sector.
fn record_at<V: View>(alloc: Global, view: &mut V, first: u64) -> Result<Vec<u8>, Fail> {
    let mut body = Body::empty(alloc)?;
    let block = Block {
        first,
        kind: BlockKind::FileRec,
    };
    view.body(block, &mut body)?;
    Ok(Vec::from_slice(alloc, body.bytes())?)
}

// Whether record 0 of the mirror is that of the file table.
fn is_mirrored<V: View>(alloc: Global, view: &mut V) -> Result<bool, Fail> {
    let own = record_at(alloc, view, 32)?;
    let copy = record_at(alloc, view, 16)?;
    Ok(own == copy)
}

/// What a check finds of the volume that a view shows, which it answers only where no rule is
/// broken.
pub fn found_in<V: View>(alloc: Global, view: &mut V) -> Result<Found, Fail> {
    let map = volume_on(alloc, view, &geometry(), CLUSTERS)?;
    check_version(&map)?;
    let tree = tree_on(alloc, view, &map)?;
    Ok(Found {
        nodes: tree.nodes.as_slice().len(),
        links: tree.links.as_slice().len(),
        spare: tree.spare.as_slice().len(),
        count: tree.count,
        has_journal: tree.journal.is_some(),
        room: tree.room,
        last: last_of(map.table.runs.as_slice()),
        is_mirrored: is_mirrored(alloc, view)?,
    })
}

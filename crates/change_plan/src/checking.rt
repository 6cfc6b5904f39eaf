//! Whether a file may be given to the call that writes or cuts it.
ghost use Rattle.std.specs.Prelude.{◌≡◌, ◌<◌, ◌^◌, ◌↔◌, true, IfOk, length};
ghost use Rattle.found_files.specs.record_streams.Fitting.{FitsButRoom};
ghost use Rattle.found_files.specs.file_writes.Writing.{MayWrite};
ghost use Rattle.found_files.specs.made_data.Made.{made_record, record_with_data};
ghost use Rattle.change_plan.specs.Checking.{MayChange};

use file_tree::Node;
use found_files::{FileRec, VolumeStreams, found_may_write, has_data, make_data, may_write};
use host_base::Memory;
use std::alloc::{AllocError, Global};
use tree_model::Op;

// Fewer attributes than these.
const MOST_ATTRIBUTES: usize = 1024;

// The record of a file without unnamed data as it is made.
fn made_file(alloc: Global, file: &FileRec) -> Result<FileRec, Memory>
    requires fits { FitsButRoom file.now }
    requires attrs { length file.now.attrs < 2 ^ 10 }
    ensures value { IfOk result (λ r. r ≡ made_record file.now) }
    ensures fits { IfOk result FitsButRoom }
{
    found_may_write();
    match make_data(alloc, file) {
        Ok(made) => Ok(made),
        Err(AllocError) => Err(Memory),
    }
}

// The same of a file without unnamed data, by its record with data that is empty.
fn may_make(
    alloc: Global,
    clusters: u64,
    number: u64,
    streams: &VolumeStreams,
    file: &FileRec,
    op: &Op,
    node: &Node,
) -> Result<bool, Memory>
    requires fits { FitsButRoom file.now }
    requires attrs { length file.now.attrs < 2 ^ 10 }
    ensures may { IfOk result (λ may. (may ≡ true) ↔ MayWrite clusters number streams.now (made_record file.now) op.now node.now) }
{
    let made = made_file(alloc, file)?;
    may_write(alloc, clusters, number, streams, &made, op, node)
}

// Whether the file may be written by its record, or by the one with data that is empty.
fn may_write_any(
    alloc: Global,
    clusters: u64,
    number: u64,
    streams: &VolumeStreams,
    file: &FileRec,
    op: &Op,
    node: &Node,
) -> Result<bool, Memory>
    requires fits { FitsButRoom file.now }
    requires attrs { length file.now.attrs < 2 ^ 10 }
    ensures may { IfOk result (λ may. (may ≡ true) ↔ MayWrite clusters number streams.now (record_with_data file.now) op.now node.now) }
{
    if has_data(file) {
        return may_write(alloc, clusters, number, streams, file, op, node);
    }
    may_make(alloc, clusters, number, streams, file, op, node)
}

/// Whether a file may be given to the call that writes or cuts it, by its record or, where this has
/// no unnamed data, by the one with data that is empty. The error is want of memory. It takes time
/// and memory linear in the record and its runs.
pub fn may_change(
    alloc: Global,
    clusters: u64,
    number: u64,
    streams: &VolumeStreams,
    file: &FileRec,
    op: &Op,
    node: &Node,
) -> Result<bool, Memory>
    requires fits { FitsButRoom file.now }
    ensures may { IfOk result (λ may. (may ≡ true) ↔ MayChange clusters number streams.now file.now op.now node.now) }
{
    if file.attrs().as_slice().len() >= MOST_ATTRIBUTES {
        return Ok(false);
    }
    may_write_any(alloc, clusters, number, streams, file, op, node)
}

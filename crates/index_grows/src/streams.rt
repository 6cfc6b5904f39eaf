//! The blocks of a directory's index and their bitmap, as a plan has them.
ghost use Rattle.std.specs.Prelude.{◌≡◌, ◌+◌, ◌<◌, ◌^◌, ℕ, IfOk, IfSome, length};
ghost use Rattle.record_streams.specs.Fitting.{FitsButRoom};
ghost use Rattle.made_index.specs.Growing.{MayGrow};
ghost use Rattle.index_edits.specs.Grown.{HasStreams};
ghost use Rattle.index_grows.specs.Counted.{file_with_streams};

use draft_indexes::IndexBlocks;
use file_puts::FileRec;
use host_base::Memory;
use index_edits::index_streams_stand;
use made_index::{has_blocks, index_is_counted, with_empty_index};
use record_model::{BITMAP_TYPE, INDEX_ALLOCATION, NAMES_INDEX};
use record_writer::push_copies;
use state_model::Stream;
use std::alloc::{AllocError, Global};
use stream_map::stream_of;

// A copy of a record.
fn copied(alloc: Global, file: &FileRec) -> Result<FileRec, AllocError>
    ensures { IfOk result (λ r. r ≡ file.now) }
{
    let mut out = FileRec::empty(alloc, file.head());
    push_copies(alloc, file.attrs().as_slice(), &mut out)?;
    Ok(out)
}

// The record with both streams, which come empty where it has neither.
fn with_streams(alloc: Global, file: &FileRec) -> Result<FileRec, Memory>
    requires fits { FitsButRoom file.now }
    requires few { length file.now.attrs + 1 < 2 ^ 10 }
    ensures value { IfOk result (λ r. r ≡ file_with_streams file.now) }
    ensures fits { IfOk result FitsButRoom }
{
    index_is_counted();
    if has_blocks(file) {
        return Ok(copied(alloc, file)?);
    }
    with_empty_index(alloc, file)
}

/// The blocks of a directory's index and their bitmap, where this stands in the record. The error is
/// want of memory. It takes time and memory linear in the record and its runs.
#[tactic(auto, unfolding(volume_model::specs::Indexes::index_stream))]
pub fn index_blocks(
    alloc: Global,
    number: u64,
    file: &FileRec,
) -> Result<Option<IndexBlocks>, Memory>
    requires fits { FitsButRoom file.now }
    requires few { length file.now.attrs + 1 < 2 ^ 10 }
    requires may { (clusters : ℕ) × MayGrow clusters file.now }
    ensures streams { IfOk result (λ found. IfSome found (λ index. HasStreams file.now index)) }
    ensures number { IfOk result (λ found. IfSome found (λ index. index.number ≡ number)) }
    ensures file { IfOk result (λ found. IfSome found (λ index. index.file ≡ file_with_streams file.now)) }
    ensures fits { IfOk result (λ found. IfSome found (λ index. FitsButRoom index.file)) }
{
    index_streams_stand();
    index_is_counted();
    let file = with_streams(alloc, file)?;
    let blocks = stream_of(
        alloc,
        INDEX_ALLOCATION,
        &NAMES_INDEX,
        file.attrs().as_slice(),
    )?;
    let bits = stream_of(alloc, BITMAP_TYPE, &NAMES_INDEX, file.attrs().as_slice())?;
    let Some(Stream::Placed(extents)) = blocks else {
        return Ok(None);
    };
    let Some(Stream::Held(bits)) = bits else {
        return Ok(None);
    };
    Ok(Some(IndexBlocks {
        number,
        file,
        extents,
        bits,
    }))
}

//! Whether a directory's index may stay as it is but for its nodes.
ghost use Rattle.std.specs.Prelude.{◌≡◌, ◌≤◌, true, Some, IfOk};
ghost use Rattle.record_model.specs.Constants.{index_allocation, bitmap_type, names_index};
ghost use Rattle.state_model.specs.declared.stream.Stream.TheVariants.{Placed};
ghost use Rattle.state_model.specs.Loads.{total_clusters};
ghost use Rattle.state_model.specs.Streams.{stream_of};
ghost use Rattle.record_model.specs.Pairs.{HasSpelling};
ghost use Rattle.found_places.specs.Steady.{bits_size, HasBits, HasBlocks, IsSteady};
ghost use Rattle.place_makes.specs.Placing.{IsBegun, IsQuiet};

use file_makes::{Extents, FileRec};
use host_base::Memory;
use planned_streams::have_spelling;
use record_model::{BITMAP_TYPE, INDEX_ALLOCATION, NAMES_INDEX};
use state_model::Stream;
use std::alloc::Global;
use stream_map::stream_of;
use stream_runs::total_clusters;
use tree_model::clusters_for;

// The bytes of the bitmap of blocks of this size.
fn bits_size(size: u64) -> u64
    ensures { result ≡ bits_size size }
{
    8 * (size / 4096).div_ceil(64)
}

// Whether a bitmap in clusters has room for so many bytes.
fn has_placed(size: u64, extents: &Extents) -> bool
    ensures { result ≡ true → HasBits size (Some (Placed extents.now)) }
{
    have_spelling(&extents.runs)
        && clusters_for(bits_size(size)) <= total_clusters(extents.runs.as_slice())
}

// Whether a bitmap has a bit for each block of an index of this size.
fn has_bits(size: u64, bitmap: &Option<Stream>) -> bool
    ensures { result ≡ true → HasBits size bitmap.now }
{
    match bitmap {
        None => false,
        Some(Stream::Held(value)) => bits_size(size) <= value.len() as u64,
        Some(Stream::Placed(extents)) => has_placed(size, extents),
    }
}

// Whether an index has no blocks, or all of them initialised and with a bit each.
fn has_blocks(blocks: &Option<Stream>, bitmap: &Option<Stream>) -> bool
    ensures steady { result ≡ true → HasBlocks blocks.now bitmap.now }
    ensures begun { result ≡ true → IsBegun blocks.now }
{
    match blocks {
        None => true,
        Some(Stream::Held(_)) => false,
        Some(Stream::Placed(extents)) => {
            extents.real <= extents.initialised && has_bits(extents.real, bitmap)
        }
    }
}

/// Whether a directory's index has no blocks, or has all of them initialised and with a bit each in
/// its bitmap, for which there is room (Linux-NTFS documentation, "$INDEX_ALLOCATION", "$BITMAP").
/// The error is want of memory. It takes time linear in the attributes and runs.
pub fn is_quiet(alloc: Global, file: &FileRec) -> Result<bool, Memory>
    ensures { IfOk result (λ quiet. quiet ≡ true → IsQuiet file.now) }
{
    let blocks = stream_of(
        alloc,
        INDEX_ALLOCATION,
        &NAMES_INDEX,
        file.attrs().as_slice(),
    )?;
    let bitmap = stream_of(alloc, BITMAP_TYPE, &NAMES_INDEX, file.attrs().as_slice())?;
    Ok(has_blocks(&blocks, &bitmap))
}

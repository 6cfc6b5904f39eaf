//! Whether a directory's index may get blocks.
ghost use Rattle.std.specs.Prelude.{◌≡◌, ◌+◌, ◌*◌, ◌<◌, ◌≤◌, ◌^◌, true, IfOk, length};
ghost use Rattle.record_streams.specs.Fitting.{FitsButRoom};
ghost use Rattle.directory_growth.specs.Growing.{LieBelow, IsShortValue, HasIndex, GrowsLittle};
ghost use Rattle.made_index.specs.Growing.{HasRoot, MayGrow};
ghost use Rattle.volume_model.specs.Volumes.{size_or};

use file_puts::FileRec;
use found_files::{begins_at_zero, has_all_pairs, lies_below, stands_below};
use host_base::Memory;
use made_index::{has_bits, has_blocks};
use record_model::{BITMAP_TYPE, INDEX_ALLOCATION, INDEX_ROOT, NAMES_INDEX, STANDARD_INFORMATION};
use record_rules::has_type;
use state_model::Stream;
use std::alloc::Global;
use stream_map::stream_of;

// The most bytes of a bitmap that stands in its record.
const MOST_VALUE: usize = 4096;

// The most bytes of an index's blocks before they grow.
const MOST_REAL: u64 = 1 << 30;

// The most blocks that come, and the most bytes of the value of a root.
const MOST_MORE: u64 = 1 << 14;

const MOST_ROOT: u64 = 1 << 16;

// A record has fewer attributes than these with two more.
const MOST_ATTRIBUTES: usize = 1 << 10;

// Whether a stream stands in clusters below so many.
fn lie_below(clusters: u64, stream: &Option<Stream>) -> bool
    ensures { result ≡ true → LieBelow clusters stream.now }
{
    match stream {
        None => false,
        Some(Stream::Held(_)) => false,
        Some(Stream::Placed(extents)) => lies_below(clusters, extents),
    }
}

// Whether a bitmap that stands in its record is short.
fn is_short(stream: &Option<Stream>) -> bool
    ensures { result ≡ true → IsShortValue stream.now }
{
    match stream {
        None => true,
        Some(Stream::Held(value)) => value.len() <= MOST_VALUE,
        Some(Stream::Placed(_)) => true,
    }
}

// The size of a stream.
fn size_of(stream: &Option<Stream>) -> u64
    ensures { result ≡ size_or stream.now }
{
    match stream {
        None => 0,
        Some(Stream::Held(value)) => value.len() as u64,
        Some(Stream::Placed(extents)) => extents.real,
    }
}

// Whether a directory with blocks has an index that may get more.
fn has_index(alloc: Global, clusters: u64, file: &FileRec) -> Result<bool, Memory>
    requires fits { FitsButRoom file.now }
    ensures { IfOk result (λ has. has ≡ true → HasIndex clusters file.now) }
{
    if !has_all_pairs(alloc, file)? || !has_type(STANDARD_INFORMATION, file) {
        return Ok(false);
    }
    if !begins_at_zero(alloc, INDEX_ROOT, &NAMES_INDEX, file)? {
        return Ok(false);
    }
    if !begins_at_zero(alloc, INDEX_ALLOCATION, &NAMES_INDEX, file)? {
        return Ok(false);
    }
    if !begins_at_zero(alloc, BITMAP_TYPE, &NAMES_INDEX, file)? {
        return Ok(false);
    }
    let blocks = stream_of(
        alloc,
        INDEX_ALLOCATION,
        &NAMES_INDEX,
        file.attrs().as_slice(),
    )?;
    let bits = stream_of(alloc, BITMAP_TYPE, &NAMES_INDEX, file.attrs().as_slice())?;
    Ok(lie_below(clusters, &blocks) && stands_below(clusters, &bits) && is_short(&bits))
}

// Whether a directory whose index has its root alone may get its first blocks.
fn has_root(alloc: Global, file: &FileRec) -> Result<bool, Memory>
    requires fits { FitsButRoom file.now }
    ensures { IfOk result (λ has. has ≡ true → HasRoot file.now) }
{
    if has_blocks(file) || has_bits(file) {
        return Ok(false);
    }
    if file.attrs().as_slice().len() + 1 >= MOST_ATTRIBUTES {
        return Ok(false);
    }
    if !has_all_pairs(alloc, file)? || !has_type(STANDARD_INFORMATION, file) {
        return Ok(false);
    }
    begins_at_zero(alloc, INDEX_ROOT, &NAMES_INDEX, file)
}

/// Whether a directory's index may get blocks in a volume of so many clusters: it has both streams,
/// which lie as those of a state, or neither. The error is want of memory. It takes time linear in
/// the record and its runs.
pub fn may_grow(alloc: Global, clusters: u64, file: &FileRec) -> Result<bool, Memory>
    requires fits { FitsButRoom file.now }
    ensures { IfOk result (λ may. may ≡ true → MayGrow clusters file.now) }
{
    if has_index(alloc, clusters, file)? {
        return Ok(true);
    }
    has_root(alloc, file)
}

/// Whether the blocks of an index aren't too many with so many more, and the root has no more than so
/// many bytes.
pub fn grows_little(alloc: Global, file: &FileRec, root: u64, more: u64) -> Result<bool, Memory>
    ensures { IfOk result (λ little. little ≡ true → GrowsLittle file.now root more) }
{
    let blocks = stream_of(
        alloc,
        INDEX_ALLOCATION,
        &NAMES_INDEX,
        file.attrs().as_slice(),
    )?;
    let real = size_of(&blocks);
    if real > MOST_REAL || more > MOST_MORE || root > MOST_ROOT {
        return Ok(false);
    }
    Ok(4096 <= real + 4096 * more)
}

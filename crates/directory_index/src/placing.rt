//! Where a directory's index lies.
ghost use Rattle.std.specs.Prelude.{◌≡◌, IfOk, IfSome};
ghost use Rattle.index_tree.specs.Places.{place_of};
ghost use Rattle.volume_model.specs.Indexes.{stream_blocks, index_stream, index_place, root_value};
ghost use Rattle.directory_index.specs.Placed.{root_in};

use crate::roots::{index_stream, root_value};
use host_base::{Bytes, Memory};
use index_tree::{BlockList, DirPlace};
use record_rules::FileRec;
use state_model::{ClusterSize, Stream};
use std::alloc::Global;

// The blocks of a stream; a value in the record has none.
fn stream_blocks(alloc: Global, per: ClusterSize, stream: Option<Stream>) -> BlockList
    ensures { result ≡ stream_blocks per stream }
{
    match stream {
        None => BlockList::new(alloc),
        Some(Stream::Held(_)) => BlockList::new(alloc),
        Some(Stream::Placed(extents)) => BlockList::of_extents(alloc, per, extents),
    }
}

// The blocks of a directory's index.
fn index_blocks(alloc: Global, per: ClusterSize, file: &FileRec) -> Result<BlockList, Memory>
    ensures { IfOk result (λ blocks. blocks ≡ stream_blocks per (index_stream file.now)) }
{
    let stream = index_stream(alloc, file)?;
    Ok(stream_blocks(alloc, per, stream))
}

// Where an index with this root lies.
#[tactic(auto, unfolding(volume_model::specs::Indexes::index_place))]
fn place_below(
    alloc: Global,
    per: ClusterSize,
    file: &FileRec,
    root: &Bytes,
) -> Result<DirPlace, Memory>
    ensures place { IfOk result (λ found. place_of found ≡ index_place per file.now) }
    ensures root { IfOk result (λ found. found.root ≡ root.now) }
    ensures used { IfOk result (λ found. found.used ≡ 0) }
{
    let blocks = index_blocks(alloc, per, file)?;
    Ok(DirPlace {
        root: root.clone()?,
        blocks,
        step: 8 / per.sectors(),
        used: 0,
    })
}

/// Where the index of a directory's names lies (Linux-NTFS documentation, "$INDEX_ROOT" and
/// "$INDEX_ALLOCATION"), in a volume of `per` sectors a cluster; nowhere if its root isn't there or
/// isn't resident. `used` is 0, since the attributes of a file don't say how many bytes its base
/// record uses; a caller that plans a change of the index sets it. The error is want of memory.
///
/// It takes time and memory linear in the attributes and runs of the file where the pieces of the
/// allocation stand in order, however many blocks the allocation has.
pub fn index_place(
    alloc: Global,
    per: ClusterSize,
    file: &FileRec,
) -> Result<Option<DirPlace>, Memory>
    ensures place { IfOk result (λ found. IfSome found (λ dir. place_of dir ≡ index_place per file.now)) }
    ensures root { IfOk result (λ found. root_in found ≡ root_value file.now) }
    ensures used { IfOk result (λ found. IfSome found (λ dir. dir.used ≡ 0)) }
{
    match root_value(file) {
        Some(root) => Ok(Some(place_below(alloc, per, file, root)?)),
        None => Ok(None),
    }
}

//! Records of directories whose index gets blocks and their bitmap.
ghost use Rattle.std.specs.Prelude.{◌≡◌, ◌<◌, ◌≤◌, ◌^◌, IfOk, length};
ghost use Rattle.record_model.specs.Constants.{bitmap_type, index_allocation};
ghost use Rattle.resized_streams.specs.Resizing.{unplaced};
ghost use Rattle.made_data.specs.step_model.Used.{new_attr};
ghost use Rattle.record_model.specs.Constants.{names_index};
ghost use Rattle.made_index.specs.Made.{has_stream, empty_blocks, empty_bits, with_empty_index, indexed_record};

use file_record::FileRec;
use host_base::{Bytes, Memory};
use made_data::{with_attr, written};
use record_model::{Attr, BITMAP_TYPE, Head, INDEX_ALLOCATION, NAMES_INDEX, OwnForm, Runs};
use record_streams::placed_attr;
use state_model::{ClusterSize, Extents};
use std::alloc::{AllocError, Global};
use stream_map::is_attribute_of;
use utf16_name::Units;

/// Whether the index of a directory has blocks (Linux-NTFS documentation, "$INDEX_ALLOCATION"), in
/// clusters or none. It takes time linear in the record's attributes.
#[tactic(auto, unfolding(crate::specs::Made::has_stream))]
pub fn has_blocks(file: &FileRec) -> bool
    ensures value { result ≡ has_stream index_allocation file.now }
{
    file.attrs().as_slice().iter().any(|attr| is_attribute_of(INDEX_ALLOCATION, &NAMES_INDEX, attr))
}

/// Whether the index of a directory has a bitmap of its blocks (Linux-NTFS documentation, "$BITMAP"),
/// in the record or in clusters. It takes time linear in the record's attributes.
#[tactic(auto, unfolding(crate::specs::Made::has_stream))]
pub fn has_bits(file: &FileRec) -> bool
    ensures value { result ≡ has_stream bitmap_type file.now }
{
    file.attrs()
        .as_slice()
        .iter()
        .any(|attr| is_attribute_of(BITMAP_TYPE, &NAMES_INDEX, attr))
}

// A value without bytes of a stream of the index.
fn new_attr(alloc: Global, kind: u32) -> Result<Attr, AllocError>
    ensures { IfOk result (λ a. a ≡ new_attr kind names_index) }
{
    Ok(Attr {
        head: Head {
            kind,
            flags: 0,
            id: 0,
        },
        name: Units::copy_of(alloc, &NAMES_INDEX)?,
        form: OwnForm::Resident {
            value: Bytes::new(alloc),
            indexed: 0,
        },
    })
}

// A stream of no bytes in no clusters.
fn no_clusters(alloc: Global) -> Extents
    ensures { result ≡ unplaced 0 }
{
    Extents {
        runs: Runs::new(alloc),
        allocated: 0,
        real: 0,
        initialised: 0,
    }
}

// Blocks of no bytes, in no clusters.
fn empty_blocks(alloc: Global) -> Result<Attr, Memory>
    ensures { IfOk result (λ a. a ≡ empty_blocks) }
{
    let per = ClusterSize::new(8).unwrap();
    let attr = new_attr(alloc, INDEX_ALLOCATION)?;
    placed_attr(alloc, per, &no_clusters(alloc), &attr)
}

/// The same as [`make_index`] makes, before it is written: all attributes of the directory stay as
/// they are.
#[tactic(auto, using(made_data::proofs::Standing::size_put))]
pub fn with_empty_index(alloc: Global, file: &FileRec) -> Result<FileRec, Memory>
    requires few { length file.now.attrs < 2 ^ 10 }
    ensures value { IfOk result (λ r. r ≡ with_empty_index file.now) }
{
    let with_blocks = with_attr(alloc, empty_blocks(alloc)?, file)?;
    let bits = new_attr(alloc, BITMAP_TYPE)?;
    Ok(with_attr(alloc, bits, &with_blocks)?)
}

/// The record of a directory with blocks of its index more, without bytes and in no clusters, and
/// with their bitmap, a value without bytes (Linux-NTFS documentation, "$INDEX_ALLOCATION",
/// "$BITMAP", "Attribute Header"), as it is written: each in its place by types and names, with the
/// header's next id for an attribute, or the least one that is free where these have come to their
/// end. The index has its root alone, as [`has_blocks`] tells of a directory of which the index has
/// both or neither. [`index_is_counted`](crate::index_is_counted) says that more blocks of the index
/// come to the same with this record. It may use more than 1,024 bytes. The error is want of memory.
/// It takes time and memory linear in the record, and where ids have come to their end the square of
/// its attributes' number.
#[tactic(auto, using(made_data::proofs::Standing::size_put))]
pub fn make_index(alloc: Global, file: &FileRec) -> Result<FileRec, Memory>
    requires few { length file.now.attrs < 2 ^ 10 }
    ensures value { IfOk result (λ r. r ≡ indexed_record file.now) }
{
    let made = with_empty_index(alloc, file)?;
    Ok(written(alloc, &made)?)
}

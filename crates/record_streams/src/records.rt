//! File records in which a stream is in other clusters.
ghost use Rattle.std.specs.Prelude.{◌≡◌, ◌≤◌, ◌^◌, [], ◌∷◌, ◌++◌, IfOk, length};
ghost use Rattle.record_writer.specs.record_model.Pairs.{HasSpelling};
ghost use Rattle.stream_map.specs.Attributes.{behind};
ghost use Rattle.record_streams.specs.Placing.{with_stream, placed_first, placed_record};
ghost use Rattle.record_streams.specs.Fitting.{FitsButRoom, IsPlaceable, HasFields};

use crate::attribute::placed_attr;
use record_writer::{Attr, FileRec, Memory, push_copy};
use std::alloc::{AllocError, Global};
use stream_map::{ClusterSize, Extents, attributes_of, is_attribute_of};

/// The record with this attribute in the place of the one that stands first of the stream of this
/// type and name (in UTF-16 units), whose others go (Linux-NTFS documentation, "Attribute Header"); a
/// record without that stream is copied. It may use more than 1,024 bytes. The error is want of
/// memory. It takes time and memory linear in the record.
pub fn with_stream(
    alloc: Global,
    kind: u32,
    name: &[u16],
    new: &Attr,
    file: &FileRec,
) -> Result<FileRec, AllocError>
    ensures { IfOk result (λ r. r ≡ record { head = file.now.head; attrs = with_stream kind name.now new.now file.now.attrs }) }
{
    let mut out = FileRec::empty(alloc, file.head());
    let mut is_put = false;
    let attrs = file.attrs().as_slice();
    for attr in attrs {
        if !is_attribute_of(kind, name, attr) {
            push_copy(alloc, attr, &mut out)?;
        } else if !is_put {
            push_copy(alloc, new, &mut out)?;
            is_put = true;
        }
    }
    Ok(out)
}

/// A copy of the record. The error is want of memory. It takes time and memory linear in the record.
pub fn copied(alloc: Global, file: &FileRec) -> Result<FileRec, AllocError>
    ensures { IfOk result (λ r. r ≡ file.now) }
{
    let mut out = FileRec::empty(alloc, file.head());
    let attrs = file.attrs().as_slice();
    for attr in attrs {
        push_copy(alloc, attr, &mut out)?;
    }
    Ok(out)
}

// The record with the first of these attributes of a stream in these clusters.
fn placed_first(
    alloc: Global,
    per: ClusterSize,
    kind: u32,
    name: &[u16],
    extents: &Extents,
    file: &FileRec,
    attributes: &[&Attr],
) -> Result<FileRec, Memory>
    requires { HasSpelling 0 extents.now.runs }
    ensures { IfOk result (λ r. r ≡ placed_first per kind name.now extents.now file.now (behind attributes.now)) }
{
    let Some((first, _)) = attributes.split_first() else {
        return Ok(copied(alloc, file)?);
    };
    let new = placed_attr(alloc, per, extents, first)?;
    Ok(with_stream(alloc, kind, name, &new, file)?)
}

// A cluster has few sectors, and sizes fit the fields of an attribute.
fn bounds(per: ClusterSize, extents: &Extents)
    ensures few { per ≤ 8 }
    ensures fields { HasFields extents.now }
{
    let _sectors = per.sectors();
    let _allocated = extents.allocated;
    let _real = extents.real;
    let _initialised = extents.initialised;
}

/// The record with the stream of this type and name (in UTF-16 units) in these clusters (Linux-NTFS
/// documentation, "Attribute Header"): in one attribute, which is the stream's first by rising
/// VCNs, in the place of the one that stands first in the record; its others go. A record without
/// that stream is copied. The volume has `per` sectors a cluster; the runs follow one another from
/// VCN 0 on and are at most 65,536, and the type is neither that of standard information nor that of
/// file names. [`streams_are_placed`](crate::streams_are_placed) says what the record's streams are
/// then. It may use more than 1,024 bytes. The error is want of memory. It takes time and memory
/// linear in the record and the runs.
pub fn placed_record(
    alloc: Global,
    per: ClusterSize,
    kind: u32,
    name: &[u16],
    extents: &Extents,
    file: &FileRec,
) -> Result<FileRec, Memory>
    requires spelled { HasSpelling 0 extents.now.runs }
    requires few { length extents.now.runs ≤ 2 ^ 16 }
    requires kind { IsPlaceable kind }
    requires fits { FitsButRoom file.now }
    ensures value { IfOk result (λ r. r ≡ placed_record per kind name.now extents.now file.now) }
    ensures fits { IfOk result FitsButRoom }
{
    bounds(per, extents);
    let attributes = attributes_of(alloc, kind, name, file.attrs().as_slice())?;
    placed_first(alloc, per, kind, name, extents, file, &attributes)
}

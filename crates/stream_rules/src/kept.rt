//! What each stream keeps.
ghost use Rattle.std.specs.Prelude.{◌≡◌, ◌&&◌, true, IfOk, IfSome, IsTrue};
ghost use Rattle.std.specs.List.{list_all};
ghost use Rattle.state_model.specs.Streams.{attributes_of, stream_of};
ghost use Rattle.volume_model.specs.Sizes.{are_joined, fits_volume, keeps_stream};

use crate::fitting::fits_volume;
use crate::joins::is_joined;
use host_base::Memory;
use state_model::{Attr, ClusterSize, FILE_NAME};
use std::alloc::Global;
use stream_map::stream_of;

fn fits(
    alloc: Global,
    per: ClusterSize,
    clusters: u64,
    kind: u32,
    name: &[u16],
    attrs: &[Attr],
) -> Result<bool, Memory>
    ensures { IfOk result (λ fits. fits ≡ fits_volume per clusters (stream_of kind name.now attrs.now)) }
{
    let stream = stream_of(alloc, kind, name, attrs)?;
    Ok(fits_volume(per, clusters, &stream))
}

fn keeps_named(
    alloc: Global,
    per: ClusterSize,
    clusters: u64,
    kind: u32,
    name: &[u16],
    attrs: &[Attr],
) -> Result<bool, Memory>
    ensures { IfOk result (λ keeps. keeps ≡ (are_joined (attributes_of kind name.now attrs.now) && fits_volume per clusters (stream_of kind name.now attrs.now))) }
{
    Ok(is_joined(alloc, kind, name, attrs)? && fits(alloc, per, clusters, kind, name, attrs)?)
}

// Whether the stream that an attribute belongs to keeps what streams have to.
#[tactic(auto, unfolding(volume_model::specs::Sizes::keeps_stream))]
fn keeps_stream(
    alloc: Global,
    per: ClusterSize,
    clusters: u64,
    attrs: &[Attr],
    attr: &Attr,
) -> Result<bool, Memory>
    ensures { IfOk result (λ keeps. keeps ≡ keeps_stream per clusters attrs.now attr.now) }
{
    Ok(
        attr.head.kind == FILE_NAME
            || keeps_named(
                alloc,
                per,
                clusters,
                attr.head.kind,
                attr.name.as_slice(),
                attrs,
            )?,
    )
}

fn is_same_stream(a: &Attr, b: &Attr) -> bool
    ensures { IsTrue result → (a.now.head.kind ≡ b.now.head.kind) × (a.now.name ≡ b.now.name) }
{
    a.head.kind == b.head.kind && a.name.as_slice() == b.name.as_slice()
}

// The same, by that of the attribute before it: one of the same stream needs no second look.
#[tactic(auto, unfolding(volume_model::specs::Sizes::keeps_stream))]
fn keeps_next(
    alloc: Global,
    per: ClusterSize,
    clusters: u64,
    attrs: &[Attr],
    before: Option<&Attr>,
    attr: &Attr,
) -> Result<bool, Memory>
    requires before { IfSome before (λ b. keeps_stream per clusters attrs.now b.now ≡ true) }
    ensures { IfOk result (λ keeps. keeps ≡ keeps_stream per clusters attrs.now attr.now) }
{
    match before {
        Some(other) if is_same_stream(other, attr) => Ok(true),
        _ => keeps_stream(alloc, per, clusters, attrs, attr),
    }
}

/// Whether each stream that attributes belong to, but for file names, has every VCN, lies below
/// so many clusters and has lawful sizes (Linux-NTFS documentation, "Attribute Header"); a volume
/// has `per` sectors a cluster. The error is want of memory. Linear in the attributes and the runs
/// where the attributes of each stream stand one behind the other and by rising first VCN, for each
/// stream; else one such pass for each attribute.
pub fn keep_all(
    alloc: Global,
    per: ClusterSize,
    clusters: u64,
    attrs: &[Attr],
) -> Result<bool, Memory>
    ensures { IfOk result (λ keeps. keeps ≡ list_all (keeps_stream per clusters attrs.now) attrs.now) }
{
    let mut before: Option<&Attr> = None;
    for attr in attrs {
        if !keeps_next(alloc, per, clusters, attrs, before, attr)? {
            return Ok(false);
        }
        before = Some(attr);
    }
    Ok(true)
}

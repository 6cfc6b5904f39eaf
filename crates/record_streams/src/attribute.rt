//! The attribute of a stream in clusters.
ghost use Rattle.std.specs.Prelude.{◌≡◌, ◌+◌, ◌*◌, ◌<◌, ◌≤◌, ◌^◌, IfOk, length};
ghost use Rattle.record_writer.specs.record_model.Attributes.{is_compressed_or_sparse};
ghost use Rattle.record_writer.specs.record_model.Pairs.{cluster_limit, HasSpelling};
ghost use Rattle.stream_map.specs.state_model.Clusters.{IsClusterSize};
ghost use Rattle.record_streams.specs.Placing.{last_vcn, held_in, held_clusters, held_size, unit_of, placed_sizes, placed_attr};
ghost use Rattle.stream_map.specs.state_model.Loads.{total_clusters};

use record_writer::{Attr, Bytes, Memory, OwnForm, Run, Sizes, Units};
use std::alloc::Global;
use stream_map::{ClusterSize, Extents};
use stream_runs::total_clusters;

// The last VCN of so many clusters.
fn last_vcn(clusters: u64) -> u64
    ensures { result ≡ last_vcn clusters }
{
    if clusters == 0 {
        u64::MAX
    } else {
        clusters - 1
    }
}

// The clusters that the volume holds of a run.
fn held_in(run: &Run) -> u64
    ensures value { result ≡ held_in run.now }
    ensures most { result ≤ run.now.len }
{
    if run.lcn.is_some() { run.len } else { 0 }
}

// The clusters that the volume holds of runs.
fn held_clusters(runs: &[Run]) -> u64
    requires { total_clusters runs.now ≤ cluster_limit }
    ensures value { result ≡ held_clusters runs.now }
    ensures most { result ≤ cluster_limit }
{
    let mut held = 0;
    for run in runs {
        held += held_in(run);
    }
    held
}

// The size of what is held, where the attribute has that field.
fn held_size(flags: u16, bytes: u64) -> Option<u64>
    ensures { result ≡ held_size flags bytes }
{
    if flags % 2 == 1 || flags / 0x8000 % 2 == 1 {
        Some(bytes)
    } else {
        None
    }
}

// The compression unit of an attribute.
fn unit_of(form: &OwnForm) -> u16
    ensures { result ≡ unit_of form.now }
{
    match form {
        OwnForm::Resident { .. } => 0,
        OwnForm::Mapped { sizes, .. } => sizes.unit,
    }
}

// The sizes of a stream in these clusters.
fn placed_sizes(per: ClusterSize, flags: u16, unit: u16, extents: &Extents) -> Sizes
    requires { total_clusters extents.now.runs ≤ cluster_limit }
    ensures { result ≡ placed_sizes per flags unit extents.now }
{
    let runs = extents.runs.as_slice();
    Sizes {
        first: 0,
        last: last_vcn(total_clusters(runs)),
        unit,
        allocated: extents.allocated,
        real: extents.real,
        initialised: extents.initialised,
        held: held_size(flags, held_clusters(runs) * (512 * per.sectors())),
    }
}

/// An attribute in these clusters (Linux-NTFS documentation, "Attribute Header", "Data runs"): from
/// VCN 0 on, with these sizes and with mapping pairs in the fewest bytes; its head and its name
/// stay. The volume has `per` sectors a cluster; the runs follow one another from VCN 0 on. The
/// error is want of memory. It takes time and memory linear in the name and the runs.
pub fn placed_attr(
    alloc: Global,
    per: ClusterSize,
    extents: &Extents,
    attr: &Attr,
) -> Result<Attr, Memory>
    requires { HasSpelling 0 extents.now.runs }
    ensures { IfOk result (λ a. a ≡ placed_attr per extents.now attr.now) }
{
    let sizes = placed_sizes(per, attr.head.flags, unit_of(&attr.form), extents);
    let pairs = stream_map::write(alloc, &extents.runs)?;
    let name = Units::copy_of(alloc, attr.name.as_slice())?;
    Ok(Attr {
        head: attr.head,
        name,
        form: OwnForm::Mapped {
            sizes,
            pairs: Bytes::from(pairs),
        },
    })
}

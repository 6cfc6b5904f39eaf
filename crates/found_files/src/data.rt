//! A file's unnamed data.
ghost use Rattle.std.specs.Prelude.{◌≡◌, ◌↔◌, ℕ, true, IfOk};
ghost use Rattle.std.specs.List.{list_all};
ghost use Rattle.written_made.specs.record_streams.Fitting.{FitsButRoom};
ghost use Rattle.state_model.specs.Loads.{form_fits, has_fitting_pairs, has_all_pairs};
ghost use Rattle.state_model.specs.Streams.{attributes_of};
ghost use Rattle.volume_map.specs.stream_map.Attributes.{behind};
ghost use Rattle.volume_model.specs.Volumes.{size_or};
ghost use Rattle.volume_model.specs.Nodes.{valid_or, clusters_or};
ghost use Rattle.written_made.specs.data_plan.Changes.{BeginsAtZero, StandsBelow, HasData, ShowsData};
ghost use Rattle.found_files.specs.Parts.{ShowsStream};

use crate::placed::{lies_below, total_clusters};
use file_tree::Node;
use host_base::Memory;
use record_model::{Attr, DATA, OwnForm};
use state_model::Stream;
use std::alloc::Global;
use volume_map::{attributes_of, first_vcn, pairs_fit, stream_of};
use written_made::FileRec;

// Whether the mapping pairs of an attribute are read, and have its clusters.
fn form_fits(alloc: Global, form: &OwnForm) -> Result<bool, Memory>
    ensures { IfOk result (λ fits. fits ≡ form_fits form.now) }
{
    match form {
        OwnForm::Resident { .. } => Ok(true),
        OwnForm::Mapped { sizes, pairs } => pairs_fit(alloc, *sizes, pairs.as_slice()),
    }
}

// The same of each attribute.
fn all_fit(alloc: Global, attrs: &[Attr]) -> Result<bool, Memory>
    ensures { IfOk result (λ fit. fit ≡ list_all has_fitting_pairs attrs.now) }
{
    for attr in attrs {
        if !form_fits(alloc, &attr.form)? {
            return Ok(false);
        }
    }
    Ok(true)
}

/// The same of each attribute of a record (Linux-NTFS documentation, "Data runs"). The error is want
/// of memory. It takes time linear in the record.
#[tactic(auto, unfolding(state_model::specs::Loads::has_all_pairs))]
pub fn has_all_pairs(alloc: Global, file: &FileRec) -> Result<bool, Memory>
    ensures { IfOk result (λ fit. fit ≡ has_all_pairs file.now) }
{
    all_fit(alloc, file.attrs().as_slice())
}

// Whether there is a first attribute, from VCN 0 on.
fn first_at_zero(attributes: &[&Attr]) -> bool
    ensures { (result ≡ true) ↔ BeginsAtZero (behind attributes.now) }
{
    let Some((first, _)) = attributes.split_first() else {
        return false;
    };
    first_vcn(first) == 0
}

/// Whether a record has a stream of this type and name whose first attribute is from VCN 0 on
/// (Linux-NTFS documentation, "Attribute Header"). The error is want of memory. It takes time and
/// memory linear in the record's attributes.
pub fn begins_at_zero(
    alloc: Global,
    kind: u32,
    name: &[u16],
    file: &FileRec,
) -> Result<bool, Memory>
    ensures { IfOk result (λ begins. (begins ≡ true) ↔ BeginsAtZero (attributes_of kind name.now file.now.attrs)) }
{
    let attributes = attributes_of(alloc, kind, name, file.attrs().as_slice())?;
    Ok(first_at_zero(&attributes))
}

/// Whether a stream in clusters lies below so many, as [`lies_below`](crate::lies_below) says.
pub fn stands_below(clusters: u64, stream: &Option<Stream>) -> bool
    ensures { (result ≡ true) ↔ StandsBelow clusters stream.now }
{
    match stream {
        Some(Stream::Placed(extents)) => lies_below(clusters, extents),
        _ => true,
    }
}

// Whether the node has the sizes and the clusters of this stream.
fn shows_stream(node: &Node, stream: &Option<Stream>) -> bool
    requires { (clusters : ℕ) × StandsBelow clusters stream.now }
    ensures { (result ≡ true) ↔ ShowsStream node.now stream.now }
{
    match stream {
        Some(Stream::Held(value)) => {
            let size = value.len() as u64;
            node.size == size && node.valid == size && node.clusters == 0
        }
        Some(Stream::Placed(extents)) => {
            node.size == extents.real
                && node.valid == extents.initialised
                && node.clusters == total_clusters(&extents.runs)
        }
        None => node.size == 0 && node.valid == 0 && node.clusters == 0,
    }
}

/// Whether the file has unnamed data as a write asks for it, and the node shows it.
pub fn has_shown_data(
    alloc: Global,
    clusters: u64,
    file: &FileRec,
    node: &Node,
) -> Result<bool, Memory>
    requires fits { FitsButRoom file.now }
    ensures { IfOk result (λ has. (has ≡ true) ↔ (HasData clusters file.now × ShowsData node.now file.now)) }
{
    if !has_all_pairs(alloc, file)? || !begins_at_zero(alloc, DATA, &[], file)? {
        return Ok(false);
    }
    let stream = stream_of(alloc, DATA, &[], file.attrs().as_slice())?;
    if !stands_below(clusters, &stream) {
        return Ok(false);
    }
    Ok(shows_stream(node, &stream))
}

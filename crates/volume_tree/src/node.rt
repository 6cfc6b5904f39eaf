//! The nodes of a volume.
ghost use Rattle.std.specs.Prelude.{◌≡◌, ◌<◌, ◌++◌, [], IfOk, OnOk, length};
ghost use Rattle.std.specs.List.{range_with_len, filter_map, cons_option};
ghost use Rattle.state_model.specs.Files.{record_links};
ghost use Rattle.volume_map.specs.record_model.Records.{Record as the_record};
ghost use Rattle.state_model.specs.Loads.{data_stream};
ghost use Rattle.volume_map.specs.Maps.{volume_in};
ghost use Rattle.volume_model.specs.Nodes.{no_bytes, node_with, node_by, node_at, bare_nodes, data_shown, why_not};

use crate::kind::{Data, kind_in, shows_data, why_not};
use crate::names::NamedVolume;
use crate::stream::{clusters_or, data_flags, data_stream, has_hole, size_or, valid_or};
use host_base::{Bytes, Memory};
use record_rules::{file_at, has_type, info_of, links_of};
use state_model::{FIRST_USER_RECORD, Kind, Link, Node, NodeList, Stream, Why};
use std::alloc::{AllocError, Global};
use volume_map::{FileRec, OBJECT_ID};

// The node of this kind that shows this data, without bytes.
#[tactic(auto, unfolding(volume_model::specs::Nodes::node_with))]
fn node_with(
    alloc: Global,
    number: u64,
    file: &FileRec,
    kind: Kind,
    why: Option<Why>,
    shown: &Option<Stream>,
) -> Result<Node, Memory>
    requires { why ≡ why_not file.now }
    ensures { IfOk result (λ node. node ≡ node_with number file.now kind shown.now []) }
{
    let info = info_of(file);
    Ok(Node {
        number,
        seq: file.head().seq,
        kind,
        why,
        held: has_type(OBJECT_ID, file),
        size: size_or(shown),
        valid: valid_or(shown),
        clusters: clusters_or(shown)?,
        bytes: Bytes::new(alloc),
        flags: info.flags,
        created: info.created,
        modified: info.modified,
        changed: info.changed,
        read_at: info.read_at,
    })
}

// The data that a file of this kind shows.
fn data_shown(kind: Kind, stream: Option<Stream>) -> Option<Stream>
    ensures { (r : the_record) → stream ≡ data_stream r → result ≡ data_shown kind r }
{
    if shows_data(kind) { stream } else { None }
}

// The node of the file with this number and these names.
#[tactic(auto, unfolding(volume_model::specs::Nodes::node_by))]
fn node_of(
    alloc: Global,
    volume: &NamedVolume,
    number: u64,
    file: &FileRec,
    links: &[Link],
) -> Result<Node, Memory>
    requires links { links.now ≡ record_links number file.now }
    ensures { IfOk result (λ node. node ≡ node_by no_bytes (volume_in volume.now.map.now) number file.now) }
{
    let stream = data_stream(alloc, file)?;
    let about = Data {
        flags: data_flags(file),
        has_hole: has_hole(&stream),
    };
    let kind = kind_in(volume, number, file, links, about);
    let why = why_not(file, about);
    node_with(alloc, number, file, kind, why, &data_shown(kind, stream))
}

/// The node of the file with this number without its bytes, if it has one. The error is want of
/// memory. It takes time linear in the attributes and runs of the file, and in its names.
#[tactic(auto, using(record_rules::proofs::Links::links_found), unfolding(volume_model::specs::Nodes::node_at, state_model::specs::Trees::is_nameless, state_model::specs::Files::links_at))]
pub fn node_at(alloc: Global, volume: &NamedVolume, number: u64) -> Result<Option<Node>, Memory>
    ensures value { IfOk result (λ node. node ≡ node_at no_bytes (volume_in volume.now.map.now) number) }
{
    let Some(file) = file_at(&volume.map.files, number) else {
        return Ok(None);
    };
    let names = links_of(&volume.names.links, number);
    if number < FIRST_USER_RECORD && names.is_empty() {
        return Ok(None);
    }
    Ok(Some(node_of(alloc, volume, number, file, names)?))
}

fn push_some(nodes: &mut NodeList, node: Option<Node>) -> Result<(), AllocError>
    ensures { OnOk result (nodes.new ≡ nodes.old ++ cons_option node []) }
{
    match node {
        Some(node) => nodes.push(node),
        None => Ok(()),
    }
}

/// The nodes of a volume by number, without their bytes: base records in use, but those of the
/// volume itself that have no name. The error is want of memory.
///
/// Linear in the attributes and runs of the files, and in their names times how deep these stand.
#[tactic(auto, using(crate::proofs::Nodes::nodes_more), unfolding(volume_model::specs::Nodes::nodes_by))]
pub fn bare_nodes(alloc: Global, volume: &NamedVolume) -> Result<NodeList, Memory>
    ensures value { IfOk result (λ nodes. nodes ≡ bare_nodes (volume_in volume.now.map.now)) }
{
    let mut nodes = NodeList::new(alloc);
    for number in 0..volume.map.files.len() {
        let node = node_at(alloc, volume, number as u64)?;
        push_some(&mut nodes, node)?;
    }
    Ok(nodes)
}

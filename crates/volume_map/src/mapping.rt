//! The loading of a volume.
ghost use Rattle.std.specs.Prelude.{◌≡◌, ◌*◌, ◌^◌, ◌<◌, length, IfOk, IfSome};
ghost use Rattle.volume_model.specs.host_base.Answers.{GivesOrFails};
ghost use Rattle.volume_model.specs.Volumes.{volume_of, record_bits, cluster_bits};
ghost use Rattle.volume_map.specs.Errors.{map_cause, NeverRefused};
ghost use Rattle.volume_map.specs.Maps.{volume_in, IsMapOf};
ghost use Rattle.stream_map.specs.block_view.Views.{AsksView};

use crate::bits::{cluster_bits, record_bits};
use crate::fault::MapFault;
use crate::loading::{TableRead, read_table};
use crate::map::VolumeMap;
use crate::table::table_of;
use state_model::{Extents, Geometry};
use std::alloc::Global;
use stream_map::{Body, View};

// The map of a volume whose file table was read: with the bits of its bitmaps.
#[tactic(auto, unfolding(volume_model::specs::Volumes::record_bits, volume_model::specs::Volumes::cluster_bits))]
fn with_bits<V: View>(
    alloc: Global,
    view: &mut V,
    geometry: &Geometry,
    clusters: u64,
    table: Extents,
    read: TableRead,
    body: &mut Body,
) -> Result<VolumeMap, MapFault>
    requires place { geometry.now.mft * geometry.now.per_cluster < 2 ^ 62 }
    ensures volume { IfOk result (λ map. volume_in map ≡ record { per = geometry.now.per_cluster; clusters = clusters; mft = geometry.now.mft; table = table; files = read.files.items }) }
    ensures heads { IfOk result (λ map. map.heads.items ≡ read.heads.items) }
    ensures records { IfSome (V.content view.old) (λ c. IfOk result (λ map. map.record_bits ≡ record_bits c (volume_in map))) }
    ensures clusters { IfSome (V.content view.old) (λ c. IfOk result (λ map. map.cluster_bits ≡ cluster_bits c (volume_in map))) }
    ensures kept { AsksView V.content V.kept V.faults map_cause view.old view.new result }
    ensures certain { NeverRefused result }
{
    let per = geometry.per_cluster;
    let records_marked = record_bits(alloc, view, per, &read.files, body)?;
    let clusters_marked = cluster_bits(alloc, view, per, &read.files, clusters, body)?;
    Ok(VolumeMap {
        per_cluster: per,
        clusters,
        mft: geometry.mft,
        table,
        files: read.files,
        heads: read.heads,
        record_bits: records_marked,
        cluster_bits: clusters_marked,
    })
}

/// The volume that a view's content is, of so many clusters: its file table, its files as
/// [`load`](crate::load) gives them, the heads of all records, and the bits of the records and of
/// the clusters (Linux-NTFS documentation, "$Bitmap"). A bit past the end of a bitmap's data is
/// clear; bits behind those of the last record and of the last cluster are none.
///
/// - [`MapFault::Refused`]: the first of the refusals of `load`; a bitmap is never refused.
/// - [`MapFault::View`]: the view failed.
/// - [`MapFault::Memory`]: want of memory.
///
/// It reads what `load` reads, each record once, and then as many bytes of the two bitmaps as there
/// are records and clusters. It costs what `load` costs, and time and memory linear in the
/// clusters.
#[tactic(auto, unfolding(volume_model::specs::Volumes::volume_of))]
pub fn load_volume<V: View>(
    alloc: Global,
    view: &mut V,
    geometry: &Geometry,
    clusters: u64,
) -> Result<VolumeMap, MapFault>
    requires place { geometry.now.mft * geometry.now.per_cluster < 2 ^ 62 }
    ensures answer { IfSome (V.content view.old) (λ c. GivesOrFails volume_in map_cause result (volume_of c geometry.now clusters)) }
    ensures parts { IfSome (V.content view.old) (λ c. IfOk result (IsMapOf c)) }
    ensures kept { AsksView V.content V.kept V.faults map_cause view.old view.new result }
{
    let mut body = Body::empty(alloc)?;
    let table = table_of(alloc, view, geometry, &mut body)?;
    let read = read_table(alloc, view, geometry.per_cluster, &table, &mut body)?;
    with_bits(alloc, view, geometry, clusters, table, read, &mut body)
}

//! The long names of a volume's files.
ghost use Rattle.std.specs.Prelude.{◌≡◌, ◌*◌, ◌^◌, ◌<◌, ◌≤◌, IfSome};
ghost use Rattle.host_base.specs.Answers.{Gives, GivesOrFails};
ghost use Rattle.disk_model.specs.declared.block.BlockKind.TheVariants.{FileRec as file_kind};
ghost use Rattle.state_model.specs.Streams.{has_cut_block};
ghost use Rattle.state_model.specs.Loads.{most_records, record_count};
ghost use Rattle.volume_map.specs.Errors.{map_cause};
ghost use Rattle.volume_links.specs.Names.{links_in, loaded_links};
ghost use Rattle.volume_links.specs.Scans.{verdict_of};
ghost use Rattle.block_view.specs.Views.{AsksView};

use crate::names::long_links;
use crate::scanning::{Scan, scan_table};
use block_view::View;
use disk_model::{BlockKind, Body};
use file_tree::Link;
use state_model::{ClusterSize, Extents, Geometry};
use std::alloc::Global;
use volume_map::{MapFault, files_in, has_cut_block, table_of};

// The long names of the files of a table, of which some may have attribute lists.
fn links_of_files<V: View>(
    alloc: Global,
    view: &mut V,
    per: ClusterSize,
    extents: &Extents,
    body: &mut Body,
) -> Result<Vec<Link>, MapFault>
    requires records { record_count extents.now ≤ most_records }
    ensures answer { IfSome (V.content view.old) (λ c. GivesOrFails (λ links. links.items) map_cause result (links_in c per extents.now)) }
    ensures kept { AsksView V.content V.kept V.faults map_cause view.old view.new result }
{
    let files = files_in(alloc, view, per, extents, body)?;
    Ok(long_links(alloc, &files)?)
}

// What a scan of the whole table says.
fn scanned(scan: Scan) -> Result<Vec<Link>, MapFault>
    ensures { Gives (λ links. links.items) map_cause result (verdict_of scan) }
{
    match scan.refusal {
        None => Ok(scan.links),
        Some(refusal) => Err(MapFault::Refused(refusal)),
    }
}

// The long names of the files of a table with these clusters.
fn links_in<V: View>(
    alloc: Global,
    view: &mut V,
    per: ClusterSize,
    extents: &Extents,
    body: &mut Body,
) -> Result<Vec<Link>, MapFault>
    requires records { record_count extents.now ≤ most_records }
    ensures answer { IfSome (V.content view.old) (λ c. GivesOrFails (λ links. links.items) map_cause result (links_in c per extents.now)) }
    ensures kept { AsksView V.content V.kept V.faults map_cause view.old view.new result }
{
    let runs = extents.runs.as_slice();
    let cut = has_cut_block(per, BlockKind::FileRec, extents.real / 1024, runs);
    match scan_table(alloc, view, per, extents, cut, body)? {
        Some(scan) => scanned(scan),
        None => links_of_files(alloc, view, per, extents, body),
    }
}

/// The long names of the files that `volume_map::load` answers, by the files' numbers, and of each
/// file as they stand in its records; or its errors.
///
/// It reads each record once, and keeps only the names, as long as no file has an attribute list:
/// time is then linear in the records of the table, and for each of them in the runs of the table,
/// and memory is linear in the names. At the first file with an attribute list it begins again as
/// `load` does, and costs what that does.
pub fn load_links<V: View>(
    alloc: Global,
    view: &mut V,
    geometry: &Geometry,
) -> Result<Vec<Link>, MapFault>
    requires place { geometry.now.mft * geometry.now.per_cluster < 2 ^ 62 }
    ensures answer { IfSome (V.content view.old) (λ c. GivesOrFails (λ links. links.items) map_cause result (loaded_links c geometry.now)) }
    ensures kept { AsksView V.content V.kept V.faults map_cause view.old view.new result }
{
    let mut body = Body::empty(alloc)?;
    let extents = table_of(alloc, view, geometry, &mut body)?;
    links_in(alloc, view, geometry.per_cluster, &extents, &mut body)
}

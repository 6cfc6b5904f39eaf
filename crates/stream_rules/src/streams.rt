//! What the streams of one file keep.
ghost use Rattle.std.specs.Prelude.{◌≡◌, ◌&&◌, List, Option, Ok, IfOk, IfSome};
ghost use Rattle.std.specs.List.{list_all};
ghost use Rattle.host_base.specs.Answers.{GivesOrFails};
ghost use Rattle.stream_map.specs.record_model.Records.{Record as a_record};
ghost use Rattle.stream_rules.specs.Errors.{sizes_cause};
ghost use Rattle.block_view.specs.Views.{AsksView};
ghost use Rattle.stream_rules.specs.Volumes.{TablePlace, volume_with};
ghost use Rattle.volume_model.specs.Sizes.{keeps_stream, keeps_whole, keeps_table, keeps_streams};

use crate::fault::SizesFault;
use crate::kept::keep_all;
use crate::torn::keeps_untorn;
use crate::whole::{keeps_table, keeps_whole};
use block_view::View;
use disk_model::Body;
use file_record::FileRec;
use host_base::Memory;
use state_model::ClusterSize;
use std::alloc::Global;

// What they keep, but for torn blocks.
fn keeps_shape(
    alloc: Global,
    per: ClusterSize,
    clusters: u64,
    number: u64,
    file: &FileRec,
) -> Result<bool, Memory>
    ensures { IfOk result (λ keeps. keeps ≡ (list_all (keeps_stream per clusters file.now.attrs) file.now.attrs && keeps_whole number file.now && keeps_table number file.now)) }
{
    Ok(
        keep_all(alloc, per, clusters, file.attrs().as_slice())?
            && keeps_whole(alloc, number, file)?
            && keeps_table(alloc, number, file)?,
    )
}

/// Whether the streams of the file with this number keep what streams have to, in a volume of `per`
/// sectors a cluster and so many clusters (Linux-NTFS documentation, "Attribute Header" and
/// "$MFT"):
///
/// - each has every VCN, lies in the volume, and its initialised size is at most its real size,
///   this at most the allocated one, and this is that of its clusters; file names aside;
/// - the unnamed data of `$MFT`, `$MFTMirr`, `$LogFile` and `$Bitmap`, the bitmap of `$MFT`, and
///   the index allocation and the bitmap of a directory's `$I30` have no sparse run;
/// - the data of `$MFT` is initialised up to its real size;
/// - no file record of `$MFT` or `$MFTMirr`, and no block of a directory's `$I30`, is torn, where
///   it lies in one run and begins below its stream's initialised size.
///
/// `body` is room for a body. Linear in the attributes and the runs where the attributes of each
/// stream stand one behind the other, for each stream; else one such pass for each attribute. The
/// blocks of `$MFT`, `$MFTMirr` and a directory alone are read, each once and in order, along the
/// runs; and only where the sizes are lawful, so that they are no more than the stream's clusters
/// have room for.
///
/// - [`SizesFault::View`]: the view failed, and counts it.
/// - [`SizesFault::Memory`]: there is no memory left.
pub fn keeps_streams<V: View>(
    alloc: Global,
    view: &mut V,
    per: ClusterSize,
    clusters: u64,
    number: u64,
    file: &FileRec,
    body: &mut Body,
) -> Result<bool, SizesFault>
    ensures value { (e : TablePlace) (files : List (Option a_record)) → IfSome (V.content view.old) (λ c. GivesOrFails (λ keeps. keeps) sizes_cause result (Ok (keeps_streams c (volume_with per clusters e files) number file.now))) }
    ensures kept { AsksView V.content V.kept V.faults sizes_cause view.old view.new result }
{
    if !keeps_shape(alloc, per, clusters, number, file)? {
        return Ok(false);
    }
    keeps_untorn(alloc, view, per, number, file, body)
}

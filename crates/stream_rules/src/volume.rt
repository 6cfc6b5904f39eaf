//! What the streams of all files keep, and the lengths of the bitmaps.
ghost use Rattle.std.specs.Prelude.{◌≡◌, ◌==◌, ◌*◌, ◌&&◌, [], nat_le, max, length, Ok, IfOk, IfSome};
ghost use Rattle.host_base.specs.Answers.{GivesOrFails};
ghost use Rattle.stream_map.specs.record_model.Constants.{data_type, bitmap_type};
ghost use Rattle.state_model.specs.Files.{file_at};
ghost use Rattle.state_model.specs.Loads.{table_in};
ghost use Rattle.state_model.specs.Rules.{implies, at_file, first_failing};
ghost use Rattle.stream_rules.specs.Errors.{sizes_cause};
ghost use Rattle.block_view.specs.Views.{AsksView};
ghost use Rattle.stream_rules.specs.Volumes.{TablePlace, volume_with};
ghost use Rattle.volume_model.specs.Sizes.{keeps_streams, keeps_bitmaps, keeps_sizes};
ghost use Rattle.volume_model.specs.Volumes.{file_stream, size_or, bitmap_file, table_file};

use crate::fault::SizesFault;
use crate::streams::keeps_streams;
use crate::whole::{BITMAP, TABLE};
use block_view::View;
use disk_model::Body;
use file_record::{FileRec, file_at};
use host_base::Memory;
use state_model::{BITMAP_TYPE, ClusterSize, DATA, Stream};
use std::alloc::Global;
use stream_map::{real_size, stream_of};

/// The numbers of the files whose bitmaps are tried, also where no file has them.
const LEAST_COUNT: u64 = 7;

fn size_or(stream: &Option<Stream>) -> u64
    ensures { result ≡ size_or stream.now }
{
    match stream {
        None => 0,
        Some(stream) => real_size(stream),
    }
}

// The real size of the unnamed stream of this type of the file with this number.
fn size_in(alloc: Global, files: &[Option<FileRec>], number: u64, kind: u32) -> Result<u64, Memory>
    ensures { IfOk result (λ size. size ≡ size_or (file_stream kind [] (file_at (table_in files.now) number))) }
{
    let Some(file) = file_at(files, number) else {
        return Ok(0);
    };
    let stream = stream_of(alloc, kind, &[], file.attrs().as_slice())?;
    Ok(size_or(&stream))
}

// Whether that stream has so many bits.
fn has_bits(
    alloc: Global,
    files: &[Option<FileRec>],
    number: u64,
    kind: u32,
    count: u64,
) -> Result<bool, Memory>
    ensures { IfOk result (λ has. has ≡ nat_le count (8 * size_or (file_stream kind [] (file_at (table_in files.now) number)))) }
{
    let size = size_in(alloc, files, number, kind)?;
    Ok(u128::from(count) <= 8 * u128::from(size))
}

fn keeps_record_bits(alloc: Global, files: &[Option<FileRec>], number: u64) -> Result<bool, Memory>
    ensures { IfOk result (λ keeps. keeps ≡ implies (number == table_file) (nat_le (length files.now) (8 * size_or (file_stream bitmap_type [] (file_at (table_in files.now) table_file))))) }
{
    Ok(number != TABLE || has_bits(alloc, files, TABLE, BITMAP_TYPE, files.len() as u64)?)
}

fn keeps_cluster_bits(
    alloc: Global,
    clusters: u64,
    files: &[Option<FileRec>],
    number: u64,
) -> Result<bool, Memory>
    ensures { IfOk result (λ keeps. keeps ≡ implies (number == bitmap_file) (nat_le clusters (8 * size_or (file_stream data_type [] (file_at (table_in files.now) bitmap_file))))) }
{
    Ok(number != BITMAP || has_bits(alloc, files, BITMAP, DATA, clusters)?)
}

// Whether the bitmap of records, at the number of `$MFT`, and that of clusters, at the number of
// `$Bitmap`, are long enough.
#[tactic(auto, unfolding(volume_model::specs::Sizes::keeps_bitmaps))]
fn keeps_bitmaps(
    alloc: Global,
    per: ClusterSize,
    clusters: u64,
    files: &[Option<FileRec>],
    number: u64,
) -> Result<bool, Memory>
    ensures { (e : TablePlace) → IfOk result (λ keeps. keeps ≡ keeps_bitmaps (volume_with per clusters e files.now) number) }
{
    Ok(
        keeps_record_bits(alloc, files, number)?
            && keeps_cluster_bits(alloc, clusters, files, number)?,
    )
}

// Whether the streams of a file, if there is one with this number, keep what they have to.
fn keeps_file<V: View>(
    alloc: Global,
    view: &mut V,
    per: ClusterSize,
    clusters: u64,
    files: &[Option<FileRec>],
    number: u64,
    body: &mut Body,
) -> Result<bool, SizesFault>
    ensures value { (e : TablePlace) → IfSome (V.content view.old) (λ c. IfOk result (λ keeps. keeps ≡ at_file (keeps_streams c (volume_with per clusters e files.now) number) (file_at (table_in files.now) number))) }
    ensures kept { AsksView V.content V.kept V.faults sizes_cause view.old view.new result }
{
    match file_at(files, number) {
        None => Ok(true),
        Some(file) => keeps_streams(alloc, view, per, clusters, number, file, body),
    }
}

// Whether the rule holds at this number.
fn keeps_sizes<V: View>(
    alloc: Global,
    view: &mut V,
    per: ClusterSize,
    clusters: u64,
    files: &[Option<FileRec>],
    number: u64,
    body: &mut Body,
) -> Result<bool, SizesFault>
    ensures value { (e : TablePlace) → IfSome (V.content view.old) (λ c. IfOk result (λ keeps. keeps ≡ keeps_sizes c (volume_with per clusters e files.now) number)) }
    ensures kept { AsksView V.content V.kept V.faults sizes_cause view.old view.new result }
{
    if !keeps_bitmaps(alloc, per, clusters, files, number)? {
        return Ok(false);
    }
    keeps_file(alloc, view, per, clusters, files, number, body)
}

/// The least number at which streams don't keep what they have to, if there is one: of a file whose
/// streams don't (see [`keeps_streams`]), 0 where the bitmap of `$MFT` has no bit for some record,
/// and 6 where the data of `$Bitmap` has none for some cluster (Linux-NTFS documentation,
/// "$Bitmap"). A volume has `per` sectors a cluster and so many clusters; `files` are its files by
/// number, each with all its attributes. `body` is room for a body.
///
/// It takes what [`keeps_streams`] takes for each file up to the answer, and memory for the streams
/// of one file.
///
/// - [`SizesFault::View`]: the view failed, and counts it.
/// - [`SizesFault::Memory`]: there is no memory left.
pub fn first_broken<V: View>(
    alloc: Global,
    view: &mut V,
    per: ClusterSize,
    clusters: u64,
    files: &[Option<FileRec>],
    body: &mut Body,
) -> Result<Option<u64>, SizesFault>
    ensures value { (e : TablePlace) → IfSome (V.content view.old) (λ c. GivesOrFails (λ number. number) sizes_cause result (Ok (first_failing (keeps_sizes c (volume_with per clusters e files.now)) (max (length files.now) 7)))) }
    ensures kept { AsksView V.content V.kept V.faults sizes_cause view.old view.new result }
{
    let count = (files.len() as u64).max(LEAST_COUNT);
    for number in 0..count {
        if !keeps_sizes(alloc, view, per, clusters, files, number, body)? {
            return Ok(Some(number));
        }
    }
    Ok(None)
}

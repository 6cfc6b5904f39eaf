//! The bits of bitmaps.
ghost use Rattle.std.specs.Prelude.{◌≡◌, ◌*◌, ◌≤◌, [], length, IfOk, IfSome};
ghost use Rattle.volume_model.specs.bit_set.Words.{bits_of_bytes};
ghost use Rattle.record_model.specs.Constants.{data_type, bitmap_type};
ghost use Rattle.state_model.specs.Files.{file_at};
ghost use Rattle.state_model.specs.Loads.{table_in};
ghost use Rattle.state_model.specs.Streams.{stream_bytes};
ghost use Rattle.volume_map.specs.Errors.{map_cause, NeverRefused};
ghost use Rattle.stream_map.specs.block_view.Views.{AsksView};
ghost use Rattle.volume_model.specs.Volumes.{file_stream, bytes_or, table_file, bitmap_file};

use crate::fault::MapFault;
use crate::streams::{file_stream, stream_or_empty};
use file_record::FileRec;
use record_model::{BITMAP_TYPE, DATA};
use state_model::{ClusterSize, Stream};
use std::alloc::{AllocError, Global};
use stream_map::{Body, View, front};
use volume_model::BitSet;

// The numbers of the files of the file table and of the clusters' bitmap.
const TABLE_FILE: u64 = 0;

const BITMAP_FILE: u64 = 6;

// So many zeros.
fn zeros(alloc: Global, count: usize) -> Result<Vec<u8>, AllocError>
    ensures { IfOk result (λ room. length room.items ≡ count) }
{
    vec![in alloc; 0u8; count]
}

// How many bytes so many bits take.
fn bytes_for(count: u64) -> usize
    ensures { count ≤ 8 * result }
{
    (count / 8 + 1) as usize
}

// The first so many bits of a stream; `room` is room for their bytes.
fn front_bits<V: View>(
    alloc: Global,
    view: &mut V,
    per: ClusterSize,
    stream: &Stream,
    count: u64,
    body: &mut Body,
    room: &mut [u8],
) -> Result<BitSet, MapFault>
    requires enough { count ≤ 8 * length room.old }
    ensures value { IfSome (V.content view.old) (λ c. IfOk result (λ bits. bits ≡ bits_of_bytes (stream_bytes c per stream.now) count)) }
    ensures kept { AsksView V.content V.kept V.faults map_cause view.old view.new result }
    ensures certain { NeverRefused result }
{
    front(view, per, stream, 0, body, room)?;
    Ok(BitSet::from_bytes(alloc, room, count)?)
}

// The first so many bits of a stream.
fn stream_bits<V: View>(
    alloc: Global,
    view: &mut V,
    per: ClusterSize,
    stream: &Stream,
    count: u64,
    body: &mut Body,
) -> Result<BitSet, MapFault>
    ensures value { IfSome (V.content view.old) (λ c. IfOk result (λ bits. bits ≡ bits_of_bytes (stream_bytes c per stream.now) count)) }
    ensures kept { AsksView V.content V.kept V.faults map_cause view.old view.new result }
    ensures certain { NeverRefused result }
{
    let mut room = zeros(alloc, bytes_for(count))?;
    front_bits(alloc, view, per, stream, count, body, &mut room)
}

/// The bits of the clusters of a volume with these files and so many clusters, set where a cluster
/// is in use; a bit past the end of the data of `$Bitmap` is clear, and one past the volume's end
/// is none. `body` is room for a body. It reads as many bytes as there are bits for, and takes time
/// and memory linear in these.
pub fn cluster_bits<V: View>(
    alloc: Global,
    view: &mut V,
    per: ClusterSize,
    files: &[Option<FileRec>],
    clusters: u64,
    body: &mut Body,
) -> Result<BitSet, MapFault>
    ensures value { IfSome (V.content view.old) (λ c. IfOk result (λ bits. bits ≡ bits_of_bytes (bytes_or c per (file_stream data_type [] (file_at (table_in files.now) bitmap_file))) clusters)) }
    ensures kept { AsksView V.content V.kept V.faults map_cause view.old view.new result }
    ensures certain { NeverRefused result }
{
    let found = file_stream(alloc, files, BITMAP_FILE, DATA)?;
    let stream = stream_or_empty(alloc, found);
    stream_bits(alloc, view, per, &stream, clusters, body)
}

/// The bits of the file table's records, set where a record is in use; a bit past the end of the
/// table's bitmap is clear, and one past the last record is none. `body` is room for a body. It
/// reads as many bytes as there are bits for, and takes time and memory linear in these.
pub fn record_bits<V: View>(
    alloc: Global,
    view: &mut V,
    per: ClusterSize,
    files: &[Option<FileRec>],
    body: &mut Body,
) -> Result<BitSet, MapFault>
    ensures value { IfSome (V.content view.old) (λ c. IfOk result (λ bits. bits ≡ bits_of_bytes (bytes_or c per (file_stream bitmap_type [] (file_at (table_in files.now) table_file))) (length files.now))) }
    ensures kept { AsksView V.content V.kept V.faults map_cause view.old view.new result }
    ensures certain { NeverRefused result }
{
    let found = file_stream(alloc, files, TABLE_FILE, BITMAP_TYPE)?;
    let stream = stream_or_empty(alloc, found);
    stream_bits(alloc, view, per, &stream, files.len() as u64, body)
}

//! Streams of the volume's own files.
ghost use Rattle.std.specs.Prelude.{◌≡◌, ℕ, [], IfOk, IfSome};
ghost use Rattle.stream_map.specs.disk_model.Content.{Content as the_content};
ghost use Rattle.state_model.specs.Files.{file_at};
ghost use Rattle.state_model.specs.Loads.{table_in};
ghost use Rattle.state_model.specs.Streams.{stream_bytes};
ghost use Rattle.volume_model.specs.Volumes.{file_stream, bytes_or};

use file_record::{FileRec, file_at};
use state_model::Stream;
use std::alloc::Global;
use stream_map::stream_of;
use volume_model::{Bytes, Memory};

/// The unnamed stream of this type of the file with this number, if it has one; `files` are the
/// files of a volume by number. The error is want of memory. It takes time and memory linear in the
/// attributes of that file.
pub fn file_stream(
    alloc: Global,
    files: &[Option<FileRec>],
    number: u64,
    kind: u32,
) -> Result<Option<Stream>, Memory>
    ensures value { IfOk result (λ stream. stream ≡ file_stream kind [] (file_at (table_in files.now) number)) }
{
    match file_at(files, number) {
        Some(file) => stream_of(alloc, kind, &[], file.attrs().as_slice()),
        None => Ok(None),
    }
}

/// The stream, or one of no bytes where there is none; this takes no memory.
pub fn stream_or_empty(alloc: Global, stream: Option<Stream>) -> Stream
    ensures bytes { (c : the_content) (per : ℕ) → stream_bytes c per result ≡ bytes_or c per stream }
{
    match stream {
        Some(stream) => stream,
        None => Stream::Held(Bytes::new(alloc)),
    }
}

//! Bitmaps that a plan may change.
ghost use Rattle.std.specs.Prelude.{◌≡◌, ◌↔◌, ◌<◌, ◌≤◌, ◌^◌, true, IfOk};
ghost use Rattle.draft_growth.specs.record_streams.Fitting.{FitsButRoom, IsPlaceable};
ghost use Rattle.draft_growth.specs.draft_bitmaps.Bitmaps.{bit_count, IsBitmap, IsShortPlaced, IsShortStream};
ghost use Rattle.planned_streams.specs.Planned.{bitmap_in, IsWhere};

use crate::spelling::have_spelling;
use draft_growth::{Bitmap, Extents, FileRec, Stream, stream_of};
use host_base::Memory;
use std::alloc::Global;

// How many runs a stream may have, and how many bytes a value.
const FEW: usize = 65_536;

// The initialised size of a bitmap in clusters is below this one.
const SIZE_LIMIT: u64 = 0x2000_0000_0000_0000;

fn is_short_placed(extents: &Extents) -> bool
    ensures { (result ≡ true) ↔ IsShortPlaced extents.now }
{
    if extents.runs.len() > FEW || extents.initialised >= SIZE_LIMIT {
        return false;
    }
    have_spelling(&extents.runs)
}

// Whether a stream may be given other bits.
fn is_short(stream: &Stream) -> bool
    ensures { (result ≡ true) ↔ IsShortStream stream.now }
{
    match stream {
        Stream::Held(value) => value.len() <= FEW,
        Stream::Placed(extents) => is_short_placed(extents),
    }
}

/// Whether a bitmap that is this stream has so many bits: those of its value, or of its real size. In
/// constant time.
pub fn has_bits(stream: &Stream, count: u64) -> bool
    ensures { (result ≡ true) ↔ (count ≤ bit_count stream.now) }
{
    let bytes = match stream {
        Stream::Held(value) => value.len() as u64,
        Stream::Placed(extents) => extents.real,
    };
    count <= bytes.saturating_mul(8)
}

/// The bitmap that is the unnamed stream of this type in the record of the file with this number, as
/// the data of `$Bitmap` (record 6) or the bitmap of `$MFT` (record 0; Linux-NTFS documentation,
/// "$Bitmap"), where [`put_bits_of`](draft_bitmaps::put_bits_of) may change it: none where the file
/// has no such stream, where its runs have no spelling, or where it is too large, with more than 65,536
/// runs or bytes of a value. The file is one that was read, as
/// [`file`](draft_records::file) gives it. The error is want of memory. It takes time linear in the
/// record's attributes and the stream's runs where the attributes stand by rising first VCN.
pub fn bitmap_of(
    alloc: Global,
    number: u64,
    kind: u32,
    file: FileRec,
) -> Result<Option<Bitmap>, Memory>
    requires number { number < 2 ^ 48 }
    requires kind { IsPlaceable kind }
    requires fits { FitsButRoom file }
    ensures value { IfOk result (λ bitmap. IsWhere IsBitmap (bitmap_in number kind file) bitmap) }
{
    let Some(stream) = stream_of(alloc, kind, &[], file.attrs().as_slice())? else {
        return Ok(None);
    };
    if !is_short(&stream) {
        return Ok(None);
    }
    Ok(Some(Bitmap {
        number,
        kind,
        file,
        stream,
    }))
}

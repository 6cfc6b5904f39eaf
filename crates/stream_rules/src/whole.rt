//! The streams of the volume itself and of indexes: no sparse run, and the file table is
//! initialised.
ghost use Rattle.std.specs.Prelude.{◌≡◌, ◌==◌, ◌&&◌, not, [], IfOk};
ghost use Rattle.stream_map.specs.record_model.Constants.{data_type, names_index, index_allocation, bitmap_type};
ghost use Rattle.state_model.specs.Files.{is_directory_record};
ghost use Rattle.state_model.specs.Rules.{implies};
ghost use Rattle.state_model.specs.Streams.{stream_of};
ghost use Rattle.volume_model.specs.Sizes.{has_hole, is_whole_file, keeps_whole, keeps_table, is_initialised};
ghost use Rattle.volume_model.specs.Volumes.{table_file};

use crate::fitting::{has_hole, is_initialised};
use file_record::FileRec;
use host_base::Memory;
use state_model::{Attr, BITMAP_TYPE, DATA, INDEX_ALLOCATION, NAMES_INDEX, RecordFlags};
use std::alloc::Global;
use stream_map::stream_of;

/// The files of the volume itself, by number.
pub const TABLE: u64 = 0;

pub const MIRROR: u64 = 1;

pub const LOG: u64 = 2;

pub const BITMAP: u64 = 6;

/// Whether the file is a directory.
pub fn is_directory(file: &FileRec) -> bool
    ensures { result ≡ is_directory_record file.now }
{
    RecordFlags::has_directory(file.head().flags)
}

// Whether the stream with this type and name has no sparse run.
fn is_whole(alloc: Global, kind: u32, name: &[u16], attrs: &[Attr]) -> Result<bool, Memory>
    ensures { IfOk result (λ whole. whole ≡ not (has_hole (stream_of kind name.now attrs.now))) }
{
    let stream = stream_of(alloc, kind, name, attrs)?;
    Ok(!has_hole(&stream))
}

fn is_whole_file(number: u64) -> bool
    ensures { result ≡ is_whole_file number }
{
    number == TABLE || number == MIRROR || number == LOG || number == BITMAP
}

fn keeps_data(alloc: Global, number: u64, attrs: &[Attr]) -> Result<bool, Memory>
    ensures { IfOk result (λ keeps. keeps ≡ implies (is_whole_file number) (not (has_hole (stream_of data_type [] attrs.now)))) }
{
    Ok(!is_whole_file(number) || is_whole(alloc, DATA, &[], attrs)?)
}

fn keeps_bitmap(alloc: Global, number: u64, attrs: &[Attr]) -> Result<bool, Memory>
    ensures { IfOk result (λ keeps. keeps ≡ implies (number == table_file) (not (has_hole (stream_of bitmap_type [] attrs.now)))) }
{
    Ok(number != TABLE || is_whole(alloc, BITMAP_TYPE, &[], attrs)?)
}

fn is_index_whole(alloc: Global, attrs: &[Attr]) -> Result<bool, Memory>
    ensures { IfOk result (λ whole. whole ≡ (not (has_hole (stream_of index_allocation names_index attrs.now)) && not (has_hole (stream_of bitmap_type names_index attrs.now)))) }
{
    Ok(
        is_whole(alloc, INDEX_ALLOCATION, &NAMES_INDEX, attrs)?
            && is_whole(alloc, BITMAP_TYPE, &NAMES_INDEX, attrs)?,
    )
}

fn keeps_index(alloc: Global, file: &FileRec) -> Result<bool, Memory>
    ensures { IfOk result (λ keeps. keeps ≡ implies (is_directory_record file.now) (not (has_hole (stream_of index_allocation names_index file.now.attrs)) && not (has_hole (stream_of bitmap_type names_index file.now.attrs)))) }
{
    Ok(!is_directory(file) || is_index_whole(alloc, file.attrs().as_slice())?)
}

/// Whether the streams of the file with this number that have to be whole have no sparse run: the
/// unnamed data of `$MFT`, `$MFTMirr`, `$LogFile` and `$Bitmap`, the bitmap of `$MFT`, and the
/// index allocation and the bitmap of a directory's `$I30` (Linux-NTFS documentation, "Data runs").
/// The error is want of memory. Linear in the attributes and the runs, as `stream_of` is.
#[tactic(auto, unfolding(volume_model::specs::Sizes::keeps_whole))]
pub fn keeps_whole(alloc: Global, number: u64, file: &FileRec) -> Result<bool, Memory>
    ensures { IfOk result (λ keeps. keeps ≡ keeps_whole number file.now) }
{
    let attrs = file.attrs().as_slice();
    Ok(
        keeps_data(alloc, number, attrs)?
            && keeps_bitmap(alloc, number, attrs)?
            && keeps_index(alloc, file)?,
    )
}

fn is_data_initialised(alloc: Global, attrs: &[Attr]) -> Result<bool, Memory>
    ensures { IfOk result (λ is. is ≡ is_initialised (stream_of data_type [] attrs.now)) }
{
    let stream = stream_of(alloc, DATA, &[], attrs)?;
    Ok(is_initialised(&stream))
}

/// Whether the data of the file with this number is initialised up to its real size, if it is
/// `$MFT`. The error is want of memory. Linear in the attributes and the runs, as `stream_of` is.
pub fn keeps_table(alloc: Global, number: u64, file: &FileRec) -> Result<bool, Memory>
    ensures { IfOk result (λ keeps. keeps ≡ keeps_table number file.now) }
{
    Ok(number != TABLE || is_data_initialised(alloc, file.attrs().as_slice())?)
}

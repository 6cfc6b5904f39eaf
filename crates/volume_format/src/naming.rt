ghost use Rattle.std.specs.Prelude.{◌≡◌, ◌<◌, ◌^◌, IfOk};
ghost use Rattle.volume_format.specs.Layouts.{IsLayout};
ghost use Rattle.volume_format.specs.Files.{system_name, system_data, is_directory, sequence, reference, FitsData, allocated_of, bytes_of, name_fields, name_value};
ghost use Rattle.volume_format.specs.declared.naming.Data.TheVariants.{Clusters};

use crate::layout::Layout;
use crate::zeros::zeroed;
use host_base::{Bytes, FileRef};
use record_model::FileNameValue;
use std::alloc::{AllocError, Global};
use std_values::NamedValue;
use utf16_name::Name;

/// Where the data without a name of a system file lie.
#[derive(Clone, Copy, Debug, PartialEq, Eq)]
pub enum Data {
    /// There are none.
    Absent,
    /// No bytes, in the record.
    Empty,
    /// In so many clusters from this one on, with so many bytes.
    Clusters {
        first: u64,
        clusters: u64,
        bytes: u64,
    },
}

// The file's flags: hidden and system, and a directory.
const SYSTEM: u32 = 6;

const SYSTEM_DIRECTORY: u32 = 0x1000_0006;

// The name of a system file, in letters of one byte.
#[tactic(auto, unfolding(crate::specs::Files::system_name))]
fn letters(number: u64) -> &'static [u8]
    requires { number < 12 }
    ensures { result.now ≡ system_name number }
{
    match number {
        0 => b"$MFT",
        1 => b"$MFTMirr",
        2 => b"$LogFile",
        3 => b"$Volume",
        4 => b"$AttrDef",
        5 => b".",
        6 => b"$Bitmap",
        7 => b"$Boot",
        8 => b"$BadClus",
        9 => b"$Secure",
        10 => b"$UpCase",
        _ => b"$Extend",
    }
}

/// Letters of one byte as UTF-16 units.
pub fn units(alloc: Global, letters: &[u8]) -> Result<Vec<u16>, AllocError>
    ensures { IfOk result (λ units. units.items ≡ letters.now) }
{
    let mut units = Vec::new(alloc);
    for letter in letters {
        units.push(u16::from(*letter))?;
    }
    Ok(units)
}

// The name of a system file.
fn name(alloc: Global, number: u64) -> Result<Name, AllocError>
    requires { number < 12 }
    ensures { IfOk result (λ name. name ≡ system_name number) }
{
    let units = units(alloc, letters(number))?;
    match Name::checked(alloc, &units) {
        Ok(name) => Ok(name),
        Err(_) => Err(AllocError),
    }
}

fn clusters(first: u64, clusters: u64, bytes: u64) -> Data
    ensures { result ≡ Clusters first clusters bytes }
{
    Data::Clusters {
        first,
        clusters,
        bytes,
    }
}

/// Where the data of a system file lie.
#[tactic(auto, unfolding(crate::specs::Files::system_data))]
pub fn data_of(v: Layout, number: u64) -> Data
    requires { IsLayout v }
    ensures value { result ≡ system_data v number }
    ensures fits { FitsData result }
{
    match number {
        0 => clusters(4, 16, 65_536),
        1 => clusters(2, 1, 4096),
        2 => clusters(52, v.log_pages, 4096 * v.log_pages),
        4 => Data::Empty,
        6 => clusters(
            v.cluster_bits_first(),
            v.bitmap_clusters,
            v.cluster_bits_bytes(),
        ),
        7 => clusters(0, 2, 8192),
        9 => Data::Empty,
        10 => clusters(20, 32, 131_072),
        _ => Data::Absent,
    }
}

/// Whether a system file is a directory.
#[tactic(auto, unfolding(crate::specs::Files::is_directory))]
pub fn is_directory(number: u64) -> bool
    ensures { result ≡ is_directory number }
{
    number == 5 || number == 11
}

/// The sequence number of a record.
#[tactic(auto, unfolding(crate::specs::Files::sequence))]
pub fn sequence(number: u64) -> u16
    ensures { result ≡ sequence number }
{
    if number > 0 && number < 24 {
        number as u16
    } else {
        1
    }
}

/// The reference of a record.
pub fn reference(number: u64) -> FileRef
    ensures { result ≡ reference number }
{
    FileRef {
        number,
        seq: sequence(number),
    }
}

// The allocated size and the bytes of data.
fn sizes(place: Data) -> (u64, u64)
    requires { FitsData place }
    ensures allocated { result.0 ≡ allocated_of place }
    ensures bytes { result.1 ≡ bytes_of place }
{
    match place {
        Data::Clusters {
            clusters,
            bytes,
            ..
        } => (4096 * clusters, bytes),
        _ => (0, 0),
    }
}

// The fields of a system file's name.
fn fields(alloc: Global, v: Layout, time: u64, number: u64) -> Result<FileNameValue, AllocError>
    requires layout { IsLayout v }
    requires system { number < 12 }
    ensures { IfOk result (λ fields. fields ≡ name_fields v time number) }
{
    let name = name(alloc, number)?;
    let (allocated, real) = sizes(data_of(v, number));
    Ok(FileNameValue {
        parent: reference(5),
        created: time,
        modified: time,
        changed: time,
        read_at: time,
        allocated,
        real,
        flags: if is_directory(number) {
            SYSTEM_DIRECTORY
        } else {
            SYSTEM
        },
        space: 3,
        name,
    })
}

/// The value of a system file's name.
#[tactic(auto, unfolding(crate::specs::Files::name_value))]
pub fn name_value(alloc: Global, v: Layout, time: u64, number: u64) -> Result<Bytes, AllocError>
    requires layout { IsLayout v }
    requires system { number < 12 }
    ensures { IfOk result (λ value. value ≡ name_value v time number) }
{
    let fields = fields(alloc, v, time, number)?;
    let mut value = zeroed(alloc, 0x42 + 2 * fields.name.units().len())?;
    fields.write(&mut value);
    Ok(Bytes::from(value))
}
